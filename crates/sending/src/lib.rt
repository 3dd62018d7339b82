// What the calls of the ring share: the ring's memory, the refusals of a server that no call can use, and sending a message.
#![tactic(auto)]

mod memory;
mod outgoing;
mod refusals;

pub use memory::Memory;
pub use outgoing::send;
pub use refusals::refuse_server;
