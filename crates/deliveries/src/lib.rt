// Deliver: a server takes one message from the wiring, and what the message does there.
#![tactic(auto)]

mod delivering;
mod hearing;
mod taking;

pub use delivering::deliver;
