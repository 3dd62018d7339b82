// Crashes of servers, and how a server notices the crash of another.
#![tactic(auto)]

mod crashing;
mod noticing;

pub use crashing::crash;
pub use noticing::notice;
