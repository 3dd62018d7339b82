// The calls by which clients use the ring: make, write, read and give up.
#![tactic(auto)]

mod making;
mod operations;

pub use making::make;
pub use operations::{give_up, read, write};
