// The table of the ring's servers: what the calls of the ring ask and change of it, in the words of the rules.
#![tactic(auto)]

mod changes;
mod fleet;
mod making;
mod passes;
mod questions;

pub use fleet::Fleet;
