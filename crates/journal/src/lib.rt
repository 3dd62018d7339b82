// The journal of the ring: the rows of all operations, in the order in which they began, with their marks and tags.
#![tactic(auto)]

mod answers;
mod changes;
mod journal;
mod questions;

pub use journal::Journal;
pub use messages::ROWS;
