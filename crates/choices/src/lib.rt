// The choices of a turn: which group of what waits at a server goes next, and which entry of that group goes first.
// They take the fleet and the journal apart: the ring's memory, which holds both, belongs to the crates above that send and change.
#![tactic(auto)]

mod entries;
mod groups;
mod keys;

pub use entries::first_entry;
pub use groups::{chosen_group, groups_waiting};
