// The ring: one replicated register on two to eight servers, in fixed memory. Each call is the rule of its name; nothing here allocates, reads or prints.
#![tactic(auto)]

mod calls;
mod ring;
mod step;

pub use questions::{Answer, Kind};
pub use ring::Ring;
