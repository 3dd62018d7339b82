// One operation of the ring: its tag, its state, and what each event makes of it.
#![tactic(auto)]

mod operation;
mod questions;
mod tag;

pub use operation::{Event, Operation, Request, State};
pub use tag::Tag;
