// The pick wiring: hands out message (pick number mod count) of a server, counted from 0 by row, then phase (specs/Picks).
#![tactic(auto)]

mod pick_wiring;
mod pile;
mod pile_calls;
mod wiring_calls;

pub use pick_wiring::PickWiring;
