// A whole list of calls is played on a new ring, with both promises of the run that it makes.
#![tactic(auto)]

mod playing;

pub use playing::{PlayError, play};
