// Writing the headers and steps of schedules into a buffer.
#![tactic(auto)]

mod parts;
pub mod writer;
