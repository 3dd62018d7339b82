// The lines in which programs print a schedule, and the listing of a whole input.
#![tactic(auto)]

pub mod lines;
pub mod whole;
