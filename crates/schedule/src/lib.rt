// Schedules: a header and steps as bytes, reading them with every fault told by its place.
#![tactic(auto)]

pub mod faults;
pub mod headers;
pub mod reader;
pub mod steps;
pub mod whole;
