// Numbers of a schedule: reading them from an input, with places, and writing them.
#![tactic(auto)]

pub mod cursor;
pub mod faults;
pub mod writing;
