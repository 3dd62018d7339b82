// Values that a register can hold: the interface of a kind, and the two kinds there are.
#![tactic(auto)]

pub mod fault;
pub mod kind;
pub mod level;
pub mod mark;
pub mod value;
