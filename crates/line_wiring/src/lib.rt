// The line wiring: for each server a line of messages, handed out by order of arrival (specs/Lines).
#![tactic(auto)]

mod line_wiring;
mod queue;
mod queue_calls;
mod wiring_calls;

pub use line_wiring::LineWiring;
