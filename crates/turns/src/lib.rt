// Turn: a server forwards one message that came to it, or starts one write that is queued there.
#![tactic(auto)]

mod forwarding;
mod starting;
mod turning;

pub use turning::turn;
