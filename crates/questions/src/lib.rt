// What can be asked of the ring at any time: how much is under way, and what was told of an operation. No question changes anything.
#![tactic(auto)]

mod answers;
mod replies;
mod totals;

pub use answers::{Answer, Kind};
pub use replies::answer;
pub use totals::amounts;
