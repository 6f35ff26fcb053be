// The planner and its run: tasks are charged with figures, a plan is made, and its table is gone
// through event by event, repetition after repetition. Every call is proved against a plain account
// of the calls and answers before it. What is promised starts in specs/Account.antt.
#![tactic(auto)]

pub mod call;
pub mod drive;
pub mod event;
pub mod planner;
pub mod refusal;
mod shown;

pub use call::{Answer, Call};
pub use event::Event;
pub use planner::Planner;
pub use planner::calls::Granted;
pub use refusal::Refusal;
