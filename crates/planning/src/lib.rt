// Planning: from a book of periods to the least hyperperiod and the chosen period of each task.
// Each call answers by the book's meaning alone. What is promised starts in
// specs/Hyperperiod.antt.
#![tactic(auto)]

mod chosen;
mod frame;
mod hyperperiod;
mod job;
mod job_list;
pub mod laws;
mod multiples;
mod periods;
pub mod plan;
mod refusal;
mod shown;
mod sizes;
mod table;
mod windows;
pub mod workspace;

pub use chosen::chosen_period;
pub use hyperperiod::seek;
pub use job::{Figures, Job, Row};
pub use plan::Plan;
pub use plan::make::make_plan;
pub use refusal::Refusal;
pub use workspace::Workspace;
