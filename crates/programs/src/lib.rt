// What several programs share: how a program ends, tasks that are entered into books, the memory that
// plans are made in, the lines of a plan, and books that are hard to search, with the time that a
// search takes.
#![tactic(auto)]

pub mod ending;
pub mod enter;
pub mod grids;
pub mod lines;
pub mod periods;
pub mod plan_space;
pub mod task;
pub mod timing;

pub use ending::exit_code;
pub use enter::{Enter, entered};
pub use grids::four_grids;
pub use lines::Lines;
pub use periods::{List, Only, Range};
pub use plan_space::PlanSpace;
pub use task::{InLine, Task, figures_of};
pub use timing::search;
