// Preparing a planner from two sheets: the books of the range sheet and the list sheet side by side on a
// grid, every task charged in its order, and the plan made. A fault says where it is, in a sheet or in
// the planner. What is promised starts in specs/Prepared.antt.
#![tactic(auto)]

pub mod charges;
pub mod fault;
pub mod preparing;

pub use fault::{PrepareError, PrepareFault, Sheet};
pub use preparing::{SheetPlanner, blank, prepare};
