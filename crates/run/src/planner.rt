// The planner: a book, the figures noted for its tasks, the plan that stands, and where its run is.

pub mod calls;
pub mod carry;
mod place;
pub mod reads;

use crate::planner::place::Place;
use planning::{Figures, Plan, Workspace};

// A planner on a book. All of its memory is taken when it is made.
#[derive(Drop)]
pub struct Planner<B> {
    book: B,
    // A place for each of the 16 tasks that can be charged.
    figures: [Option<Figures>; 16],
    // Outside of the place, since the plan's memory is taken once and stays where no plan stands.
    plan: Plan,
    // Where the run is, only while the plan stands.
    place: Option<Place>,
    space: Workspace,
}
