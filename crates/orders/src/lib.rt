// Orders: elements in a total order, and a heap of them over memory that its caller lends.
// A heap holds exactly what was put in and not yet taken out, gives the least of it, and never
// writes behind the places that it needs. What is promised starts in specs/Order.antt.
#![tactic(auto)]

pub mod candidate;
pub mod heap;
pub mod ranked;
mod sift;
pub mod waiting;

pub use candidate::Candidate;
pub use heap::Heap;
pub use ranked::Ranked;
pub use waiting::Waiting;
