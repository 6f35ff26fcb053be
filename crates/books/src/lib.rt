// Books of periods: which periods each task of a console may have.
// A book answers three questions by its meaning, a count and a set of allowed pairs of task and
// period, and changes nothing by answering. What is promised starts in specs/Meaning.antt.
#![tactic(auto)]

pub mod book;
pub mod fault;
pub mod grid;
pub mod list_book;
mod period;
pub mod range_book;
mod shown;
pub mod side_by_side;

pub use book::Book;
pub use fault::EntryFault;
pub use grid::Grid;
pub use list_book::ListBook;
pub use range_book::RangeBook;
pub use side_by_side::SideBySide;
