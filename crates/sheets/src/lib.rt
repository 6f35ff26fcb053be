// Sheets of text: what an engineer writes down of a console's tasks, one to a line. A sheet means a list
// of tasks, or gets one refusal with its line and field, for every sequence of bytes. What is promised
// starts in specs/Text.antt.
#![tactic(auto)]

mod class;
pub mod fault;
pub mod field;
pub mod laws;
mod list_sheet;
pub mod names;
pub mod notice;
mod number;
mod range_sheet;
pub mod read;
mod sheet_book;
mod shown;
pub mod tasks;
mod text;

pub use fault::{FieldFault, SheetFault};
pub use field::{Field, field_at};
pub use names::name_of;
pub use notice::Notice;
pub use read::{read_lists, read_ranges};
pub use tasks::Tasks;
