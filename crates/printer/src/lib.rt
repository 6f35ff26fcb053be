// The printer: a plan and a refusal as lines of text, written into a buffer that the caller lends. A
// line is a word and numbers; a buffer that is too short is left as it was. What is promised starts in
// specs/Text.antt.
#![tactic(auto)]

mod line;
mod lines;
mod measure;
pub mod printing;
pub mod refusal;

pub use printing::{print, print_notice};
pub use refusal::PrintRefusal;
