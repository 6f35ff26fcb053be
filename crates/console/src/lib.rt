// From two sheets to the text that they are answered with, in one call. What is promised starts in
// specs/Answers.antt.
#![tactic(auto)]

ghost use Rattle.console.specs.Answers.{Answered};

pub mod error;

pub use error::AnswerError;
use prepare::{PrepareError, blank, prepare};
use printer::{print, print_notice};
use std::alloc::Global;

// Prints into the buffer, which is its caller's, the plan of the tasks that the two sheets tell, or the refusal.
pub fn answer(
    heap: Global,
    ranges: &[u8],
    lists: &[u8],
    step: u32,
    ceiling: u32,
    out: &mut [u8],
) -> Result<usize, AnswerError>
    ensures { Answered ranges.now lists.now step ceiling out.old out.new result }
{
    let mut planner = blank(heap)?;
    match prepare(heap, ranges, lists, step, ceiling, &mut planner) {
        Ok(_) => Ok(print(&planner, out)?),
        Err(PrepareError::Fault(fault)) => Ok(print_notice(fault.notice(), out)?),
        // By hand, since the other case of the error is answered here.
        Err(PrepareError::Memory(wanting)) => Err(wanting.into()),
    }
}
