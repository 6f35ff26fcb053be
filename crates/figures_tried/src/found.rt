// What is found, as text.

use crate::figure::Asked;
use books::Book;
use planning::{Plan, Refusal, chosen_period};
use programs::Lines;
use std::alloc::{AllocError, Global};

// The hyperperiod with the chosen period of each task.
pub(crate) fn hyperperiod<B: Book>(
    heap: Global,
    book: &B,
    number: u32,
) -> Result<String, AllocError> {
    let mut text = format!(in heap; "{number} with periods")?;
    for task in 0..book.count() {
        if let Some(period) = chosen_period(book, task, number) {
            text.push_str(format!(in heap; " {period}")?.as_str())?;
        }
    }
    text.push_str("\n")?;
    Ok(text)
}

// The numbers of the plan or, where the table is asked, all of its lines.
pub(crate) fn plan(heap: Global, plan: &Plan, asked: Asked) -> Result<String, AllocError> {
    match asked {
        Asked::Table => format!(in heap; "{}", Lines(plan)),
        Asked::Hyperperiod | Asked::Plan => format!(in heap; "plan,{plan}\n"),
    }
}

// The number of the question that got a no, and its place.
pub(crate) fn refused(heap: Global, refusal: Refusal) -> Result<String, AllocError> {
    format!(in heap; "refused,{refusal}\n")
}
