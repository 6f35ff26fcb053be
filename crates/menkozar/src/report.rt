// What is found for a book, in lines.

use books::Book;
use planning::{chosen_period, seek};
use std::io;

// The least hyperperiod up to the ceiling and the chosen period of each task, or the refusal.
pub(crate) fn hyperperiod<B: Book>(rt: &HostRuntime, book: &B, ceiling: u32) -> io::Result<()> {
    println!(rt; "seek up to {ceiling}")?;
    match seek(book, ceiling) {
        Ok(number) => {
            println!(rt; "hyperperiod,{number}")?;
            periods(rt, book, number)
        }
        Err(refusal) => println!(rt; "refused,{refusal}"),
    }
}

fn periods<B: Book>(rt: &HostRuntime, book: &B, number: u32) -> io::Result<()> {
    for task in 0..book.count() {
        if let Some(period) = chosen_period(book, task, number) {
            println!(rt; "period,{task},{period}")?;
        }
    }
    Ok(())
}
