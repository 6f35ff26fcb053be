// The main program's sample: two sheets, and the text that they are answered with.

use crate::table::EXAMPLE;
use crate::trial::compare;
use console::{AnswerError, answer};
use std::io::Write;

const RANGES: &[u8] = b"class,pulse,P,1,4\nrange,zones,11,12,3,12\n";

const LISTS: &[u8] = b"list,radio,2,5,6,9\n";

// Prints the sheets, what they are answered with, and whether that is the stored text.
pub(crate) fn try_sample(rt: &HostRuntime) -> anyhow::Result<bool> {
    println!(rt; "asked: answer to the sheets of")?;
    rt.stdout().write_all(RANGES)?;
    rt.stdout().write_all(LISTS)?;
    let mut text = [0; 1024];
    match answer(rt.alloc(), RANGES, LISTS, 1, 1_000_000, &mut text) {
        Ok(len) => Ok(compare(rt, &text[..len], EXAMPLE)?),
        Err(AnswerError::Printing(refusal)) => {
            println!(rt; "NOT as stored: not printed, {}", refusal.number())?;
            Ok(false)
        }
        // By hand, since the other case of the error is answered here.
        Err(AnswerError::Memory(wanting)) => Err(wanting.into()),
    }
}
