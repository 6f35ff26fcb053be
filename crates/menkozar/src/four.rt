// Four ranges, for which only the hyperperiod and the periods are sought.

use crate::report;
use programs::grids::FOUR_RANGES;
use programs::{Enter, Range};
use std::io;

// Names beside the ranges, which several programs have and which bear none.
const NAMES: [&str; 4] = ["a", "b", "c", "d"];

pub(crate) fn seek(rt: &HostRuntime) -> io::Result<()> {
    println!(rt; "Four ranges (Brocal and others, 2013)")?;
    let mut book = Range::empty();
    for (name, range) in NAMES.iter().zip(&FOUR_RANGES) {
        println!(rt; "range,{name},{},{}", range.low, range.high)?;
        if let Err(fault) = range.enter(&mut book) {
            println!(rt; "refused,{fault}")?;
        }
    }
    report::hyperperiod(rt, &book, 1_000_000)
}
