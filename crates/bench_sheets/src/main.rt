// Demanding searches and large sheets: what each gives goes to standard output, and how long it took to
// standard error.
#![tactic(auto)]

mod measured;
mod table;

use crate::measured::{SHEETS, Sheets};
use books::{Grid, ListBook, RangeBook, SideBySide};
use console::{AnswerError, answer};
use programs::grids::FOUR_RANGES;
use programs::{List, Range, entered, four_grids, search};
use std::io;
use std::io::Write;
use std::process::ExitCode;
use std::time::Instant;

fn main(rt: HostRuntime) -> ExitCode {
    programs::exit_code(&rt, "bench_sheets", run(&rt))
}

fn run(rt: &HostRuntime) -> anyhow::Result<()> {
    search_ranges_and_lists(rt)?;
    search_grids(rt)?;
    let mut text = vec![in rt.alloc(); 0; 65_536]?;
    for sheets in &SHEETS {
        answer_sheets(rt, *sheets, &mut text)?;
    }
    Ok(())
}

fn search_ranges_and_lists(rt: &HostRuntime) -> io::Result<()> {
    let _ = search(rt, "four ranges", &entered(&FOUR_RANGES))?;
    let never = on_sheets(&table::WIDE, &table::BESIDE_WIDE);
    let _ = search(rt, "eight wide ranges beside eight lists", &never)?;
    let late = on_sheets(&table::LATE_RANGES, &table::LATE_LISTS);
    let _ = search(rt, "ten wide ranges beside six lists", &late)?;
    Ok(())
}

// The book that two sheets make.
fn on_sheets(first: &[Range], second: &[List]) -> Grid<SideBySide<RangeBook, ListBook>> {
    Grid::new(SideBySide::new(entered(first), entered(second)), 1)
}

fn search_grids(rt: &HostRuntime) -> io::Result<()> {
    let low = SideBySide::new(four_grids(2, 3, 5, 7), four_grids(11, 13, 17, 19));
    let _ = search(rt, "eight coprime grids", &low)?;
    let mixed = SideBySide::new(low, entered(&table::WIDE));
    let _ = search(rt, "eight coprime grids beside eight wide ranges", &mixed)?;
    Ok(())
}

// Answers the sheets, and prints how long the text is and its first line.
fn answer_sheets(rt: &HostRuntime, sheets: Sheets, text: &mut [u8]) -> anyhow::Result<()> {
    let Sheets {
        name,
        ranges,
        lists,
    } = sheets;
    let start = Instant::now(rt)?;
    let answered = answer(rt.alloc(), ranges, lists, 1, 1_000_000, text);
    let micros = start.elapsed(rt)?.as_micros();
    match answered {
        Ok(len) => {
            print!(rt; "{name}: {len} bytes, ")?;
            rt.stdout().write_all(first_line(text))?;
        }
        Err(AnswerError::Printing(refusal)) => println!(rt;
            "{name}: not printed, {}",
            refusal.number()
        )?,
        // By hand, since the other case of the error is answered here.
        Err(AnswerError::Memory(wanting)) => return Err(wanting.into()),
    }
    eprintln!(rt; "{name}: {micros} microseconds")?;
    Ok(())
}

// The text up to its first newline, which it ends with.
fn first_line(text: &[u8]) -> &[u8] {
    match text.iter().position(|&byte| byte == b'\n') {
        Some(at) => &text[..=at],
        None => text,
    }
}
