// Damaged sheets: each pair is answered, and the answer printed below the pair's name. At the end stand
// the names of the tasks of two sheets in order.
#![tactic(auto)]

mod cases;

use crate::cases::CASES;
use console::{AnswerError, answer};
use sheets::name_of;
use std::io;
use std::io::Write;
use std::process::ExitCode;

fn main(rt: HostRuntime) -> ExitCode {
    programs::exit_code(&rt, "damaged", run(&rt))
}

fn run(rt: &HostRuntime) -> anyhow::Result<()> {
    for case in &CASES {
        println!(rt; "{}", case.name)?;
        show(rt, case.ranges, case.lists)?;
    }
    println!(rt; "a sheet of 4097 bytes")?;
    show(rt, &[b'\n'; 4097], b"")?;
    println!(rt; "a sheet of 4096 bytes, of which none is a newline")?;
    show(rt, &[b'x'; 4096], b"")?;
    println!(rt; "a buffer that is too short")?;
    let mut text = [0; 15];
    tell(rt, &mut text, b"range,pulse,4,5,1,4\n", b"")?;
    names(rt)?;
    Ok(())
}

fn names(rt: &HostRuntime) -> io::Result<()> {
    println!(rt; "the names of tasks 0 to 3")?;
    for task in 0..4 {
        name(rt, task)?;
    }
    Ok(())
}

fn show(rt: &HostRuntime, ranges: &[u8], lists: &[u8]) -> anyhow::Result<()> {
    let mut text = [0; 1024];
    tell(rt, &mut text, ranges, lists)
}

// The answer to the two sheets, on a grid of 1 up to the ceiling 1,000,000.
fn tell(rt: &HostRuntime, text: &mut [u8], ranges: &[u8], lists: &[u8]) -> anyhow::Result<()> {
    match answer(rt.alloc(), ranges, lists, 1, 1_000_000, text) {
        Ok(len) => rt.stdout().write_all(&text[..len])?,
        Err(AnswerError::Printing(refusal)) => println!(rt; "not printed: {}", refusal.number())?,
        // By hand, since the other case of the error is answered here.
        Err(AnswerError::Memory(wanting)) => return Err(wanting.into()),
    }
    Ok(())
}

// The name of a task of two sheets.
fn name(rt: &HostRuntime, task: u32) -> io::Result<()> {
    match name_of(
        b"class,pulse,P,1,4\nrange,zones,11,12,3,12\n",
        b"list,radio,2,5,6,9\n",
        task,
    ) {
        Some(bytes) => {
            rt.stdout().write_all(bytes)?;
            println!(rt; "")
        }
        None => println!(rt; "none"),
    }
}
