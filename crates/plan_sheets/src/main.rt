// The frame planner's program: reads the range sheet and the list sheet in its folder, plans their tasks,
// and prints the plan or the refusal. A missing sheet is an empty one.
#![tactic(auto)]

use console::{AnswerError, answer};
use std::fs::File;
use std::io;
use std::io::{ErrorKind, Read, Write};
use std::process::ExitCode;

// One byte more than a sheet may have, which tells one that is too long.
const MOST: u64 = 4_097;

// Longer than the text of any plan: 1,297 lines of at most 31 bytes.
const ROOM: usize = 65_536;

fn main(rt: HostRuntime) -> ExitCode {
    programs::exit_code(&rt, "plan_sheets", run(&rt))
}

fn run(rt: &HostRuntime) -> anyhow::Result<()> {
    let ranges = sheet(rt, "ranges.txt")?;
    let lists = sheet(rt, "lists.txt")?;
    let mut text = vec![in rt.alloc(); 0; ROOM]?;
    match answer(rt.alloc(), &ranges, &lists, 1, 1_000_000, &mut text) {
        Ok(len) => rt.stdout().write_all(&text[..len])?,
        Err(AnswerError::Printing(refusal)) => println!(rt; "refused,{}", refusal.notice())?,
        // By hand, since the other case of the error is answered here.
        Err(AnswerError::Memory(wanting)) => return Err(wanting.into()),
    }
    Ok(())
}

// The first bytes of a sheet, no more than tell whether it is too long.
fn sheet(rt: &HostRuntime, path: &str) -> io::Result<Vec<u8>> {
    let mut bytes = Vec::new(rt.alloc());
    match File::open(rt, path) {
        Ok(file) => {
            file.take(MOST).read_to_end(&mut bytes)?;
        }
        // By hand, since one error of opening is none here: a missing sheet is an empty one.
        Err(error) if error.kind() == ErrorKind::NotFound => {}
        Err(error) => return Err(error),
    }
    Ok(bytes)
}
