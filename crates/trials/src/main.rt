// Planners on books that are written for the trial alone: each is driven through a list of calls, and
// every answer is printed on a line.
#![tactic(auto)]

mod answer;
mod barred;
mod calls;
mod odd_ones;

use crate::barred::Barred;
use crate::odd_ones::OddOnes;
use books::Book;
use run::Call;
use run::drive::drive;
use std::io;
use std::process::ExitCode;

fn main(rt: HostRuntime) -> ExitCode {
    programs::exit_code(&rt, "trials", run_all(&rt))
}

fn run_all(rt: &HostRuntime) -> anyhow::Result<()> {
    println!(rt; "Two tasks, and nothing allowed")?;
    trial(rt, Barred { tasks: 2 }, &calls::BARRED)?;
    println!(rt; "No tasks")?;
    trial(rt, Barred { tasks: 0 }, &calls::OUT_OF_COUNT)?;
    println!(rt; "More than 16 tasks")?;
    trial(rt, Barred { tasks: 40 }, &calls::OUT_OF_COUNT)?;
    println!(rt; "Two tasks with every odd period from 3 to 99")?;
    trial(rt, OddOnes, &calls::ODD_ONES)?;
    Ok(())
}

// Drives a planner on the book through the calls.
fn trial<B: Book + Drop>(rt: &HostRuntime, book: B, calls: &[Call]) -> io::Result<()> {
    let answers = drive(rt.alloc(), book, calls)?;
    for answer in &answers {
        answer::line(rt, *answer)?;
    }
    Ok(())
}
