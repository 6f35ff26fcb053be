// The frame planner's program. It writes down what a console's tasks can live with, charges a planner
// with their figures, plans them, goes through the table once, and prints what it was given and what
// came: each event, or why a call is refused.
#![tactic(auto)]

mod console;
mod entries;
mod four;
mod report;
mod session;

use std::process::ExitCode;

fn main(rt: HostRuntime) -> ExitCode {
    programs::exit_code(&rt, "menkozar", run(&rt))
}

fn run(rt: &HostRuntime) -> anyhow::Result<()> {
    console::show(rt)?;
    four::seek(rt)?;
    Ok(())
}
