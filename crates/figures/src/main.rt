// Worked figures: each is planned in the same memory, and what comes is printed.
#![tactic(auto)]

mod answer;
mod layers;
mod singles;

use programs::PlanSpace;
use std::process::ExitCode;

fn main(rt: HostRuntime) -> ExitCode {
    programs::exit_code(&rt, "figures", run(&rt))
}

fn run(rt: &HostRuntime) -> anyhow::Result<()> {
    let mut space = PlanSpace::new(rt.alloc())?;
    singles::try_all(rt, &mut space)?;
    layers::try_all(rt, &mut space)?;
    Ok(())
}
