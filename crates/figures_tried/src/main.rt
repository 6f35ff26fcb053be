// Worked figures: each is tried in the same memory, and what is found is held to the stored answer.
#![tactic(auto)]

mod figure;
mod found;
mod sample;
mod shelf;
mod table;
mod trial;

use crate::sample::try_sample;
use crate::table::FIGURES;
use crate::trial::try_figure;
use anyhow::anyhow;
use programs::PlanSpace;
use std::process::ExitCode;

fn main(rt: HostRuntime) -> ExitCode {
    programs::exit_code(&rt, "figures_tried", run(&rt))
}

fn run(rt: &HostRuntime) -> anyhow::Result<()> {
    let mut space = PlanSpace::new(rt.alloc())?;
    let mut all = true;
    for figure in &FIGURES {
        all &= try_figure(rt, figure, &mut space)?;
    }
    all &= try_sample(rt)?;
    if !all {
        return Err(anyhow!("not every figure is as stored"));
    }
    println!(rt; "every figure is as stored")?;
    Ok(())
}
