// The planning call's answer, in lines.

use planning::{Plan, Refusal};
use programs::Lines;
use std::io;

// The plan's own line, or the refusal.
pub(crate) fn line(rt: &HostRuntime, planned: Result<&Plan, Refusal>) -> io::Result<()> {
    match planned {
        Ok(plan) => println!(rt; "plan,{plan}"),
        Err(refusal) => println!(rt; "refused,{refusal}"),
    }
}

// The plan with its periods and its table, or the refusal.
pub(crate) fn whole(rt: &HostRuntime, planned: Result<&Plan, Refusal>) -> io::Result<()> {
    match planned {
        Ok(plan) => print!(rt; "{}", Lines(plan)),
        Err(refusal) => println!(rt; "refused,{refusal}"),
    }
}
