// The jobs of one task with their windows, how many jobs all tasks have, and the tasks that have no
// figures to be planned with. That a hyperperiod is at most 1,000,000 and a period at least 1 is asked of
// each call: both are numbers that the caller has at hand, and a type for them would be made for these alone.

ghost use Rattle.std.specs.Prelude.{◌≡◌, ℕ, ◌+◌, ◌/◌, ◌<◌, ◌≤◌, ◌++◌, length, vec_len, vec_capacity, MatchOption, slice_index};
ghost use Rattle.planning.specs.Charges.{figures_at, Charged, LowestUncharged};
ghost use Rattle.planning.specs.Placing.{Sum};
ghost use Rattle.planning.specs.Windows.{jobs_of_task};

use crate::job::{Figures, Job};

// The number of jobs in the hyperperiod: for each task, as many as its period goes into it.
pub(crate) fn count_jobs(hyperperiod: u32, periods: &[u32]) -> u32
    requires range { (length periods.now ≤ 16) × (hyperperiod ≤ 1000000) }
    requires periods { (t : ℕ) → t < length periods.now → 1 ≤ slice_index periods.now t }
    ensures { result ≡ Sum (length periods.now) (λ t. hyperperiod / slice_index periods.now t) }
{
    let mut count = 0;
    // A loop, since a closure that divides would have to know of each period that it is above 0.
    for period in periods {
        count += hyperperiod / *period;
    }
    count
}

// The figures noted for the task, and figures of 0 where none are.
pub(crate) fn figures_of(figures: &[Option<Figures>], task: usize) -> Figures
    ensures { result ≡ figures_at figures.now task }
{
    figures.get(task).copied().flatten().unwrap_or_default()
}

// Lists the jobs of one task: a window is as long as the smaller of deadline and period.
pub(crate) fn list_task(
    hyperperiod: u32,
    task: u32,
    period: u32,
    figures: Figures,
    jobs: &mut Vec<Job>,
)
    requires range { (1 ≤ period) × (period ≤ 200000) × (hyperperiod ≤ 1000000) }
    requires room { vec_len jobs.old + hyperperiod / period ≤ vec_capacity jobs.old }
    ensures items { jobs.new.items ≡ jobs.old.items ++ jobs_of_task hyperperiod task period figures }
    ensures len { vec_len jobs.new ≡ vec_len jobs.old + hyperperiod / period }
    ensures capacity { vec_capacity jobs.new ≡ vec_capacity jobs.old }
{
    let count = hyperperiod / period;
    let length = figures.deadline.min(period);
    for job in 0..count {
        let release = job * period;
        jobs.push_reserved(Job {
            task,
            job,
            release,
            end: release + length,
            cost: figures.cost,
        });
    }
}

// The lowest of the tasks that has no figures.
pub(crate) fn lowest_uncharged(figures: &[Option<Figures>], tasks: u32) -> Option<u32>
    ensures { MatchOption result (Charged figures.now tasks) (LowestUncharged figures.now tasks) }
{
    // Over the tasks and not the figures, since a task past them has none either.
    for task in 0..tasks {
        if figures.get(task as usize).copied().flatten().is_none() {
            return Some(task);
        }
    }
    None
}
