// The jobs of a hyperperiod, and where each task's begin among them.

ghost use Rattle.std.specs.Prelude.{◌≡◌, ℕ, ◌/◌, ◌<◌, ◌≤◌, length, vec_len, vec_capacity, slice_index};
ghost use Rattle.planning.specs.Charges.{figures_at};
ghost use Rattle.planning.specs.Placing.{Sum};
ghost use Rattle.planning.specs.Waits.{waiting_of};
ghost use Rattle.planning.specs.OrderKept.{InOrder-prop};
ghost use Rattle.planning.specs.Windows.{InOrder, Indexed, job_at, jobs_of};

use crate::job::{Figures, Job};
use crate::windows::{figures_of, list_task};
use orders::Waiting;

// Jobs listed task by task, no more than 1,024, with the position of each task's first job. The
// memory for as many is taken when the list is made.
#[derive(Drop)]
pub(crate) struct JobList {
    pub(crate) list: Vec<Job>,
    // An array, since each list is written over the last: a place for each of the 16 tasks there may be.
    firsts: [u32; 16],
    ghost room: { 1024 ≤ vec_capacity list },
    ghost few: { vec_len list ≤ 1024 },
    ghost order: { InOrder list.items } by { InOrder-prop list.items },
    ghost indexed: { Indexed firsts list.items },
}

impl JobList {
    // No jobs yet, in memory for as many as a plan may have.
    pub(crate) fn new(list: Vec<Job>) -> JobList
        requires empty { vec_len list ≡ 0 }
        requires room { 1024 ≤ vec_capacity list }
        ensures { result.list ≡ list }
    {
        JobList {
            list,
            firsts: [0; 16],
        }
    }

    // Lists the jobs of all tasks anew, and notes the position of each task's first job.
    pub(crate) fn list_anew(
        &mut self,
        hyperperiod: u32,
        periods: &[u32],
        figures: &[Option<Figures>],
    )
        requires range { (length periods.now ≤ 16) × (hyperperiod ≤ 1000000) }
        requires periods { (t : ℕ) → t < length periods.now → (1 ≤ slice_index periods.now t) × (slice_index periods.now t ≤ 200000) }
        requires few { Sum (length periods.now) (λ t. hyperperiod / slice_index periods.now t) ≤ 1024 }
        ensures { self.new.list.items ≡ jobs_of hyperperiod (λ t. slice_index periods.now t) (figures_at figures.now) (length periods.now) }
    {
        self.list.clear();
        // By the tasks' numbers, which the jobs bear.
        for (task, period) in periods.iter().enumerate() {
            self.firsts[task] = self.list.len() as u32;
            list_task(
                hyperperiod,
                task as u32,
                *period,
                figures_of(figures, task),
                &mut self.list,
            );
        }
    }

    // The position of a listed job, by what is told of it while it waits.
    pub(crate) fn position(&self, waiting: Waiting) -> usize
        requires { (i : ℕ) × (i < length self.now.list.items) × (waiting ≡ waiting_of (job_at self.now.list.items i)) }
        ensures { (i : ℕ) → i < length self.now.list.items → waiting ≡ waiting_of (job_at self.now.list.items i) → result ≡ i }
    {
        (self.firsts[waiting.task as usize] + waiting.job) as usize
    }
}
