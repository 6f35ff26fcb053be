// Making a plan's memory, and reading a plan.

ghost use Rattle.std.specs.Prelude.{◌≡◌, length, IfOk, if◌then◌else◌, Some, None, nat_lt};
ghost use Rattle.planning.specs.Plans.{Nothing, period_in, row_in, tasks_in};

use crate::job::Row;
use crate::plan::Plan;
use arrayvec::ArrayVec;
use std::alloc::{AllocError, Global};

impl Plan {
    // A plan of nothing, with the memory for the rows of any other.
    pub fn none(heap: Global) -> Result<Plan, AllocError>
        ensures { IfOk result Nothing }
    {
        let rows = Vec::with_capacity(heap, 1280)?;
        Ok(Plan {
            hyperperiod: 0,
            frame_size: 0,
            frames: 0,
            periods: ArrayVec::new(),
            jobs: 0,
            rows,
        })
    }

    pub fn hyperperiod(&self) -> u32
        ensures { result ≡ self.now.hyperperiod }
    {
        self.hyperperiod
    }

    pub fn frame_size(&self) -> u32
        ensures { result ≡ self.now.frame_size }
    {
        self.frame_size
    }

    // How many frames of that size the hyperperiod has.
    pub fn frames(&self) -> u32
        ensures { result ≡ self.now.frames }
    {
        self.frames
    }

    // How many jobs there are in the hyperperiod.
    pub fn jobs(&self) -> u32
        ensures { result ≡ self.now.jobs }
    {
        self.jobs
    }

    // The chosen period of a task; none beyond the last task.
    pub fn period(&self, task: u32) -> Option<u32>
        ensures { result ≡ (if nat_lt task (tasks_in self.now) then Some (period_in self.now task) else None) }
    {
        self.periods().get(task as usize).copied()
    }

    // The chosen periods, task by task.
    pub fn periods(&self) -> &[u32]
        ensures first { result.now ≡ self.now.periods.items }
        ensures count { length result.now ≡ tasks_in self.now }
    {
        self.periods.as_slice()
    }

    // How many rows the table has.
    pub fn row_count(&self) -> u32
        ensures { result ≡ length self.now.rows.items }
    {
        self.rows.len() as u32
    }

    // A row of the table; none beyond the last row.
    pub fn row(&self, index: usize) -> Option<Row>
        ensures { result ≡ row_in self.now.rows.items index }
    {
        self.rows.get(index).copied()
    }

    // The rows of the table, frame by frame.
    pub fn rows(&self) -> &[Row]
        ensures { result.now ≡ self.now.rows.items }
    {
        self.rows.as_slice()
    }
}
