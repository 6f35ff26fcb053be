ghost use Rattle.std.specs.Prelude.{◌≤◌, IfOk, vec_capacity};

use crate::job_list::JobList;
use crate::table::Table;
use crate::workspace::Workspace;
use orders::Waiting;
use std::alloc::{AllocError, Global};

impl Workspace {
    // The memory for any plan, or an error where there is not so much.
    pub fn new(heap: Global) -> Result<Workspace, AllocError>
        ensures { IfOk result (λ w. (1024 ≤ vec_capacity w.jobs.list) × (1280 ≤ vec_capacity w.table.rows)) }
    {
        let list = Vec::with_capacity(heap, 1024)?;
        let lacks = vec![in heap; 0; 1024]?;
        let slots = Box::new(heap, [Waiting::default(); 1024])?;
        let rows = Vec::with_capacity(heap, 1280)?;
        Ok(Workspace {
            jobs: JobList::new(list),
            table: Table { lacks, rows },
            slots,
        })
    }
}
