use crate::job_list::JobList;
use crate::table::Table;
use orders::Waiting;

pub mod make;

// The memory that a plan is worked out in, taken once: the jobs, the table that is being written, and
// slots for the jobs that wait in a frame. The slots are no part of the table, since a heap has them
// on loan while the table is written.
#[derive(Drop)]
pub struct Workspace {
    pub(crate) jobs: JobList,
    pub(crate) table: Table,
    pub(crate) slots: Box<[Waiting; 1024]>,
}
