// The table of a frame size: every frame is served in turn, and the table is complete if no job lacks
// anything in the end.

ghost use Rattle.std.specs.Prelude.{◌≡◌, ℕ, ◌*◌, ◌<◌, ◌≤◌, [], length, vec_len, vec_capacity, MatchBool, slice_index};
ghost use Rattle.planning.specs.FrameRows.{Unfinished};
ghost use Rattle.planning.specs.Placing.{Finishes, Gifts, IsGreedy};
ghost use Rattle.planning.specs.Rows.{GreedyRows};
ghost use Rattle.planning.specs.Windows.{job_at, placed};

use crate::job::Row;
use crate::job_list::JobList;
use orders::Waiting;

// The table that is being written, in memory that was taken once: what each job still lacks, and the
// rows so far. What is lacked is no part of the listed jobs, which stay while each size begins anew.
#[derive(Drop)]
pub(crate) struct Table {
    pub(crate) lacks: Vec<u32>,
    pub(crate) rows: Vec<Row>,
    ghost lacks_room: { vec_len lacks ≡ 1024 },
    ghost rows_short: { vec_len rows ≤ 1280 },
    ghost rows_room: { 1280 ≤ vec_capacity rows },
}

impl Table {
    // Writes the rows of the greedy table of `count` frames, and answers whether it finishes every
    // job: a yes or no, as the rows stay in memory that is used again. Count and size go together
    // here alone, and so are no struct.
    pub(crate) fn write(
        &mut self,
        jobs: &JobList,
        count: u32,
        size: u32,
        slots: &mut [Waiting; 1024],
    ) -> bool
        requires frames { count ≤ 256 }
        requires short { count * size ≤ 1000000 }
        ensures finishes { (G : Gifts) → IsGreedy (placed jobs.now.list.items) (record { count = count; size = size }) G → MatchBool result (Finishes (placed jobs.now.list.items) (record { count = count; size = size }) G) (Unfinished (placed jobs.now.list.items) (record { count = count; size = size }) G) }
        ensures rows { GreedyRows jobs.now.list.items (record { count = count; size = size }) self.new.rows.items }
    {
        self.reset(jobs);
        for frame in 0..count {
            self.serve(jobs, frame, size, slots);
        }
        self.is_complete(jobs)
    }

    // No rows yet, and every job lacks all that it costs.
    fn reset(&mut self, jobs: &JobList)
        ensures lacks { (i : ℕ) → i < length jobs.now.list.items → slice_index self.new.lacks.items i ≡ (job_at jobs.now.list.items i).cost }
        ensures rows { self.new.rows.items ≡ [] }
    {
        self.rows.clear();
        // By place, since what two iterators zipped write into a vector is not known afterwards.
        for (i, job) in jobs.list.iter().enumerate() {
            self.lacks[i] = job.cost;
        }
    }

    // Whether none of the jobs lacks anything.
    fn is_complete(&self, jobs: &JobList) -> bool
        ensures { MatchBool result ((i : ℕ) → i < length jobs.now.list.items → slice_index self.now.lacks.items i ≡ 0) ((i : ℕ) × (i < length jobs.now.list.items) × (0 < slice_index self.now.lacks.items i)) }
    {
        self.lacks[..jobs.list.len()].iter().all(|lack| *lack == 0)
    }
}
