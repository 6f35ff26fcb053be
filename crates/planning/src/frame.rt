// The service of one frame: the jobs that it is open to and that lack something wait in a heap, and
// the first of them is served as long as ticks are left.

ghost use Rattle.std.specs.Prelude.{◌≡◌, ◌+◌, ◌-◌, ◌*◌, ◌<◌, ◌≤◌, min, [], ◌∷◌, ◌++◌, length, take, vec_len, vec_capacity, slice_index, slice_set};
ghost use Rattle.planning.specs.FrameRows.{FrameServed, RowsAdded, fallen};
ghost use Rattle.planning.specs.Waits.{Holds, lacking, waits_at, waits_for};

use crate::job::{Job, Row};
use crate::job_list::JobList;
use crate::table::Table;
use orders::{Heap, Waiting};

impl Table {
    // Serves a frame: takes from what each job lacks what the frame gives to it, and writes a row
    // for each gift. The slots are memory for the jobs that wait.
    pub(crate) fn serve(
        &mut self,
        jobs: &JobList,
        frame: u32,
        size: u32,
        slots: &mut [Waiting; 1024],
    )
        requires short { frame * size + size ≤ 1000000 }
        requires room { vec_len self.old.rows + lacking (length jobs.now.list.items) self.old.lacks.items + 1 ≤ 1280 }
        ensures served { FrameServed jobs.now.list.items frame size self.old.lacks.items self.new.lacks.items }
        ensures rows { RowsAdded jobs.now.list.items frame (fallen self.old.lacks.items self.new.lacks.items) self.old.rows.items self.new.rows.items }
        ensures few { vec_len self.new.rows + lacking (length jobs.now.list.items) self.new.lacks.items ≤ vec_len self.old.rows + lacking (length jobs.now.list.items) self.old.lacks.items + 1 }
        ensures capacity { (vec_capacity self.new.rows ≡ vec_capacity self.old.rows) × (vec_capacity self.new.lacks ≡ vec_capacity self.old.lacks) }
    {
        let begin = frame * size;
        let count = gather(jobs, &self.lacks, begin, begin + size, slots);
        let mut waiting = Heap::new(slots, count);
        let mut left = size;
        while left > 0 {
            let Some(first) = waiting.take() else {
                return;
            };
            left -= self.give(frame, first, jobs.position(first), left);
        }
    }

    // Gives the first job, which stands at the position, the smaller of what it lacks and what is
    // left of the frame, and writes the row.
    fn give(&mut self, frame: u32, first: Waiting, position: usize, left: u32) -> u32
        requires inside { position < 1024 }
        requires room { vec_len self.old.rows < 1280 }
        ensures gift { result ≡ min (slice_index self.old.lacks.items position) left }
        ensures lacks { self.new.lacks.items ≡ slice_set self.old.lacks.items position (slice_index self.old.lacks.items position - result) }
        ensures rows { self.new.rows.items ≡ self.old.rows.items ++ (record { frame = frame; task = first.task; job = first.job; length = result }) ∷ [] }
        ensures len { vec_len self.new.rows ≡ vec_len self.old.rows + 1 }
        ensures capacity { (vec_capacity self.new.rows ≡ vec_capacity self.old.rows) × (vec_capacity self.new.lacks ≡ vec_capacity self.old.lacks) }
    {
        let gift = self.lacks[position].min(left);
        self.lacks[position] -= gift;
        self.rows.push_reserved(Row {
            frame,
            task: first.task,
            job: first.job,
            length: gift,
        });
        gift
    }
}

// Writes the jobs that wait for the frame from `begin` to `end` into the first slots, and answers how
// many there are.
fn gather(jobs: &JobList, lacks: &[u32], begin: u32, end: u32, slots: &mut [Waiting; 1024]) -> usize
    requires { length jobs.now.list.items ≤ length lacks.now }
    ensures few { result ≤ length jobs.now.list.items }
    ensures held { Holds jobs.now.list.items (waits_at jobs.now.list.items lacks.now begin end) (take result slots.new) }
{
    let mut count = 0;
    // By place, since a job and what it lacks stand at the same place of two lists; the slots are memory
    // on loan, with a count.
    for (i, job) in jobs.list.iter().enumerate() {
        if waits(*job, lacks[i], begin, end) {
            slots[count] = Waiting {
                end: job.end,
                task: job.task,
                job: job.job,
            };
            count += 1;
        }
    }
    count
}

// Whether the frame from `begin` to `end` is open to the job, and the job lacks something.
fn waits(job: Job, lack: u32, begin: u32, end: u32) -> bool
    ensures { result ≡ waits_for begin end job lack }
{
    job.release <= begin && end <= job.end && lack > 0
}
