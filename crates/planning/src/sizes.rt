// The frame size: from one frame to 256, so from the largest size to the smallest.

ghost use Rattle.std.specs.Prelude.{◌≤◌};
ghost use Rattle.planning.specs.SizeFound.{SizeFound};

use crate::job_list::JobList;
use crate::table::Table;
use orders::Waiting;

// The largest permitted size that some table fills, with the rows of its table written;
// none where every size fails.
pub(crate) fn largest_size(
    hyperperiod: u32,
    jobs: &JobList,
    table: &mut Table,
    slots: &mut [Waiting; 1024],
) -> Option<u32>
    requires some { 1 ≤ hyperperiod }
    requires most { hyperperiod ≤ 1000000 }
    ensures { SizeFound jobs.now.list.items hyperperiod table.new.rows.items result }
{
    for count in 1..257 {
        if hyperperiod % count == 0 {
            let size = hyperperiod / count;
            if table.write(jobs, count, size, slots) {
                return Some(size);
            }
        }
    }
    None
}
