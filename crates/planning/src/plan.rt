ghost use Rattle.std.specs.Prelude.{◌≤◌, vec_len, vec_capacity};
ghost use Rattle.arrayvec.specs.ArrayVec.{array_vec_len};

use crate::job::Row;
use arrayvec::ArrayVec;

pub mod make;
pub mod reads;

// A finished plan: the hyperperiod, the frame size, the chosen period of each task, how many jobs
// there are, and the rows of the table. The memory for the rows is taken when a plan is made.
#[derive(Drop)]
pub struct Plan {
    hyperperiod: u32,
    frame_size: u32,
    frames: u32,
    periods: ArrayVec<u32, 16>,
    jobs: u32,
    rows: Vec<Row>,
    ghost few: { array_vec_len periods ≤ 16 },
    ghost short: { vec_len rows ≤ 1280 },
    ghost room: { 1280 ≤ vec_capacity rows },
}
