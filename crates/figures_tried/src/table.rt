// The worked figures.

use crate::figure::Periods::{List, Only, Range};
use crate::figure::{Asked, Figure};
use planning::Figures;
use programs::Task;

const MOST: u32 = 1_000_000;

// A task by its periods and, if it has figures, its cost and its deadline. A constant's value calls no
// function, so a macro writes it.
macro_rules! task {
    ($periods:expr) => {
        Task {
            periods: $periods,
            figures: None,
        }
    };
    ($periods:expr, $cost:expr, $deadline:expr) => {
        Task {
            periods: $periods,
            figures: Some(Figures {
                cost: $cost,
                deadline: $deadline,
            }),
        }
    };
}

// The plan of two ranges beside a list, which the main program's sample also gives.
pub(crate) const EXAMPLE: &[u8] = b"plan,12,2,6,9
period,0,4
period,1,12
period,2,6
slice,0,0,0,1
slice,0,2,0,1
slice,1,2,0,1
slice,1,1,0,1
slice,2,0,1,1
slice,2,1,0,1
slice,3,2,1,2
slice,4,0,2,1
slice,4,1,0,1
";

pub(crate) const FIGURES: [Figure; 21] = [
    // The deadline 7 counts as 5.
    Figure {
        tasks: &[
            task!(Only(4), 1, 4),
            task!(Only(5), 2, 7),
            task!(Only(20), 5, 20),
        ],
        step: 1,
        ceiling: MOST,
        asked: Asked::Plan,
        stored: b"plan,20,2,10,16\n",
    },
    Figure {
        tasks: &[task!(Only(2), 1, 2), task!(Only(4), 2, 4)],
        step: 1,
        ceiling: MOST,
        asked: Asked::Plan,
        stored: b"plan,4,2,3,4\n",
    },
    Figure {
        tasks: &[task!(Only(2), 1, 2), task!(Only(3), 2, 3)],
        step: 1,
        ceiling: MOST,
        asked: Asked::Plan,
        stored: b"refused,9,0\n",
    },
    Figure {
        tasks: &[task!(Only(4), 3, 3)],
        step: 1,
        ceiling: MOST,
        asked: Asked::Plan,
        stored: b"plan,4,1,1,3\n",
    },
    Figure {
        tasks: &[task!(Only(4), 3, 2)],
        step: 1,
        ceiling: MOST,
        asked: Asked::Plan,
        stored: b"refused,9,0\n",
    },
    // 257 is a prime: one frame is longer than the window, and 257 frames are too many.
    Figure {
        tasks: &[task!(Only(257), 1, 256)],
        step: 1,
        ceiling: MOST,
        asked: Asked::Plan,
        stored: b"refused,9,0\n",
    },
    Figure {
        tasks: &[task!(Only(256), 1, 255)],
        step: 1,
        ceiling: MOST,
        asked: Asked::Plan,
        stored: b"plan,256,128,1,1\n",
    },
    // 1,024 jobs pass question 8, and question 9 gets a no: no permitted frame is as short as 1.
    Figure {
        tasks: &[task!(Only(1), 1, 1), task!(Only(1023), 1, 1023)],
        step: 1,
        ceiling: MOST,
        asked: Asked::Plan,
        stored: b"refused,9,0\n",
    },
    // 1,025 jobs do not pass question 8.
    Figure {
        tasks: &[task!(Only(1), 1, 1), task!(Only(1024), 1, 1024)],
        step: 1,
        ceiling: MOST,
        asked: Asked::Plan,
        stored: b"refused,8,0\n",
    },
    Figure {
        tasks: &[task!(Range(10, 12), 1, 12), task!(Range(7, 9), 1, 9)],
        step: 1,
        ceiling: MOST,
        asked: Asked::Table,
        stored: b"plan,24,8,5,5
period,0,12
period,1,8
slice,0,1,0,1
slice,0,0,0,1
slice,1,1,1,1
slice,2,0,1,1
slice,2,1,2,1
",
    },
    // No number up to 23 serves both.
    Figure {
        tasks: &[task!(Range(10, 12), 1, 12), task!(Range(7, 9), 1, 9)],
        step: 1,
        ceiling: 23,
        asked: Asked::Plan,
        stored: b"refused,7,0\n",
    },
    Figure {
        tasks: &[task!(Range(10, 12), 1, 12), task!(Range(7, 9))],
        step: 1,
        ceiling: MOST,
        asked: Asked::Plan,
        stored: b"refused,6,1\n",
    },
    Figure {
        tasks: &[task!(List(&[4, 8, 16]), 1, 16), task!(Range(10, 12), 1, 12)],
        step: 1,
        ceiling: MOST,
        asked: Asked::Table,
        stored: b"plan,12,4,4,4
period,0,4
period,1,12
slice,0,0,0,1
slice,0,1,0,1
slice,1,0,1,1
slice,2,0,2,1
",
    },
    // No multiple of 5 lies in the range.
    Figure {
        tasks: &[task!(Range(7, 9), 1, 9)],
        step: 5,
        ceiling: MOST,
        asked: Asked::Plan,
        stored: b"refused,7,0\n",
    },
    Figure {
        tasks: &[
            task!(Range(4, 5), 1, 4),
            task!(Range(11, 12), 3, 12),
            task!(List(&[6, 9]), 2, 5),
        ],
        step: 1,
        ceiling: MOST,
        asked: Asked::Table,
        stored: EXAMPLE,
    },
    Figure {
        tasks: &[task!(Range(10, 12)), task!(Range(7, 9))],
        step: 1,
        ceiling: MOST,
        asked: Asked::Hyperperiod,
        stored: b"24 with periods 12 8\n",
    },
    // This one and the three behind it are worked out by Brocal and others, 2013.
    Figure {
        tasks: &[
            task!(Range(356, 372)),
            task!(Range(653, 681)),
            task!(Range(712, 742)),
            task!(Range(97_994, 102_006)),
        ],
        step: 1,
        ceiling: MOST,
        asked: Asked::Hyperperiod,
        stored: b"98420 with periods 370 665 740 98420\n",
    },
    Figure {
        tasks: &[
            task!(Range(7, 9)),
            task!(Range(13, 14)),
            task!(Range(22, 24)),
            task!(Range(35, 47)),
        ],
        step: 1,
        ceiling: MOST,
        asked: Asked::Hyperperiod,
        stored: b"168 with periods 8 14 24 42\n",
    },
    Figure {
        tasks: &[
            task!(Range(17, 21)),
            task!(Range(25, 30)),
            task!(Range(90, 95)),
        ],
        step: 1,
        ceiling: MOST,
        asked: Asked::Hyperperiod,
        stored: b"90 with periods 18 30 90\n",
    },
    Figure {
        tasks: &[
            task!(Range(357, 364)),
            task!(Range(654, 667)),
            task!(Range(713, 727)),
            task!(Range(97_995, 100_000)),
        ],
        step: 1,
        ceiling: MOST,
        asked: Asked::Hyperperiod,
        stored: b"196020 with periods 363 660 726 98010\n",
    },
    // Worked out by Ripoll and Ballester, 2013.
    Figure {
        tasks: &[
            task!(Range(339, 364)),
            task!(Range(621, 667)),
            task!(Range(677, 727)),
            task!(Range(93_000, 100_000)),
        ],
        step: 1,
        ceiling: MOST,
        asked: Asked::Hyperperiod,
        stored: b"93010 with periods 355 655 710 93010\n",
    },
];
