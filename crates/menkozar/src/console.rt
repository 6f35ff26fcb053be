// A cycling console: what its tasks can live with, on a grid of two ticks. The incline's range and
// the upload's list are not in order, and are refused.

use crate::entries::{Named, entered};
use crate::session;
use books::{Grid, SideBySide};
use planning::Figures;
use programs::{List, Range};
use run::Planner;
use std::io;

const RANGES: [Named<Range>; 5] = [
    Named {
        name: "pulse",
        periods: Range { low: 4, high: 5 },
        figures: Figures {
            cost: 1,
            deadline: 4,
        },
    },
    Named {
        name: "brake",
        periods: Range { low: 8, high: 10 },
        figures: Figures {
            cost: 1,
            deadline: 8,
        },
    },
    Named {
        name: "cadence",
        periods: Range { low: 10, high: 12 },
        figures: Figures {
            cost: 1,
            deadline: 12,
        },
    },
    Named {
        name: "zones",
        periods: Range { low: 20, high: 30 },
        figures: Figures {
            cost: 1,
            deadline: 20,
        },
    },
    Named {
        name: "incline",
        periods: Range { low: 30, high: 20 },
        figures: Figures {
            cost: 1,
            deadline: 20,
        },
    },
];

const LISTS: [Named<List>; 3] = [
    Named {
        name: "display",
        figures: Figures {
            cost: 4,
            deadline: 40,
        },
        periods: List(&[25, 40, 50]),
    },
    Named {
        name: "radio",
        figures: Figures {
            cost: 6,
            deadline: 100,
        },
        periods: List(&[100, 120, 125]),
    },
    Named {
        name: "upload",
        figures: Figures {
            cost: 5,
            deadline: 400,
        },
        periods: List(&[500, 400]),
    },
];

pub(crate) fn show(rt: &HostRuntime) -> io::Result<()> {
    println!(rt; "A console: ranges and lists side by side, on a grid of 2")?;
    let mut figures = Vec::new(rt.alloc());
    let ranges = entered(rt, &RANGES, &mut figures)?;
    let lists = entered(rt, &LISTS, &mut figures)?;
    let book = Grid::new(SideBySide::new(ranges, lists), 2);
    let mut planner = Planner::new(rt.alloc(), book)?;
    session::charge_all(rt, &mut planner, &figures)?;
    session::plan_and_run(rt, &mut planner, 1_000_000)?;
    session::refusals(rt, &mut planner)
}
