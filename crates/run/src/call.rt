// Calls on a planner and their answers, as values.

use crate::event::Event;
use crate::planner::calls::Granted;
use crate::refusal::Refusal;
use planning::Row;

// A call on a planner: the four that drive it, and the reads of its plan.
#[derive(Clone, Copy, Debug, PartialEq, Eq)]
pub enum Call {
    Charge { task: u32, cost: u32, deadline: u32 },
    Plan { ceiling: u32 },
    Rewind,
    Next,
    Period { task: u32 },
    RowAt { index: u32 },
}

// What a call answers. A refusal is a case among the others: an account hears it as one more answer, and the
// law is a match on all of them.
#[derive(Clone, Copy, Debug, PartialEq, Eq)]
pub enum Answer {
    Charged,
    Planned(Granted),
    Rewound,
    Came(Event),
    PeriodIs(Option<u32>),
    RowIs(Option<Row>),
    Refused(Refusal),
}
