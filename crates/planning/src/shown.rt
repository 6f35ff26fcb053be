// How rows, refusals and plans are printed: their numbers, parted by commas. An impl for each, since each
// has its own fields.

ghost use Rattle.std.specs.Prelude.{[], ◌∷◌, length, Some};
ghost use Rattle.books.specs.Shown.{commas};
ghost use Rattle.planning.specs.Refusals.{number as number_of, place as place_of};

use crate::job::Row;
use crate::plan::Plan;
use crate::refusal::Refusal;
use std::fmt;

// Its frame, its task, its job and its length.
impl fmt::Display for Row {
    ghost output = { λ row. Some (commas (row.frame ∷ row.task ∷ row.job ∷ row.length ∷ [])) };

    fn fmt<W: fmt::Write>(&self, f: &mut fmt::Formatter<W>) -> fmt::Result {
        write!(
            f,
            "{},{},{},{}",
            self.frame, self.task, self.job, self.length
        )
    }
}

// Its number and its place.
impl fmt::Display for Refusal {
    ghost output = { λ refusal. Some (commas (number_of refusal ∷ place_of refusal ∷ [])) };

    fn fmt<W: fmt::Write>(&self, f: &mut fmt::Formatter<W>) -> fmt::Result {
        write!(f, "{},{}", self.number(), self.place())
    }
}

// Its hyperperiod, its frame size, and how many jobs and rows it has.
impl fmt::Display for Plan {
    ghost output = { λ plan. Some (commas (plan.hyperperiod ∷ plan.frame_size ∷ plan.jobs ∷ length plan.rows.items ∷ [])) };

    fn fmt<W: fmt::Write>(&self, f: &mut fmt::Formatter<W>) -> fmt::Result {
        write!(
            f,
            "{},{},{},{}",
            self.hyperperiod(),
            self.frame_size(),
            self.jobs(),
            self.row_count()
        )
    }
}
