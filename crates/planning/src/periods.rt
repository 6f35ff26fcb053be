// What stands before jobs are listed: the hyperperiod and the chosen period of each task.

ghost use Rattle.std.specs.Prelude.{◌≡◌, ℕ, ◌<◌, ◌≤◌, slice_index};
ghost use Rattle.arrayvec.specs.ArrayVec.{array_vec_len};
ghost use Rattle.books.specs.Meaning.{Fair};
ghost use Rattle.planning.specs.Hyperperiod.{Chosen, Serves};
ghost use Rattle.planning.specs.Plans.{Sought as SoughtCharged};

use crate::chosen::chosen_period;
use crate::hyperperiod::Search;
use crate::job::Figures;
use crate::refusal::Refusal;
use crate::windows::lowest_uncharged;
use arrayvec::ArrayVec;
use books::Book;

// The least hyperperiod of a book whose tasks all have figures, under questions 4 to 7.
pub(crate) fn seek_charged<B: Book>(
    book: &B,
    figures: &[Option<Figures>],
    ceiling: u32,
) -> Result<u32, Refusal>
    ensures { SoughtCharged (B.Book.means book.now) figures.now ceiling result }
{
    let search = Search::new(book, ceiling)?;
    if let Some(task) = lowest_uncharged(figures, search.count) {
        return Err(Refusal::TaskWithoutFigures { task });
    }
    search.least()
}

// The chosen period of each task for a number that serves the book.
pub(crate) fn chosen_periods<B: Book>(book: &B, number: u32) -> ArrayVec<u32, 16>
    requires range { (1 ≤ number) × (number ≤ 1000000) }
    requires few { (B.Book.means book.now).count ≤ 16 }
    requires serves { Serves (B.Book.means book.now) number }
    ensures fair { Fair (B.Book.means book.now) }
    ensures count { array_vec_len result ≡ (B.Book.means book.now).count }
    ensures chosen { (t : ℕ) → t < (B.Book.means book.now).count → Chosen (B.Book.means book.now) number t (slice_index result.items t) }
{
    let mut periods = ArrayVec::new();
    for task in 0..book.count() {
        let Some(period) = chosen_period(book, task, number) else {
            unreachable()
        };
        periods.push(period);
    }
    periods
}
