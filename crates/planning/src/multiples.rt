// The next number that serves a task: a number serves where it is a multiple of a period that the
// book allows to the task.

ghost use Rattle.std.specs.Prelude.{◌≤◌};
ghost use Rattle.planning.specs.Hyperperiod.{NextServing};

use books::Book;

mod least;

// The multiples of the periods that a book allows to a task, those from `from` to `limit`.
#[derive(Drop)]
pub(crate) struct Multiples<'a, B> {
    book: &'a B,
    task: u32,
    from: u32,
    limit: u32,
    ghost range: { (1 ≤ from) × (from ≤ limit) × (limit ≤ 1000000) },
}

// The least number from `from` to `limit` that serves the task.
pub(crate) fn next_serving<B: Book>(book: &B, task: u32, from: u32, limit: u32) -> Option<u32>
    requires { (1 ≤ from) × (from ≤ limit) × (limit ≤ 1000000) }
    ensures { NextServing (B.Book.means book.now) task from limit result }
{
    Multiples {
        book,
        task,
        from,
        limit,
    }
    .least()
}
