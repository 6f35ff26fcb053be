ghost use Rattle.std.specs.Prelude.{◌≡◌, ◌≤◌, length};

use arrayvec::ArrayVec;
use books::Book;
use planning::Figures;

pub mod reads;

// The tasks of a sheet: a book of their periods, and their figures.
#[derive(Drop)]
pub struct Tasks<B> {
    pub(crate) book: B,
    pub(crate) figures: ArrayVec<Figures, 16>,
    ghost few: { length figures.items ≤ 16 },
}

impl<B: Book> Tasks<B> {
    ghost use Rattle.sheets.specs.Reads.{figures_held};

    // The tasks of a book, with their figures.
    pub(crate) fn new(book: B, figures: ArrayVec<Figures, 16>) -> Self
        ensures book { result.book ≡ book }
        ensures figures { figures_held result ≡ figures.items }
    {
        Tasks { book, figures }
    }

    // The figures of the tasks, in their order.
    pub fn figures(&self) -> &[Figures]
        ensures value { result.now ≡ figures_held self.now }
        ensures len { length result.now ≡ length (figures_held self.now) }
        ensures few { length result.now ≤ 16 }
    {
        self.figures.as_slice()
    }
}
