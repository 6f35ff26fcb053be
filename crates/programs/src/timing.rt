ghost use Rattle.std.specs.Prelude.{IfOk};
ghost use Rattle.planning.specs.Refusals.{Sought};

use books::Book;
use planning::{Refusal, seek};
use std::io;
use std::io::{Eprint, Print};
use std::time::{Clock, Instant};

// Looks for the least hyperperiod up to a million, and answers what it finds, which also goes to standard
// output; how long it took goes to standard error.
pub fn search<B: Book>(
    rt: &(impl Print + Eprint + Clock),
    name: &str,
    book: &B,
) -> io::Result<Result<u32, Refusal>>
    ensures { IfOk result (Sought (B.Book.means book.now) 1000000) }
{
    let start = Instant::now(rt)?;
    let found = seek(book, 1_000_000);
    let micros = start.elapsed(rt)?.as_micros();
    match found {
        Ok(number) => println!(rt; "{name}: {number}")?,
        Err(refusal) => println!(rt; "{name}: refused,{}", refusal.number())?,
    }
    eprintln!(rt; "{name}: {micros} microseconds")?;
    Ok(found)
}
