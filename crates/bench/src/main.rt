// Demanding searches: what each finds goes to standard output, and how long it took to standard
// error.
#![tactic(auto)]

use books::SideBySide;
use programs::grids::FOUR_RANGES;
use programs::{Only, entered, four_grids, search};
use std::io;

const PRIMES: [Only; 16] = [
    Only(2),
    Only(3),
    Only(5),
    Only(7),
    Only(11),
    Only(13),
    Only(17),
    Only(19),
    Only(23),
    Only(29),
    Only(31),
    Only(37),
    Only(41),
    Only(43),
    Only(47),
    Only(53),
];

fn main(rt: HostRuntime) -> io::Result<()> {
    let _ = search(&rt, "four ranges", &entered(&FOUR_RANGES))?;
    // No number up to a million is a multiple of them all.
    let _ = search(&rt, "sixteen lists of one prime", &entered(&PRIMES))?;
    let low = SideBySide::new(four_grids(2, 3, 5, 7), four_grids(11, 13, 17, 19));
    let _ = search(&rt, "eight coprime grids", &low)?;
    let high = SideBySide::new(four_grids(23, 29, 31, 37), four_grids(41, 43, 47, 53));
    let _ = search(&rt, "sixteen coprime grids", &SideBySide::new(low, high))?;
    Ok(())
}
