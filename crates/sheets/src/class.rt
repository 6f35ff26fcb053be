ghost use Rattle.std.specs.Prelude.{◌≡◌};
ghost use Rattle.sheets.specs.Entries.{class_of, range_of_class};

// The low and the high that a class letter stands for. A match on letters, as the classes are written down.
pub(crate) fn class_range(letter: char) -> Option<(u32, u32)>
    ensures { result ≡ range_of_class letter }
{
    match letter {
        'P' => Some((4, 5)),
        'B' => Some((8, 10)),
        'C' => Some((10, 12)),
        'R' => Some((20, 30)),
        'D' => Some((40, 50)),
        'L' => Some((100, 120)),
        _ => None,
    }
}

// The range of the class that the bytes name by one letter.
pub(crate) fn class_named(bytes: &[u8]) -> Option<(u32, u32)>
    ensures { result ≡ class_of bytes.now }
{
    match bytes {
        [letter] => class_range(char::from(*letter)),
        _ => None,
    }
}
