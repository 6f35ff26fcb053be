// Cutting a text at a separator.

ghost use Rattle.std.specs.Prelude.{◌≡◌, ◌+◌, ◌≤◌, [], length, slice_index_or};
ghost use Rattle.sheets.specs.Text.{parts};

// How many parts the separator cuts the text into.
pub(crate) fn count_parts(text: &[u8], separator: u8) -> usize
    ensures value { result ≡ length (parts separator text.now) }
    ensures some { 1 ≤ result }
    ensures few { result ≤ length text.now + 1 }
{
    let mut count = 1;
    for byte in text {
        if *byte == separator {
            count += 1;
        }
    }
    count
}

// The part that has so many before it; empty beyond the last.
pub(crate) fn part<'a>(text: &'a [u8], separator: u8, before: usize) -> &'a [u8]
    ensures { result.now ≡ slice_index_or (parts separator text.now) before [] }
{
    text.split(|byte| *byte == separator)
        .nth(before)
        .unwrap_or(&[])
}
