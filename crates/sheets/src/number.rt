ghost use Rattle.sheets.specs.Steps.{NumberRead};

// The number that the bytes write: 1 to 6 digits without a leading zero, from 1 to 200,000.
pub(crate) fn parse_number(bytes: &[u8]) -> Option<u32>
    ensures { NumberRead bytes.now result }
{
    if !(1..=6).contains(&bytes.len()) || bytes[0] == b'0' {
        return None;
    }
    let mut number = 0;
    for byte in bytes {
        if !byte.is_ascii_digit() {
            return None;
        }
        number = number * 10 + u32::from(*byte - b'0');
    }
    (number <= 200_000).then_some(number)
}
