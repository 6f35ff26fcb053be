// Lines of a word and numbers.

ghost use Rattle.std.specs.Prelude.{◌≡◌, ◌+◌, ◌≤◌, ◌∷◌, length, decimal};
ghost use Rattle.printer.specs.Puts.{Puts};
ghost use Rattle.printer.specs.Text.{line_text, numbers_text};

// How many digits the number has.
fn digits(n: u32) -> usize
    ensures count { result ≡ length (decimal n) }
    ensures few { result ≤ 10 }
{
    // Most numbers of a table are this short, and cost no logarithm.
    if n < 10 {
        return 1;
    }
    n.ilog10() as usize + 1
}

// How many bytes the line takes.
pub(crate) fn line_len(word: &[u8], numbers: &[u32]) -> usize
    requires short { length word.now ≤ 16 }
    requires few { length numbers.now ≤ 4 }
    ensures count { result ≡ length (line_text word.now numbers.now) }
    ensures parts { result ≡ length word.now + length (numbers_text numbers.now) + 1 }
{
    let mut len = word.len() + 1;
    for number in numbers {
        len += digits(*number) + 1;
    }
    len
}

// Writes the digits of the number into the front of the buffer, and answers how many they are.
// By hand, since the library does not tell which bytes its writer leaves in a lent slice.
fn write_number(out: &mut [u8], n: u32) -> usize
    requires { length (decimal n) ≤ length out.old }
    ensures { Puts (decimal n) out.old out.new result }
{
    if n < 10 {
        out[0] = b'0' + n as u8;
        return 1;
    }
    let at = write_number(out, n / 10);
    out[at] = b'0' + (n % 10) as u8;
    at + 1
}

// Writes a comma and the digits of the number.
fn write_field(out: &mut [u8], n: u32) -> usize
    requires { length (decimal n) + 1 ≤ length out.old }
    ensures { Puts (44 ∷ decimal n) out.old out.new result }
{
    out[0] = b',';
    1 + write_number(&mut out[1..], n)
}

// Writes each number after a comma.
// A loop of its own beside `write_lines`, since a number has neither a line nor a place.
fn write_numbers(out: &mut [u8], numbers: &[u32]) -> usize
    requires { length (numbers_text numbers.now) ≤ length out.old }
    ensures { Puts (numbers_text numbers.now) out.old out.new result }
{
    let mut at = 0;
    for number in numbers {
        at += write_field(&mut out[at..], *number);
    }
    at
}

// Writes the line into the front of the buffer, which has room for it, and answers its length.
pub(crate) fn write_line(out: &mut [u8], word: &[u8], numbers: &[u32]) -> usize
    requires { length word.now + length (numbers_text numbers.now) + 1 ≤ length out.old }
    ensures put { Puts (line_text word.now numbers.now) out.old out.new result }
    ensures parts { result ≡ length word.now + length (numbers_text numbers.now) + 1 }
{
    let mut at = word.len();
    out[..at].copy_from_slice(word);
    at += write_numbers(&mut out[at..], numbers);
    out[at] = b'\n';
    at + 1
}
