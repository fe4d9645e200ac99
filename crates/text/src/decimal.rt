// Text put into lent bytes, each time from a position on; what is returned is the position after it. By no `Display`: what it prints
// would be copied here then, and `Placed`, which is promised, speaks of the slice. The slice and the position stay apart: a value of both would say in each contract that it
// holds the same slice still.
ghost use Rattle.std.specs.Prelude.{◌≡◌, [], ◌∷◌, ◌≤◌, ◌+◌, length};
ghost use Rattle.words.specs.Placed.{Placed};
ghost use Rattle.text.specs.Decimal.{digits_most, decimal, field, newline};

use words::slices::copy;

// A number of 64 bits has at most so many digits.
pub const DIGITS_MOST: usize = 20;

const BASE: usize = 10;

pub fn put_bytes(bytes: &[u8], out: &mut [u8], at: usize) -> usize
    requires { at + length bytes.now ≤ length out.old }
    ensures { Placed out.old at bytes.now out.new result }
{
    copy(bytes, 0, bytes.len(), out, at)
}

// Keeps the digits of a number, the lowest at the end, and returns where they start.
fn keep_digits(n: usize, kept: &mut [u8]) -> usize
    requires { length kept.old ≡ digits_most }
    ensures { Placed kept.old result (decimal n) kept.new digits_most }
{
    let mut rest = n;
    for i in (0..DIGITS_MOST).rev() {
        kept[i] = (rest % BASE) as u8 + b'0';
        if rest < BASE {
            return i;
        }
        rest /= BASE;
    }
    0
}

// A number in base ten.
fn put_decimal(n: usize, out: &mut [u8], at: usize) -> usize
    requires { at + length (decimal n) ≤ length out.old }
    ensures { Placed out.old at (decimal n) out.new result }
{
    let mut digits = [0u8; DIGITS_MOST];
    let from = keep_digits(n, &mut digits);
    put_bytes(&digits[from..], out, at)
}

// A number behind a space.
pub fn put_field(n: usize, out: &mut [u8], at: usize) -> usize
    requires { at + length (field n) ≤ length out.old }
    ensures { Placed out.old at (field n) out.new result }
{
    out[at] = b' ';
    put_decimal(n, out, at + 1)
}

// The end of a line.
pub fn put_end(out: &mut [u8], at: usize) -> usize
    requires { at + 1 ≤ length out.old }
    ensures { Placed out.old at (newline ∷ []) out.new result }
{
    out[at] = b'\n';
    at + 1
}
