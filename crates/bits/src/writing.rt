// Ones put into lent bytes in which every bit from a position on is 0.
ghost use Rattle.std.specs.Prelude.{◌≡◌, true, ◌++◌, ◌+◌, ◌*◌, ◌%◌, ◌≤◌, ◌<◌, length, take, drop, replicate};
ghost use Rattle.encoding.specs.Bytes.{byte_bits, unpacked, packed};
ghost use Rattle.encoding.specs.Encoded.{all_zero};
ghost use Rattle.bits.specs.Runs.{position_bound};

use crate::BYTE_BITS;

// Puts so many ones from a position on, as far as its byte goes.
fn put_in_byte(bytes: &mut [u8], at: usize, count: usize)
    requires at_bound { (at < byte_bits * length bytes.old) × (at % byte_bits + count ≤ byte_bits) }
    requires rest_zero { all_zero (drop at (unpacked bytes.old)) ≡ true }
    ensures { bytes.new ≡ packed (length bytes.old) (take at (unpacked bytes.old) ++ replicate count true) }
{
    let before = (at % BYTE_BITS) as u32;
    let ones = (256u32 >> before) - (256u32 >> (before + count as u32));
    let byte = u32::from(bytes[at / BYTE_BITS]) + ones;
    bytes[at / BYTE_BITS] = byte as u8;
}

// Puts so many ones from a position on, a byte at a time.
pub fn put_ones(bytes: &mut [u8], from: usize, count: usize)
    requires count_bound { (from + count ≤ byte_bits * length bytes.old) × (from + count < position_bound) }
    requires rest_zero { all_zero (drop from (unpacked bytes.old)) ≡ true }
    ensures { bytes.new ≡ packed (length bytes.old) (take from (unpacked bytes.old) ++ replicate count true) }
{
    let mut at = from;
    let mut left = count;
    // By hand: a turn goes on by as many ones as its byte takes. By what is left, not up to an end: then the compiler sees that a single one is one turn.
    while 0 < left {
        let ones = left.min(BYTE_BITS - at % BYTE_BITS);
        put_in_byte(bytes, at, ones);
        at += ones;
        left -= ones;
    }
}
