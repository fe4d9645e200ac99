// Whether there are only zeros in lent bytes from a position on.
ghost use Rattle.std.specs.Prelude.{◌≡◌, ◌==◌, not, ◌&&◌, ◌*◌, ltb, length, drop};
ghost use Rattle.std.specs.List.{list_all};
ghost use Rattle.encoding.specs.Bytes.{byte_bits, unpacked};
ghost use Rattle.encoding.specs.Encoded.{all_zero};

use crate::BYTE_BITS;

// Whether every byte is 0.
fn are_zero(bytes: &[u8]) -> bool
    ensures { result ≡ list_all (λ b. b == 0) bytes.now }
{
    bytes.iter().all(|b| *b == 0)
}

// Whether so many bits are lent, and every one past them is 0.
pub fn is_padded(bytes: &[u8], bits: usize) -> bool
    ensures { result ≡ (not (ltb (byte_bits * length bytes.now) bits) && all_zero (drop bits (unpacked bytes.now))) }
{
    let whole = bits / BYTE_BITS;
    let rest = bits % BYTE_BITS;
    match bytes.get(whole) {
        // The bits of the byte past the first `rest` are its value below this power of two.
        Some(byte) => u32::from(*byte) % (256u32 >> rest as u32) == 0
            && are_zero(&bytes[whole + 1..]),
        None => whole == bytes.len() && rest == 0,
    }
}
