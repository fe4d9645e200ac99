// The bits of an encoding, read as the words that they stand for.
ghost use Rattle.std.specs.Prelude.{◌≡◌, false, ◌+◌, ◌*◌, ◌-◌, ◌%◌, ◌≤◌, ◌<◌, length, take, drop, get_or};
ghost use Rattle.std.proofs.Math.Seq.{slice};
ghost use Rattle.encoding.specs.Bytes.{byte_bits, unpacked, number};
ghost use Rattle.bits.specs.Runs.{window_bits, run};
ghost use Rattle.bits.specs.Tokens.{token, token_of};

use crate::{BYTE_BITS, WINDOW_BITS};

const WINDOW_BYTES: usize = 8;

// What bits start with: one of the two words that have no index, or a variable's.
#[derive(Clone, Copy)]
pub enum Token {
    Abstraction,
    Application,
    Variable(usize),
}

// The number whose bits are those of the eight bytes from a position on, the first of them highest, with 0 for the bytes past the end.
fn window(bytes: &[u8], at: usize) -> u64
    requires { at ≤ length bytes.now }
    ensures { result ≡ number window_bits (unpacked (drop at bytes.now)) }
{
    let rest = &bytes[at..];
    if let Some(whole) = rest.first_chunk::<WINDOW_BYTES>() {
        return u64::from_be_bytes(*whole);
    }
    // By index: the library's `copy_from_slice` is C's memmove, which the archive doesn't ask for.
    let mut window = [0u8; WINDOW_BYTES];
    for i in 0..rest.len() {
        window[i] = rest[i];
    }
    u64::from_be_bytes(window)
}

// The ones in a row from a position on, as many as its window shows: the leading zeros of the window's complement.
fn ones_in_window(bytes: &[u8], at: usize) -> usize
    requires { at ≤ byte_bits * length bytes.now }
    ensures { result ≡ run (take (window_bits - at % byte_bits) (drop at (unpacked bytes.now))) }
{
    let window = window(bytes, at / BYTE_BITS) << (at % BYTE_BITS) as u32;
    u64::leading_zeros(!window) as usize
}

// The ones in a row from a position on and before an end.
fn ones(bytes: &[u8], from: usize, to: usize) -> usize
    requires { (from ≤ to) × (to ≤ byte_bits * length bytes.now) }
    ensures { result ≡ run (slice from to (unpacked bytes.now)) }
{
    let most = to - from;
    let mut count: usize = 0;
    // By hand: a turn goes on by as many ones as its window shows.
    while count < most {
        let at = from + count;
        let run = ones_in_window(bytes, at);
        if most - count <= run {
            return most;
        }
        count += run;
        if run < WINDOW_BITS - at % BYTE_BITS {
            return count;
        }
    }
    count
}

// Whether the bit at a position is 1.
fn is_one(bytes: &[u8], at: usize) -> bool
    requires { at < byte_bits * length bytes.now }
    ensures { result ≡ get_or (unpacked bytes.now) at false }
{
    let below = (BYTE_BITS - 1 - at % BYTE_BITS) as u32;
    (u32::from(bytes[at / BYTE_BITS]) >> below) % 2 == 1
}

// What the bits from a position on and before an end start with: nothing where they end early.
pub fn first_token(bytes: &[u8], from: usize, to: usize) -> Option<Token>
    requires { (from < to) × (to ≤ byte_bits * length bytes.now) }
    ensures { token_of result ≡ token (slice from to (unpacked bytes.now)) }
{
    if is_one(bytes, from) {
        let run = ones(bytes, from, to);
        if run == to - from {
            return None;
        }
        return Some(Token::Variable(run - 1));
    }
    if to - from < 2 {
        return None;
    }
    if is_one(bytes, from + 1) {
        return Some(Token::Application);
    }
    Some(Token::Abstraction)
}
