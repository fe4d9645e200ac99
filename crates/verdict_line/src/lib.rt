// The verdict program's work on slices: bytes in, the printed line out.
#![tactic(auto)]

ghost use Rattle.verdict_line.specs.Line.{printed};
ghost use Rattle.words.specs.Placed.{Placed};

use judge::judge;
use verdict_text::{PRINTED_MOST, put_line};

pub mod judge;

// Puts what is printed for the bytes at the start of `out`, and returns its length.
pub fn line(bytes: &[u8], out: &mut [u8; PRINTED_MOST]) -> usize
    ensures { Placed out.old 0 (printed bytes.now) out.new result }
{
    put_line(judge(bytes), out)
}
