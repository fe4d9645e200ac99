// Parts of slices filled and copied. There is no heap, and C lends slices of numbers, so what is put has a position and stands in no vector.
ghost use Rattle.std.specs.Prelude.{◌≡◌, ◌≤◌, ◌-◌, length, replicate, set};
ghost use Rattle.std.proofs.lemmas.List.Edits.{sets};
ghost use Rattle.std.proofs.Math.Seq.{slice};
ghost use Rattle.words.specs.Placed.{Placed, Copies};

// Puts a word at a position; outside it changes nothing.
pub fn store(ws: &mut [u32], at: usize, word: u32)
    ensures { ws.new ≡ set ws.old at word }
{
    if at < ws.len() {
        ws[at] = word;
    }
}

// Puts a word into every place from a position to an end: `fill` of the part, by the equation that its callers want. Over u32: with
// `T: Copy` alone std's `fill` does not say that a clone is the value.
pub fn fill(ws: &mut [u32], from: usize, to: usize, word: u32)
    requires { (from ≤ to) × (to ≤ length ws.old) }
    ensures { ws.new ≡ sets ws.old from (replicate (to - from) word) }
{
    ws[from..to].fill(word);
}

// Copies what stands from a position to an end to a position of another slice; returns the position after the copy.
pub fn copy<T: Copy>(src: &[T], from: usize, to: usize, dst: &mut [T], out: usize) -> usize
    requires { Copies src.now from to dst.old out }
    ensures { Placed dst.old out (slice from to src.now) dst.new result }
{
    // By index: the library's `copy_from_slice` is C's memmove, which the archive doesn't ask for.
    for i in 0..to - from {
        dst[out + i] = src[from + i];
    }
    out + (to - from)
}
