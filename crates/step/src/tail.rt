// Words moved within a slice.
ghost use Rattle.std.specs.Prelude.{◌≡◌};
ghost use Rattle.std.proofs.lemmas.List.Edits.{sets};
ghost use Rattle.std.proofs.Math.Seq.{slice};
ghost use Rattle.words.specs.Placed.{Copies};

// Moves the words from a position to an end to another position of the same slice: down from the first of them on, up from the last on. Those that stay
// where they are cost nothing.
pub fn move_words(ws: &mut [u32], from: usize, to: usize, out: usize)
    requires { Copies ws.old from to ws.old out }
    ensures { ws.new ≡ sets ws.old out (slice from to ws.old) }
{
    // By index: the library's `copy_within` is C's memmove, which the archive doesn't ask for.
    if out < from {
        for i in 0..to - from {
            ws[out + i] = ws[from + i];
        }
    } else if from < out {
        for i in (0..to - from).rev() {
            ws[out + i] = ws[from + i];
        }
    }
}
