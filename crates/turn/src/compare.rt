// Comparison of two terms.
ghost use Rattle.std.specs.Prelude.{◌≡◌};
ghost use Rattle.calculus.specs.Comparison.{compare_words, position_of};
ghost use Rattle.turn.specs.Compare.{Agrees};
ghost use Rattle.turn.specs.Types.{comparison_of};

// Compares the words of two terms, of which the first `from` are known to be the same: the word position, counted from 0, where they differ first, or
// nothing where they are equal.
pub fn compare_terms(left: &[u32], right: &[u32], from: usize) -> Option<usize>
    requires { Agrees from left.now right.now }
    ensures { comparison_of result ≡ compare_words left.now right.now }
{
    let shorter = left.len().min(right.len());
    for i in from..shorter {
        if left[i] != right[i] {
            return Some(i);
        }
    }
    if left.len() == right.len() {
        return None;
    }
    Some(shorter)
}

// The position where two terms differ, 0 where they are equal. All words before it are the same.
pub fn position(compared: Option<usize>) -> usize
    ensures { result ≡ position_of (comparison_of compared) }
{
    compared.unwrap_or(0)
}
