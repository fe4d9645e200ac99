// Moves of a single index ("Contraction").
ghost use Rattle.std.specs.Prelude.{◌≡◌, [], ◌∷◌, ◌<◌, pos, neg_ℤ};
ghost use Rattle.calculus.specs.Term.{var};
ghost use Rattle.calculus.specs.Words.{variable_kind, kind_of, payload_of};
ghost use Rattle.calculus.specs.Shift.{move};
ghost use Rattle.walk.specs.Index.{distance_bound, Moves, Movable};
ghost use Rattle.walk.specs.Rewritten.{shifting, rewritten, argument_at};

use words::Word;
use words::kind::Kind;

// The index moved by a signed distance: their sum as integers. No other code adds to an index or takes from it. Back by `as`: `Moves` says
// that it fits.
fn moved(index: u32, distance: i32) -> u32
    requires { Moves distance index }
    ensures { result ≡ move distance index }
{
    (i64::from(index) + i64::from(distance)) as u32
}

// The distance up by so many binders, and down. By `as`: the bound makes it exact, and `try_from` would answer a Result that is never an Err.
pub fn up(binders: u32) -> i32
    requires { binders < distance_bound }
    ensures { result ≡ pos binders }
{
    binders as i32
}

pub fn down(binders: u32) -> i32
    requires { binders < distance_bound }
    ensures { result ≡ neg_ℤ (pos binders) }
{
    -(binders as i32)
}

// A variable under so many binders of the moved part, its index moved if it is free.
pub fn shift_variable(word: Word, depth: u32, distance: i32) -> Word
    requires { (kind_of word.0 ≡ variable_kind) × Movable distance depth (var (payload_of word.0)) }
    ensures { rewritten (shifting distance) depth word.0 ≡ result.0 ∷ [] }
{
    let index = word.payload();
    if depth <= index {
        return Word::new(Kind::Variable, moved(index, distance));
    }
    word
}

// The place, from the first, of the one of `count` arguments that stands for a variable under so many binders, if one does.
pub fn argument(word: Word, depth: u32, count: usize) -> Option<usize>
    requires { (kind_of word.0 ≡ variable_kind) × (depth < distance_bound) }
    ensures { result ≡ argument_at count depth word.0 }
{
    let index = word.payload();
    if depth <= index {
        let k = moved(index, down(depth)) as usize;
        if k < count {
            return Some(count - 1 - k);
        }
    }
    None
}
