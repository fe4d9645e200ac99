// Whether words are those of one closed term of variables, abstractions and applications, and of nothing else: the check behind refusal 13.
ghost use Rattle.std.specs.Prelude.{◌≡◌, [], ◌∷◌, ◌≤◌, length};
ghost use Rattle.calculus.specs.Words.{workspace_most};
ghost use Rattle.binary.specs.Words.{are_combinators};

use arrayvec::ArrayVec;
use words::Word;
use words::kind::Kind;

// Each argument that is to come was left behind by one word and has another.
const ROOM: usize = Word::WORKSPACE_MOST / 2;

// One walk over the words. The binders around each argument that is to come wait, the next one last.
pub fn is_combinator(words: &[u32]) -> bool
    requires { length words.now ≤ workspace_most }
    ensures { result ≡ are_combinators (0 ∷ []) words.now }
{
    let mut depth: u32 = 0;
    let mut waiting: ArrayVec<u32, ROOM> = ArrayVec::new();
    for (i, w) in words.iter().enumerate() {
        let word = Word(*w);
        // The two words that have no payload are asked for whole and first, which costs less than a kind and then its payload.
        match word.0 {
            Word::ABSTRACTION => depth += 1,
            Word::APPLICATION => {
                // Where the room is full, more are to come than there are words left.
                if waiting.is_full() {
                    return false;
                }
                waiting.push(depth);
            }
            _ => {
                let Kind::Variable = word.kind() else {
                    return false;
                };
                if depth <= word.payload() {
                    return false;
                }
                let Some(next) = waiting.pop() else {
                    return i + 1 == words.len();
                };
                depth = next;
            }
        }
    }
    false
}
