// Which payloads a word of each kind may have.
ghost use Rattle.std.specs.Prelude.{◌≡◌};
ghost use Rattle.calculus.specs.Payload.{payload_fits};

use crate::Word;
use crate::kind::Kind;
use crate::pattern::{is_pattern, is_tagged};

// The kind is a number, as a record has it, which may be no kind's. Where it is a constant, the compiler leaves the test of that kind alone.
#[tactic(auto, unfolding(calculus::specs::Payload::payload_fits))]
pub fn payload_fits(kind: u32, payload: u32) -> bool
    ensures { result ≡ payload_fits kind payload }
{
    match Kind::from(kind) {
        Kind::Variable => payload <= Word::INDEX_MOST,
        Kind::Abstraction => payload == 0,
        Kind::Application => payload == 0,
        Kind::Constructor => is_tagged(payload),
        Kind::Case => payload <= Word::BRANCHES_MOST,
        Kind::Branch => is_pattern(payload),
        Kind::Numeral => payload <= Word::NUMERAL_MOST,
        Kind::Unassigned => false,
    }
}
