// A press on a session that is lent: each press renews the session in place.
#![tactic(auto)]

ghost use Rattle.std.specs.Prelude.{◌≡◌};
ghost use Rattle.claim.specs.Press.{press};
ghost use Rattle.press.specs.Types.{memory_of, call_of, pressed_of};

use press::answer::{Answer, Pressed};
use press::state::Session;

// The covered press, with the session lent: total, lengths and verdict are stored in it, and the answer is handed back. A refusal leaves it as it
// was.
pub fn press(
    left: &mut [u32],
    right: &mut [u32],
    scratch: &mut [u32],
    left_length: usize,
    right_length: usize,
    budget: u32,
    session: &mut Session,
) -> Answer
    ensures { pressed_of (record { answer = result; session = session.new }) left.new right.new scratch.new
        ≡ press (memory_of left.old right.old session.old) (call_of scratch.old left_length right_length budget) }
{
    let pressed = press::press(
        left,
        right,
        scratch,
        left_length,
        right_length,
        budget,
        *session,
    );
    *session = pressed.session;
    pressed.answer
}

// The same with the session by value, and the same pieces as `press::press`: it is lent to the press above, and handed back. Both stay: docs/ARCHITECTURE.md names them.
pub fn press_owned(
    left: &mut [u32],
    right: &mut [u32],
    scratch: &mut [u32],
    left_length: usize,
    right_length: usize,
    budget: u32,
    mut session: Session,
) -> Pressed
    ensures { pressed_of result left.new right.new scratch.new
        ≡ press (memory_of left.old right.old session) (call_of scratch.old left_length right_length budget) }
{
    let answer = press(
        left,
        right,
        scratch,
        left_length,
        right_length,
        budget,
        &mut session,
    );
    Pressed { answer, session }
}
