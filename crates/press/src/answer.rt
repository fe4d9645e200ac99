// What a press answers and leaves.
ghost use Rattle.std.specs.Prelude.{◌≡◌};
ghost use Rattle.press.specs.Types.{refused_with};

use crate::state::Session;
use rounds::Shown;
use words::refusal::Refusal;

// What is shown, or why the press is refused.
pub type Answer = Result<Shown, Refusal>;

// The answer with the session as the press leaves it.
#[derive(Clone, Copy)]
pub struct Pressed {
    pub answer: Answer,
    pub session: Session,
}

impl Pressed {
    // A refusal: the session is as it was.
    pub fn refused(refusal: Refusal, session: Session) -> Self
        ensures { result ≡ refused_with refusal session }
    {
        Pressed {
            answer: Err(refusal),
            session,
        }
    }
}
