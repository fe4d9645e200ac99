// A press on two workspaces.
#![tactic(auto)]

ghost use Rattle.std.specs.Prelude.{◌≡◌, ◌+◌, ◌≤◌, length};
ghost use Rattle.calculus.specs.Rounds.{rounds};
ghost use Rattle.redex.specs.Held.{held};
ghost use Rattle.rounds.specs.Run.{Ready};
ghost use Rattle.claim.specs.State.{total_limit};
ghost use Rattle.claim.specs.Press.{press, conclude};
ghost use Rattle.press.specs.Types.{session_of, memory_of, call_of, pressed_of};

use answer::Pressed;
use rounds::run;
use state::{Session, budget_passes};
use words::clear;
use words::refusal::Refusal;
use words::workspace::sized;

pub mod answer;
mod showing;
pub mod state;

pub use showing::{show, shows_right};

// A press on two workspaces that hold terms, with a budget that it may spend. It takes what `press` takes.
fn press_terms(
    left: &mut [u32],
    right: &mut [u32],
    scratch: &mut [u32],
    left_length: usize,
    right_length: usize,
    budget: u32,
    session: Session,
) -> Pressed
    requires ready { Ready left.old right.old scratch.old left_length right_length }
    requires budget_bound { session.total + budget ≤ total_limit }
    ensures { pressed_of result left.new right.new scratch.new ≡ conclude (length left.old) (session_of session) (rounds (length left.old) budget (held left.old left_length) (held right.old right_length)) }
{
    let shown = run(left, right, scratch, left_length, right_length, budget);
    clear(left, shown.left);
    clear(right, shown.right);
    clear(scratch, 0);
    Pressed {
        answer: Ok(shown),
        session: Session {
            total: session.total + shown.spent,
            left: shown.left,
            right: shown.right,
            verdict: shown.verdict,
        },
    }
}

// A press: refusals 7, 9, 10 on the left and 10 on the right, in this order, which change nothing; otherwise the rounds. Words beyond the given
// lengths don't matter, and of the session only the total is read. What is lent is passed piece by piece, as C has it. A refusal hands the
// session back too, so it is no `Err` for `?`.
pub fn press(
    left: &mut [u32],
    right: &mut [u32],
    scratch: &mut [u32],
    left_length: usize,
    right_length: usize,
    budget: u32,
    session: Session,
) -> Pressed
    ensures { pressed_of result left.new right.new scratch.new ≡ press (memory_of left.old right.old session) (call_of scratch.old left_length right_length budget) }
{
    if !sized(left.len(), right.len(), scratch.len()) {
        return Pressed::refused(Refusal::WrongWorkspace, session);
    }
    if !budget_passes(budget, session.total) {
        return Pressed::refused(Refusal::OverBudget, session);
    }
    if !terms::is_term(left, left_length) {
        return Pressed::refused(Refusal::NoTerm, session);
    }
    if !terms::is_term(right, right_length) {
        return Pressed::refused(Refusal::NoTerm, session);
    }
    press_terms(
        left,
        right,
        scratch,
        left_length,
        right_length,
        budget,
        session,
    )
}
