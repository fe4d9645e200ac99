// One round: what two terms are answered at once, what each side would do otherwise, and what the round then comes to. Nothing of the terms is changed.
#![tactic(auto)]

ghost use Rattle.std.specs.Prelude.{◌≡◌};
ghost use Rattle.calculus.specs.Rounds.{verdict_number, contractions, round, shown_position};
ghost use Rattle.std.proofs.Math.Option.{none, get_or};
ghost use Rattle.calculus.specs.Comparison.{compare_words};
ghost use Rattle.turn.specs.Compare.{Agrees};
ghost use Rattle.turn.specs.Turn.{length_in, at_once_in};
ghost use Rattle.turn.specs.Types.{verdict_of, early_of, round_of, plan_of, comparison_of};

use compare::{compare_terms, position};
use redex::Redex;
use std::ops::ControlFlow;

pub mod compare;
pub mod resume;

#[derive(Clone, Copy, PartialEq, Eq)]
pub enum Verdict {
    Same = 0,
    Different = 1,
    Budget = 2,
    Full = 3,
}

impl Verdict {
    pub fn number(self) -> u32
        ensures { result ≡ verdict_number (verdict_of self) }
    {
        self as u32
    }
}

// What a round comes to: it ends the rounds with a verdict, or they go on after so many contractions.
pub type Round = ControlFlow<Verdict, u32>;

// What two terms are answered before either is contracted, a verdict or nothing yet, with the two terms compared.
#[derive(Clone, Copy)]
pub struct Asked {
    pub compared: Option<usize>,
    pub early: Option<Verdict>,
}

// Point 1 of a round, by the words of two terms, of which the first `from` are known to be the same.
pub fn ask(left: &[u32], right: &[u32], from: usize) -> Asked
    requires { Agrees from left.now right.now }
    ensures compared { comparison_of result.compared ≡ compare_words left.now right.now }
    ensures early { early_of result.early ≡ at_once_in left.now right.now }
{
    let compared = compare_terms(left, right, from);
    let early = match compared {
        None => Some(Verdict::Same),
        Some(_) => None,
    };
    Asked { compared, early }
}

// How many contractions a side makes in a round.
fn contractions(plan: Option<Redex>) -> u32
    ensures { result ≡ contractions (length_in (plan_of plan)) }
{
    u32::from(plan.is_some())
}

// The length of the next term, 0 where there is none.
fn next_length(plan: Option<Redex>) -> usize
    ensures { result ≡ get_or (length_in (plan_of plan)) 0 }
{
    plan.map_or(0, |redex| redex.length)
}

// Points 2 to 5 of a round, in this order, with `rest` left of the budget and workspaces of `capacity` words.
pub fn judge(left: Option<Redex>, right: Option<Redex>, rest: u32, capacity: usize) -> Round
    ensures { round_of result ≡ round none capacity rest (length_in (plan_of left)) (length_in (plan_of right)) }
{
    let count = contractions(left) + contractions(right);
    if count == 0 {
        return Round::Break(Verdict::Different);
    }
    if rest < count {
        return Round::Break(Verdict::Budget);
    }
    if capacity < next_length(left).max(next_length(right)) {
        return Round::Break(Verdict::Full);
    }
    Round::Continue(count)
}

// The position that is shown with a verdict: where the terms differ with Different, otherwise 0.
pub fn shown_position(verdict: Verdict, compared: Option<usize>) -> usize
    ensures { result ≡ shown_position (verdict_of verdict) (comparison_of compared) }
{
    match verdict {
        Verdict::Different => position(compared),
        Verdict::Same | Verdict::Budget | Verdict::Full => 0,
    }
}
