// The rounds of a press, on two workspaces that hold terms.
#![tactic(auto)]

ghost use Rattle.std.specs.Prelude.{◌≡◌, length};
ghost use Rattle.calculus.specs.Rounds.{shown_position, rounds};
ghost use Rattle.turn.specs.Types.{verdict_of, comparison_of};
ghost use Rattle.rounds.specs.Run.{Ready, Ran};
ghost use Rattle.rounds.specs.Types.{shown_of};
ghost use Rattle.redex.specs.Held.{held};

use current::Current;
use search::find;
use turn::compare::position;
use turn::resume::agreed;
use turn::{Round, Verdict, ask, judge, shown_position};
use words::Word;

mod current;

// What a press shows: the verdict, spent, both lengths and the position, where the terms differ with Different and otherwise 0.
#[derive(Clone, Copy)]
pub struct Shown {
    pub verdict: Verdict,
    pub spent: u32,
    pub left: usize,
    pub right: usize,
    pub position: usize,
}

impl Shown {
    // What is shown where the rounds end.
    fn new(
        verdict: Verdict,
        spent: u32,
        left: Current,
        right: Current,
        compared: Option<usize>,
    ) -> Self
        ensures { shown_of result ≡ record { verdict = verdict_of verdict; spent = spent; left = left.length; right = right.length; position = shown_position (verdict_of verdict) (comparison_of compared) } }
    {
        Self {
            verdict,
            spent,
            left: left.length,
            right: right.length,
            position: shown_position(verdict, compared),
        }
    }
}

// Room for the scopes of a walk: a scope that is kept took two words.
const ROOM: usize = Word::WORKSPACE_MOST / 2;

// The rounds of a press, on both workspaces through the scratch, passed piece by piece as to `press::press`. By `loop`: only the last round tells how many there are.
pub fn run(
    left: &mut [u32],
    right: &mut [u32],
    scratch: &mut [u32],
    left_length: usize,
    right_length: usize,
    budget: u32,
) -> Shown
    requires { Ready left.old right.old scratch.old left_length right_length }
    ensures { Ran (length left.old) budget (rounds (length left.old) budget (held left.old left_length) (held right.old right_length)) (shown_of result) scratch.old left.new right.new scratch.new }
{
    let mut left_side = Current::first(left_length);
    let mut right_side = Current::first(right_length);
    let mut room = [0u32; ROOM];
    let mut agree: usize = 0;
    let mut spent: u32 = 0;
    loop {
        let asked = ask(
            &left[..left_side.length],
            &right[..right_side.length],
            agree,
        );
        let compared = asked.compared;
        if let Some(verdict) = asked.early {
            return Shown::new(verdict, spent, left_side, right_side, compared);
        }
        let left_plan = find(left, left_side.length, left_side.from, scratch);
        let right_plan = find(right, right_side.length, right_side.from, scratch);
        match judge(left_plan, right_plan, budget - spent, left.len()) {
            Round::Break(verdict) => {
                return Shown::new(verdict, spent, left_side, right_side, compared);
            }
            Round::Continue(count) => {
                agree = agreed(
                    left,
                    left_side.length,
                    position(compared),
                    left_plan,
                    right_plan,
                );
                left_side = left_side.advance(left, left_plan, scratch, &mut room);
                right_side = right_side.advance(right, right_plan, scratch, &mut room);
                spent += count;
            }
        }
    }
}
