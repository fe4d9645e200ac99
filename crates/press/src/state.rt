// The session: what the unit keeps between presses, and the limits of what it may spend.
ghost use Rattle.std.specs.Prelude.{◌≡◌};
ghost use Rattle.claim.specs.State.{fresh, affordable, total_limit, budget_limit};
ghost use Rattle.press.specs.Types.{session_of};

use turn::Verdict;

// Total spent, both lengths and the last verdict.
#[derive(Clone, Copy)]
pub struct Session {
    pub total: u32,
    pub left: usize,
    pub right: usize,
    pub verdict: Verdict,
}

impl Session {
    // The limits of a budget, and of total spent with a budget.
    pub const BUDGET_MOST: u32 = 1000000;

    pub const TOTAL_MOST: u64 = 1000000000;

    // The session before the first press.
    pub fn fresh() -> Self
        ensures { session_of result ≡ fresh }
    {
        Session {
            total: 0,
            left: 0,
            right: 0,
            verdict: Verdict::Budget,
        }
    }
}

// Whether a budget on top of this total passes refusal 9.
pub fn budget_passes(budget: u32, total: u32) -> bool
    ensures { result ≡ affordable budget total }
{
    budget <= Session::BUDGET_MOST && u64::from(total) + u64::from(budget) <= Session::TOTAL_MOST
}

// Does nothing. Its contract says that each limit is the number that the definition of a session gives its name.
fn limits()
    ensures budget_most { Session.BUDGET_MOST ≡ budget_limit }
    ensures total_most { Session.TOTAL_MOST ≡ total_limit }
{}
