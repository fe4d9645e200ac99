// What the next round may take up again after a round.
ghost use Rattle.std.specs.Prelude.{◌≡◌, ◌-◌};
ghost use Rattle.turn.specs.Turn.{contract};
ghost use Rattle.turn.specs.Types.{plan_of};
ghost use Rattle.turn.specs.Resume.{agree_both, agreeAfter, Agreeing};

use redex::Redex;
use words::extent;

// From where the search on a side goes on after a contraction at a position: from the position before it, but 0 for 0.
pub fn before(at: usize) -> usize
    ensures { result ≡ at - 1 }
{
    at.saturating_sub(1)
}

// How many first words of both sides agree after a round, of which `agree` do before it, by what the sides do; the left one has `length` words. Its
// workspace is passed whole, since `Agreeing` and `Holds` speak of it with the length of its term.
pub fn agreed(
    ws: &[u32],
    length: usize,
    agree: usize,
    left: Option<Redex>,
    right: Option<Redex>,
) -> usize
    requires { Agreeing ws.now length agree (plan_of left) }
    ensures { result ≡ agreeAfter ws.now length agree (plan_of left) (plan_of right) }
{
    match (left, right) {
        (None, None) => agree,
        (Some(redex), None) => agree.min(redex.at),
        (None, Some(other)) => agree.min(other.at),
        (Some(redex), Some(other)) => agreed_both(
            ws,
            length,
            agree,
            redex.at,
            redex.length,
            other.at,
        ),
    }
}

// Both sides contract, the left one at a position to a term of `next` words.
fn agreed_both(
    ws: &[u32],
    length: usize,
    agree: usize,
    at: usize,
    next: usize,
    other: usize,
) -> usize
    requires { Agreeing ws.now length agree (contract at next) }
    ensures { result ≡ agree_both ws.now length agree at next other }
{
    if at == other && at < agree && extent(ws, at) <= agree {
        return next - (length - agree);
    }
    agree.min(at.min(other))
}
