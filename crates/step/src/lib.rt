// One contraction of the term in a workspace, as it was planned.
#![tactic(auto)]

mod tail;

ghost use Rattle.words.specs.Placed.{Placed};
ghost use Rattle.words.specs.Room.{Room};
ghost use Rattle.redex.specs.Plan.{put_by, Puttable};
ghost use Rattle.step.specs.Contract.{Fits, HasRoom, Contracted};

use redex::{Redex, Rule};
use substitution::substitute;
use tail::move_words;
use words::slices::copy;

// Puts what a rule puts at the start of the scratch, and returns the number of words.
fn put_contractum(ws: &[u32], rule: Rule, scratch: &mut [u32], room: &mut [u32]) -> usize
    requires { Puttable ws.now rule × Fits (put_by ws.now rule) scratch.old room.old }
    ensures placed { Placed scratch.old 0 (put_by ws.now rule) scratch.new result }
    ensures room { Room room.old room.new }
{
    match rule {
        Rule::Beta(body) | Rule::Case(body) => substitute(ws, body, scratch, 0, room),
        Rule::Numeral(numeral) => library::put(numeral, scratch, 0),
    }
}

// Contracts a planned redex in place, and returns the length of the term then: its contractum is put together in the scratch, the words behind the
// redex move if the length changes, and the contractum takes its place. The room keeps the scopes of the walk.
pub fn contract(
    ws: &mut [u32],
    n: usize,
    redex: Redex,
    scratch: &mut [u32],
    room: &mut [u32],
) -> usize
    requires { HasRoom ws.old n redex scratch.old room.old }
    ensures contracted { Contracted ws.old n redex scratch.old result ws.new scratch.new }
    ensures room { Room room.old room.new }
{
    let at = redex.at;
    let rule = redex.rule;
    let put = put_contractum(ws, rule, scratch, room);
    move_words(ws, redex.end, n, at + put);
    copy(scratch, 0, put, ws, at);
    redex.length
}
