// A redex taken apart, and the plan of its contraction: its rule, what the rule puts, and the length of the next term. The term is the first `n` words
// of a workspace, which C lends with more room than that: `Holds` and `Plans` are stated of both, so the two stay apart.
#![tactic(auto)]

ghost use Rattle.std.specs.Prelude.{◌≡◌, ◌≤◌, ◌<◌, ◌-◌, ◌↔◌, IsTrue, length, slice_index};
ghost use Rattle.calculus.specs.Words.{workspace_most};
ghost use Rattle.words.specs.Room.{Room};
ghost use Rattle.redex.specs.Plan.{Plans, Numbered, EndTold, Applied, Selected};

use substitution::Body;
use substitution::measure::{measure, substituted_length};
use words::kind::Kind;
use words::{Word, extent, skip};

// The word of variable 0.
const VARIABLE: u32 = Word::VARIABLE;

// The rule by which a redex contracts, with what it puts: a body with its arguments, or the entry of a numeral.
#[derive(Clone, Copy)]
pub enum Rule {
    Beta(Body),
    Case(Body),
    Numeral(u32),
}

// A redex found once: its rule, where it starts, where the words start that stay behind the contractum, and the length of the next term. What it
// promises is true of one workspace alone (`Plans`), so it is no invariant of the value.
#[derive(Clone, Copy)]
pub struct Redex {
    pub rule: Rule,
    pub at: usize,
    pub end: usize,
    pub length: usize,
}

// What a search among the branches of a case finds: the body of the one that lists the tag, or that of the default, with the number of branches behind
// it.
#[derive(Clone, Copy)]
pub enum Found {
    Listed(usize, u32),
    Default(usize, u32),
}

// The branch that a case selects: where its body starts, where the arguments that it takes end and how many they are, and how many branches are behind it.
#[derive(Clone, Copy)]
pub struct Branch {
    pub start: usize,
    pub after: usize,
    pub count: usize,
    pub left: usize,
}

// Whether the argument that starts at `args` stays where it is: it stands for the word before it, which is under `last` binders.
fn stays(ws: &[u32], args: usize, last: u32) -> bool
    requires { (0 < args) × (args ≤ length ws.now) }
    ensures { IsTrue result ↔ ((last ≡ 0) × (slice_index ws.now (args - 1) ≡ 0)) }
{
    last == 0 && ws[args - 1] == VARIABLE
}

// Where that argument ends, which occurs so often in the body. One that stays and occurs once, as that word, is put for no other word: it is not walked,
// and its start serves as its end.
fn argument_end(ws: &[u32], args: usize, times: usize, last: u32) -> usize
    requires { (length ws.now ≤ workspace_most) × (0 < args) × (args ≤ length ws.now) }
    ensures { EndTold ws.now args times last result }
{
    if times == 1 && stays(ws, args, last) {
        return args;
    }
    extent(ws, args)
}

// The plan for an application of an abstraction. An argument that stands for the last word of the body, under no binder, stays where it is: the
// contractum ends with it.
pub fn beta(ws: &[u32], n: usize, at: usize, room: &mut [u32]) -> Redex
    requires { Applied ws.now n at room.old }
    ensures plans { Plans ws.now n result × (result.at ≡ at) }
    ensures room { Room room.old room.new }
{
    let start = at + 2;
    let found = measure(ws, start, 1, room);
    let times = found.occurs[0];
    let args = found.end;
    let after = argument_end(ws, args, times, found.last);
    let length = at + (args - start - times + times * (after - args)) + (n - after);
    let (stop, end) = if stays(ws, args, found.last) {
        (args - 1, args)
    } else {
        (args, after)
    };
    let body = Body {
        start,
        stop,
        args,
        after,
        count: 1,
    };
    Redex {
        rule: Rule::Beta(body),
        at,
        end,
        length,
    }
}

// The plan for a case whose branch was selected. The default takes no arguments.
pub fn selected(ws: &[u32], n: usize, at: usize, branch: Branch, room: &mut [u32]) -> Redex
    requires { Selected ws.now n at branch.left branch.start branch.after branch.count room.old }
    ensures plans { Plans ws.now n result × (result.at ≡ at) }
    ensures room { Room room.old room.new }
{
    let found = measure(ws, branch.start, branch.count, room);
    let body = Body {
        start: branch.start,
        stop: found.end,
        args: at + 2,
        after: branch.after,
        count: branch.count,
    };
    let end = skip(ws, body.stop, branch.left);
    let length = at + substituted_length(ws, body, found) + (n - end);
    Redex {
        rule: Rule::Case(body),
        at,
        end,
        length,
    }
}

// The plan for a numeral: its entry takes the place of its word.
pub fn numbered(ws: &[u32], n: usize, at: usize) -> Redex
    requires { Numbered ws.now n at }
    ensures { Plans ws.now n result × (result.at ≡ at) }
{
    let numeral = Word(ws[at]).payload();
    Redex {
        rule: Rule::Numeral(numeral),
        at,
        end: at + 1,
        length: n - 1 + library::entry_length(numeral),
    }
}
