// What one walk over a body tells, and the length of the body with its arguments put in.
ghost use Rattle.std.specs.Prelude.{◌≡◌, ◌+◌, drop};
ghost use Rattle.calculus.specs.Words.{size};
ghost use Rattle.calculus.specs.Skip.{span};
ghost use Rattle.words.specs.Room.{Room};
ghost use Rattle.substitution.specs.Measure.{Measurable, Measures};
ghost use Rattle.substitution.specs.Results.{Substitutable, substituted};

use crate::kinds::visit;
use crate::{Body, PLACES, starts};
use walk::scope::Scope;
use words::Word;

// The end of a body, how often each argument stands for a word of it, and the binders around its last word.
#[derive(Clone, Copy)]
pub struct Measured {
    pub end: usize,
    pub occurs: [usize; PLACES],
    pub last: u32,
}

// One walk over the body at a position that has `count` arguments. Nothing is written, so nothing moves: the distance is 0.
pub fn measure(src: &[u32], body: usize, count: usize, room: &mut [u32]) -> Measured
    requires { Measurable src.now body count room.old }
    ensures measures { Measures src.now body count result.end result.last result.occurs }
    ensures room { Room room.old room.new }
{
    let mut occurs = [0usize; PLACES];
    let mut i = body;
    let mut last: u32 = 0;
    let mut at = Scope::start(room);
    // By index: the walk ends where its scopes do, not at a known end.
    while at.pending > 0 {
        last = at.depth;
        let here = visit(Word(src[i]), last, count, 0);
        if let Some(j) = here.argument {
            occurs[j] += 1;
        }
        at = at.enter(here.items, here.binders, room);
        i += 1;
    }
    Measured {
        end: i,
        occurs,
        last,
    }
}

// The length in words of a measured body with its arguments put in, from how often each occurs: nothing is written to find it.
pub fn substituted_length(src: &[u32], body: Body, found: Measured) -> usize
    requires substitutable { Substitutable src.now body.start body.args body.count × (body.after ≡ body.args + span body.count (drop body.args src.now)) }
    requires measures { Measures src.now body.start body.count found.end found.last found.occurs }
    ensures { result ≡ size (substituted src.now body.start body.args body.count) }
{
    let occurs = found.occurs;
    let starts = starts(src, body);
    let mut total = found.end - body.start;
    for j in 0..body.count {
        let times = occurs[j];
        total = total - times + times * (starts[j + 1] - starts[j]);
    }
    total
}
