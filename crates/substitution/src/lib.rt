// Simultaneous substitution over lent words, and the one shift of free indices that it is made of ("Contraction").
// A room is lent for a call, whose contract says that it keeps its length (`Room`): a value that held the slice would say the same in each contract.
#![tactic(auto)]

mod kinds;
pub mod measure;

ghost use Rattle.std.specs.Prelude.{◌≡◌, [], ◌∷◌, ◌+◌, ◌-◌, ◌*◌, ◌≤◌, ◌<◌, pos, length, drop};
ghost use Rattle.calculus.specs.Words.{words, size, workspace_most};
ghost use Rattle.calculus.specs.Accepted.{argument_limit};
ghost use Rattle.calculus.specs.Skip.{span};
ghost use Rattle.calculus.specs.First.{first_terms};
ghost use Rattle.words.specs.Placed.{Placed};
ghost use Rattle.words.specs.Room.{Room};
ghost use Rattle.walk.specs.Index.{distance_bound};
ghost use Rattle.walk.specs.Rewritten.{substituting, standing};
ghost use Rattle.substitution.specs.Results.{Positions, Shiftable, shifted, Substitutes};

use kinds::visit;
use walk::index::{down, up};
use walk::scope::Scope;
use words::slices::copy;
use words::{Word, extent};

// A body that arguments are put into: where it starts and the word that its rewriting stops at, the arguments up to `after` (which means nothing where
// none is put for a word before `stop`) and their number.
#[derive(Clone, Copy)]
pub struct Body {
    pub start: usize,
    pub stop: usize,
    pub args: usize,
    pub after: usize,
    pub count: usize,
}

// A place for each argument of a redex, and one more. `Positions` and `Measures` speak of all places, and the number of arguments tells how many count.
const PLACES: usize = Word::ARGUMENTS_MOST as usize + 1;

// The positions at which the arguments of a body start, and after them the end of the last, where the caller knows it.
fn starts(src: &[u32], body: Body) -> [usize; PLACES]
    requires { (length src.now ≤ workspace_most) × (body.count ≤ argument_limit) }
    ensures { Positions src.now body.args body.after body.count result }
{
    let mut starts = [0usize; PLACES];
    starts[0] = body.args;
    for j in 1..body.count {
        starts[j] = extent(src, starts[j - 1]);
    }
    starts[body.count] = body.after;
    starts
}

// Copies the term from `at` up to `end` with its free indices moved by a signed distance, and returns the position after the copy. A word of the copy stands as
// far behind `out` as its own behind `at`. What is written to and the room are lent anew at each call, the room up to where its walk stands, so no struct
// keeps them.
fn shift(
    src: &[u32],
    at: usize,
    end: usize,
    distance: i32,
    dst: &mut [u32],
    out: usize,
    room: &mut [u32],
) -> usize
    requires shiftable { Shiftable src.now at distance × (end ≡ at + span 1 (drop at src.now)) }
    requires fits { out + size (shifted src.now at distance) ≤ length dst.old }
    requires enough { span 1 (drop at src.now) ≤ 2 * length room.old }
    ensures placed { Placed dst.old out (words (shifted src.now at distance)) dst.new result }
    ensures room { Room room.old room.new }
{
    let mut scope = Scope::start(room);
    for i in at..end {
        let here = visit(Word(src[i]), scope.depth, 0, distance);
        dst[out + (i - at)] = here.word.0;
        scope = scope.enter(here.items, here.binders, room);
    }
    out + (end - at)
}

// Copies the term from `at` up to `end`, an argument, to a place under so many binders, and returns the position after the copy.
fn raise(
    src: &[u32],
    at: usize,
    end: usize,
    binders: u32,
    dst: &mut [u32],
    out: usize,
    room: &mut [u32],
) -> usize
    requires shiftable { Shiftable src.now at (pos binders) × (end ≡ at + span 1 (drop at src.now)) }
    requires fits { out + size (shifted src.now at (pos binders)) ≤ length dst.old }
    requires enough { (span 1 (drop at src.now) ≤ 2 * length room.old) × (binders < distance_bound) }
    ensures placed { Placed dst.old out (words (shifted src.now at (pos binders))) dst.new result }
    ensures room { Room room.old room.new }
{
    if binders > 0 {
        return shift(src, at, end, up(binders), dst, out, room);
    }
    copy(src, at, end, dst, out)
}

// Writes what stands for the words of a body before its stop, where its arguments are put for its first indices, as many as there are arguments and
// the last one for index 0, and returns the position after it. Where the arguments end is asked only if one is put. The room keeps the scopes of the walk.
pub fn substitute(src: &[u32], body: Body, dst: &mut [u32], out: usize, room: &mut [u32]) -> usize
    requires substitutes { Substitutes src.now body.start body.stop body.args body.after body.count room.old }
    requires fits { out + length (standing (substituting (first_terms body.count (drop body.args src.now))) (body.stop - body.start) (0 ∷ []) (drop body.start src.now)) ≤ length dst.old }
    ensures placed { Placed dst.old out (standing (substituting (first_terms body.count (drop body.args src.now))) (body.stop - body.start) (0 ∷ []) (drop body.start src.now)) dst.new result }
    ensures room { Room room.old room.new }
{
    let starts = starts(src, body);
    let lowered = down(body.count as u32);
    let mut next = out;
    let mut at = Scope::start(room);
    for i in body.start..body.stop {
        let here = visit(Word(src[i]), at.depth, body.count, lowered);
        if let Some(j) = here.argument {
            next = raise(
                src,
                starts[j],
                starts[j + 1],
                at.depth,
                dst,
                next,
                &mut room[..at.top],
            );
        } else {
            dst[next] = here.word.0;
            next += 1;
        }
        at = at.enter(here.items, here.binders, room);
    }
    next
}
