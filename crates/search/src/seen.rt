// What is seen at a position, from the words alone: the plan for the redex that starts there, if one does.
ghost use Rattle.std.specs.Prelude.{◌≡◌, ◌+◌, ◌≤◌, ◌<◌, eqb, length, get_or, drop};
ghost use Rattle.calculus.specs.Words.{workspace_most, kind_of};
ghost use Rattle.words.specs.Types.{kind_number};
ghost use Rattle.redex.specs.Rules.{branch_body};
ghost use Rattle.redex.specs.Plan.{At};
ghost use Rattle.search.specs.Ends.{Ends};
ghost use Rattle.search.specs.Seen.{SeenAt, Inspected};

use crate::ends::Items;
use redex::{Branch, Found, Redex, beta, numbered, selected};
use words::Word;
use words::kind::Kind;
use words::pattern::is_default;

// What is seen at a position: nothing that contracts, a case that is stuck and whose ends inside are not known yet, or a redex with its plan. (No Option:
// a stuck case is neither nothing nor a redex.)
#[derive(Clone, Copy)]
pub enum Seen {
    Nothing,
    Stuck,
    Redex(Redex),
}

// Among the branches at a position, the body of the one that lists the tag, if it binds so many variables; where none lists it, that of the default.
fn branch_body(items: Items, branches: u32, tag: u32, count: u32, at: usize) -> Option<Found>
    requires { (length items.ws.now ≤ workspace_most) × Ends items.ws.now at items.known items.ends.now }
    ensures { result ≡ branch_body None branches tag count at (drop at items.entry.ws.now) }
{
    let mut found = None;
    let mut i = at;
    for left in (0..branches).rev() {
        if items.ws.len() <= i {
            return found;
        }
        let word = Word(items.ws[i]);
        if is_default(word.payload()) {
            found = found.or(Some(Found::Default(i + 1, left)));
        } else if tag == word.tag() {
            if count == word.count() {
                return Some(Found::Listed(i + 1, left));
            }
            return None;
        }
        i = items.end_of(i + 1);
    }
    found
}

// What is seen at a case of a constructor: `case` is its word, `constructor` the constructor's.
fn inspect(
    ws: &[u32],
    n: usize,
    at: usize,
    case: Word,
    constructor: Word,
    known: usize,
    room: &mut [u32],
) -> Seen
    requires { Inspected ws.now n at case.0 constructor.0 room.old × Ends ws.now at known room.old }
    ensures { SeenAt ws.now n at known room.old result room.new }
{
    let count = constructor.count();
    let items = Items {
        ws,
        known,
        ends: room,
    };
    let after = items.end_of(at + 1);
    let Some(found) = branch_body(items, case.payload(), constructor.tag(), count, after) else {
        return if at < known {
            Seen::Nothing
        } else {
            Seen::Stuck
        };
    };
    let taken = match found {
        Found::Listed(start, left) => Branch {
            start,
            after,
            count: count as usize,
            left: left as usize,
        },
        Found::Default(start, left) => Branch {
            start,
            after: at + 2,
            count: 0,
            left: left as usize,
        },
    };
    Seen::Redex(selected(ws, n, at, taken, room))
}

// Whether a word of this kind, which is not a variable's, stands behind a position.
fn follows(ws: &[u32], at: usize, kind: Kind) -> bool
    requires { (at < length ws.now) × (length ws.now ≤ workspace_most) × (0 < kind_number kind) }
    ensures { result ≡ eqb (kind_of (get_or ws.now (at + 1) 0)) (kind_number kind) }
{
    at + 1 < ws.len() && Word(ws[at + 1]).kind() == kind
}

// What is seen at a position: the plan for the redex that starts there, if one does. Until then the room is a table of ends, and a redex's walks
// take it for their scopes.
pub fn plan_at(ws: &[u32], n: usize, at: usize, known: usize, room: &mut [u32]) -> Seen
    requires { At ws.now n at room.old × Ends ws.now at known room.old }
    ensures { SeenAt ws.now n at known room.old result room.new }
{
    let first = Word(ws[at]);
    match first.kind() {
        Kind::Application => {
            if follows(ws, at, Kind::Abstraction) {
                return Seen::Redex(beta(ws, n, at, room));
            }
            Seen::Nothing
        }
        Kind::Case => {
            if follows(ws, at, Kind::Constructor) {
                let second = Word(ws[at + 1]);
                return inspect(ws, n, at, first, second, known, room);
            }
            Seen::Nothing
        }
        Kind::Numeral => Seen::Redex(numbered(ws, n, at)),
        _ => Seen::Nothing,
    }
}
