// The search for the leftmost redex of the term in a workspace, and the plan of its contraction.
#![tactic(auto)]

mod ends;
pub mod seen;

ghost use Rattle.std.specs.Prelude.{◌≤◌, length};
ghost use Rattle.words.specs.Room.{Room};
ghost use Rattle.search.specs.Search.{Searched, Planned};

use ends::fill_ends;
use redex::Redex;
use seen::{Seen, plan_at};

// What a term does next: nothing where it is normal, or the contraction of its leftmost redex.
pub type Plan = Option<Redex>;

// The plan for the term, which has no redex before `from`. Nothing is written but the scratch: while the search goes on it is the table of ends, which
// are known before `known`, and then the room of the walks over the redex. Its words mean nothing afterwards.
pub fn find(ws: &[u32], n: usize, from: usize, scratch: &mut [u32]) -> Plan
    requires { Searched ws.now n from × (n ≤ length scratch.old) }
    ensures planned { Planned ws.now n result }
    ensures room { Room scratch.old scratch.new }
{
    let mut known: usize = 0;
    for i in from..n {
        match plan_at(ws, n, i, known, scratch) {
            Seen::Redex(redex) => return Some(redex),
            Seen::Stuck => known = fill_ends(ws, i, scratch),
            Seen::Nothing => {}
        }
    }
    None
}
