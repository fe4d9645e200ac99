// A table of where items end, so that stuck cases nested in one another cost one pass.
ghost use Rattle.std.specs.Prelude.{◌≡◌, ◌≤◌, ◌+◌, length, drop};
ghost use Rattle.calculus.specs.Words.{workspace_most};
ghost use Rattle.calculus.specs.Skip.{span};
ghost use Rattle.search.specs.Ends.{Ends, Filled};

use words::{Word, extent};

// The items of a workspace, with a table of the ends of those that start before `known`. `Ends` speaks of a position too, so it is no invariant of the value.
#[derive(Clone, Copy)]
pub struct Items<'a> {
    pub ws: &'a [u32],
    pub known: usize,
    pub ends: &'a [u32],
}

impl Items<'_> {
    // The end of the item at a position, from the table where it is known.
    pub fn end_of(self, at: usize) -> usize
        requires { (length self.ws.now ≤ workspace_most) × Ends self.ws.now at self.known self.ends.now }
        ensures { result ≡ at + span 1 (drop at self.entry.ws.now) }
    {
        if at < self.known {
            return self.ends[at] as usize;
        }
        extent(self.ws, at)
    }

    // The end of so many items that start at a position, from one end to the next.
    fn hop(self, at: usize, items: usize) -> usize
        requires { (length self.ws.now ≤ workspace_most) × Ends self.ws.now at self.known self.ends.now }
        ensures { result ≡ at + span items (drop at self.entry.ws.now) }
    {
        let mut i = at;
        for _ in 0..items {
            i = self.end_of(i);
        }
        i
    }
}

// Fills in the ends of all items inside the one at a position, the last of them first, and returns where that one ends.
pub fn fill_ends(ws: &[u32], at: usize, ends: &mut [u32]) -> usize
    requires { (length ws.now ≤ workspace_most) × (at + span 1 (drop at ws.now) ≤ length ends.old) }
    ensures { Filled ws.now at ends.old result ends.new }
{
    let end = extent(ws, at);
    for i in (at..end).rev() {
        let items = Items {
            ws,
            known: end,
            ends,
        };
        let stop = items.hop(i + 1, Word(ws[i]).arity());
        ends[i] = stop as u32;
    }
    end
}
