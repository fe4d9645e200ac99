// The current term of a side, and the side's part in a round.
ghost use Rattle.std.specs.Prelude.{◌≡◌};
ghost use Rattle.words.specs.Room.{Room};
ghost use Rattle.rounds.specs.Advance.{Advances, Advanced};

use redex::Redex;
use turn::resume::before;

// A side's term between two rounds: it has `length` words, and no redex starts before `from`. Its workspace stands beside it: a struct that held what is
// lent would say in each contract that it holds the same slice still.
#[derive(Clone, Copy)]
pub struct Current {
    pub length: usize,
    pub from: usize,
}

impl Current {
    // Before the first round the search starts at the first word.
    pub fn first(length: usize) -> Self
        ensures { result ≡ record { length = length; from = 0 } }
    {
        Current { length, from: 0 }
    }

    // A side's part in a round that goes on, through the scratch; the room keeps the scopes of the walk.
    pub fn advance(
        self,
        ws: &mut [u32],
        todo: Option<Redex>,
        scratch: &mut [u32],
        room: &mut [u32],
    ) -> Self
        requires { Advances ws.old self.length todo scratch.old room.old }
        ensures advanced { Advanced ws.old self.length todo scratch.old result.length result.from ws.new scratch.new }
        ensures room { Room room.old room.new }
    {
        match todo {
            None => Current {
                length: self.length,
                from: self.length,
            },
            Some(redex) => Current {
                length: step::contract(ws, self.length, redex, scratch, room),
                from: before(redex.at),
            },
        }
    }
}
