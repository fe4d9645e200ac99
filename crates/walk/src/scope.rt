// The scopes of a walk over words.
ghost use Rattle.std.specs.Prelude.{◌≡◌, length};
ghost use Rattle.walk.specs.Scopes.{Enters, entered};

// Where a walk stands: how many items come next, under how many binders, and from where on its room holds the scopes that were left with items. They are a
// stack of one word each in a slice, since what is lent for it may be the scratch, which C lends.
#[derive(Clone, Copy)]
pub struct Scope {
    pub pending: usize,
    pub depth: u32,
    pub top: usize,
}

// A scope in the room is items × 32768 + binders.
const SCOPE: u32 = 32768;

impl Scope {
    // Where a walk starts that may use all of a room: one item comes, under no binder.
    pub fn start(room: &[u32]) -> Self
        ensures { result ≡ record { pending = 1; depth = 0; top = length room.now } }
    {
        Scope {
            pending: 1,
            depth: 0,
            top: room.len(),
        }
    }

    // Where the walk stands after a word that so many items follow, under so many binders more than the word.
    #[tactic(auto, unfolding(crate::specs::Scopes::entered))]
    pub fn enter(self, items: usize, binders: u32, room: &mut [u32]) -> Self
        requires { Enters items binders self.pending self.depth self.top room.old }
        ensures { (result, room.new) ≡ entered items binders self room.old }
    {
        if binders > 0 {
            let mut top = self.top;
            if self.pending > 1 {
                top -= 1;
                room[top] = (self.pending - 1) as u32 * SCOPE + self.depth;
            }
            return Scope {
                pending: 1,
                depth: self.depth + binders,
                top,
            };
        }
        // Asked first and alone: most words leave items to come.
        let left = items + (self.pending - 1);
        if left > 0 {
            return Scope {
                pending: left,
                ..self
            };
        }
        if self.top < room.len() {
            let scope = room[self.top];
            return Scope {
                pending: (scope / SCOPE) as usize,
                depth: scope % SCOPE,
                top: self.top + 1,
            };
        }
        Scope {
            pending: left,
            ..self
        }
    }
}
