// Whether words are one whole accepted term, found by a scan from the left over frames: the check behind refusal 10.
#![tactic(auto)]

mod frame;

ghost use Rattle.std.specs.Prelude.{◌≡◌, ◌≤◌, length};
ghost use Rattle.calculus.specs.Words.{workspace_most};
ghost use Rattle.terms.specs.IsTerm.{is_term};

use arrayvec::ArrayVec;
use frame::{Frame, ROOM};
use words::Word;

// Whether the first `n` words are one whole accepted term of at most as many words as a workspace has (refusal 10). A number
// above the slice's length is answered too, so a shorter slice in place of both would ask more.
pub fn is_term(ws: &[u32], n: usize) -> bool
    ensures { result ≡ is_term ws.now n }
{
    n <= Word::WORKSPACE_MOST && n <= ws.len() && is_whole(&ws[..n])
}

// The same for all of the words, no more than a workspace has, by a scan from the left.
fn is_whole(ws: &[u32]) -> bool
    requires { length ws.now ≤ workspace_most }
    ensures { result ≡ is_term ws.now (length ws.now) }
{
    // The frames are the current one and those that wait, the next one last. Each word adds at most one.
    let mut waiting: ArrayVec<Frame, ROOM> = ArrayVec::new();
    let mut frame = Frame::WHOLE;
    for w in ws {
        if frame.is_filled() {
            let Some(next) = waiting.pop() else {
                return false;
            };
            frame = next;
        }
        let word = Word(*w);
        let Some(inside) = frame.enter(word) else {
            return false;
        };
        let rest = frame.rest(word);
        if inside.is_filled() {
            frame = rest;
            continue;
        }
        frame = inside;
        if !rest.is_filled() {
            // Each frame that waits was opened by a word and has one to come: no term has words for more frames.
            if waiting.is_full() {
                return false;
            }
            waiting.push(rest);
        }
    }
    frame.is_filled() && waiting.is_empty()
}
