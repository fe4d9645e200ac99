// The lengths of workspaces, and words put into one.
ghost use Rattle.std.specs.Prelude.{◌≡◌, [], ◌∷◌};
ghost use Rattle.std.proofs.Math.Seq.{slice};
ghost use Rattle.calculus.specs.Workspace.{sized, wrong_workspace};
ghost use Rattle.calculus.specs.Bringing.{hold};
ghost use Rattle.words.specs.Placed.{Copies};
ghost use Rattle.words.specs.Types.{brought_of};

use crate::refusal::Refusal;
use crate::slices::copy;
use crate::{Word, clear};

// Whether workspaces and scratch of these lengths pass refusal 7. A call that is lent fewer than three names the first again, so these are
// three numbers and no list.
pub fn sized(first: usize, second: usize, third: usize) -> bool
    ensures { result ≡ sized (first ∷ second ∷ third ∷ []) }
{
    (Word::WORKSPACE_LEAST..=Word::WORKSPACE_MOST).contains(&first)
        && second == first
        && third == first
}

// Whether a workspace of so many words is refused.
pub fn wrong_workspace(length: usize) -> bool
    ensures { result ≡ wrong_workspace length }
{
    !sized(length, length, length)
}

// Puts the words of a slice from a position to an end at the start of a workspace, with zeros after them, and returns how many they are.
pub fn hold(src: &[u32], from: usize, to: usize, workspace: &mut [u32]) -> Result<usize, Refusal>
    requires { Copies src.now from to workspace.old 0 }
    ensures { brought_of result workspace.new ≡ hold workspace.old (slice from to src.now) }
{
    let end = copy(src, from, to, workspace, 0);
    clear(workspace, end);
    Ok(end)
}
