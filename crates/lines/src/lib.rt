// Reading a line: a term typed in the notation, brought into a workspace.
#![tactic(auto)]

ghost use Rattle.std.specs.Prelude.{◌≡◌};
ghost use Rattle.words.specs.Types.{brought_of};
ghost use Rattle.notation.specs.Reading.{read_line};

use parser::{LINE_MOST, ROOM, parse};
use terms::is_term;
use words::refusal::Refusal;
use words::workspace::{hold, wrong_workspace};

// Puts the term of a line into a workspace, with zeros after it, and returns its length. A refusal changes nothing: the words stand in an array of their own
// until every check has passed.
pub fn read_line(line: &[u8], workspace: &mut [u32]) -> Result<usize, Refusal>
    ensures { brought_of result workspace.new ≡ read_line line.now workspace.old }
{
    if wrong_workspace(workspace.len()) {
        return Err(Refusal::WrongWorkspace);
    }
    if LINE_MOST < line.len() {
        return Err(Refusal::WrongLine);
    }
    // An empty line is outside the grammar.
    let mut stack = [0usize; ROOM];
    let mut words = [0u32; ROOM];
    let at = parse(line, &mut stack, &mut words).ok_or(Refusal::WrongLine)?;
    let length = ROOM - at;
    // All that makes a term accepted but its free numbers, the grammar gives.
    if !is_term(&words[at..], length) {
        return Err(Refusal::WrongFree);
    }
    if workspace.len() < length {
        return Err(Refusal::TooLong);
    }
    hold(&words, at, ROOM, workspace)
}
