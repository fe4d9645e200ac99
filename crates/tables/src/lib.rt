// Loading a stored table and writing one.
#![tactic(auto)]

pub mod judging;

ghost use Rattle.std.specs.Prelude.{◌≡◌};
ghost use Rattle.words.specs.Types.{brought_of};
ghost use Rattle.storage.specs.Load.{load};
ghost use Rattle.storage.specs.Write.{write};
ghost use Rattle.tables.specs.Types.{written_of};

use judging::judge;
use records::links::ROOM;
use records::{Form, Table};
use terms::is_term;
use transcription::writing::put_table;
use words::refusal::Refusal;
use words::workspace::{hold, wrong_workspace};

// Puts the term that a table means into a workspace, with zeros after it. A refusal changes nothing: the words stand in an array of their own until every
// check has passed.
pub fn load(table: &[u32], workspace: &mut [u32]) -> Result<usize, Refusal>
    ensures { brought_of result workspace.new ≡ load table.now workspace.old }
{
    if wrong_workspace(workspace.len()) {
        return Err(Refusal::WrongWorkspace);
    }
    let mut words = [0u32; ROOM];
    let stored = Table {
        words: table,
        form: Form::One,
    };
    let end = judge(&stored, workspace.len(), &mut words)?;
    hold(&words, 0, end, workspace)
}

// Writes the term that the first `length` words of a workspace are as a table, with its records in prefix order, and returns their number. A
// refusal changes nothing.
pub fn write(workspace: &[u32], length: usize, table: &mut [u32]) -> Result<usize, Refusal>
    ensures { written_of result table.new ≡ write workspace.now length table.old }
{
    if wrong_workspace(workspace.len()) {
        return Err(Refusal::WrongWorkspace);
    }
    if !is_term(workspace, length) {
        return Err(Refusal::NoTerm);
    }
    if table.len() != Form::ONE_WORDS * (length + 1) {
        return Err(Refusal::WrongLength);
    }
    put_table(&workspace[..length], table);
    Ok(length)
}
