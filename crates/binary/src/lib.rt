// Terms encoded in the binary lambda calculus: imported into a workspace, and exported from one.
#![tactic(auto)]

mod combinator;
mod putting;
mod scan;

ghost use Rattle.std.specs.Prelude.{◌≡◌};
ghost use Rattle.words.specs.Types.{brought_of};
ghost use Rattle.encoding.specs.Import.{import};
ghost use Rattle.encoding.specs.Export.{export};
ghost use Rattle.binary.specs.Types.{exported_of};

use bits::BYTE_BITS;
use bits::zeros::is_padded;
use combinator::is_combinator;
use putting::{bits_of, put};
use scan::scan;
use terms::is_term;
use words::Word;
use words::refusal::Refusal;
use words::workspace::{hold, wrong_workspace};

// Puts the term of an encoding, its bytes and how many of their bits are meant, into a workspace, with zeros after it, and returns its length. A refusal
// changes nothing: the words stand in an array of their own until every check has passed.
pub fn import(bytes: &[u8], bits: usize, workspace: &mut [u32]) -> Result<usize, Refusal>
    ensures { brought_of result workspace.new ≡ import bytes.now bits workspace.old }
{
    if wrong_workspace(workspace.len()) {
        return Err(Refusal::WrongWorkspace);
    }
    if !is_padded(bytes, bits) {
        return Err(Refusal::WrongBits);
    }
    let mut words = [0u32; Word::WORKSPACE_MOST];
    let count = scan(bytes, bits, &mut words).ok_or(Refusal::WrongBits)?;
    if workspace.len() < count {
        return Err(Refusal::TooLong);
    }
    if !is_combinator(&words[..count]) {
        return Err(Refusal::NoCombinator);
    }
    hold(&words, 0, count, workspace)
}

// Puts the bits of the term that the first `length` words of a workspace are into the lent bytes, with 0 in every bit after them, and returns how many they
// are. A refusal changes nothing.
pub fn export(workspace: &[u32], length: usize, bytes: &mut [u8]) -> Result<usize, Refusal>
    ensures { exported_of result bytes.new ≡ export workspace.now length bytes.old }
{
    if wrong_workspace(workspace.len()) {
        return Err(Refusal::WrongWorkspace);
    }
    if workspace.len() < length {
        return Err(Refusal::NoTerm);
    }
    let term = &workspace[..length];
    // A combinator is a whole term, so the check of a term is needed only to tell 10 from 13.
    if !is_combinator(term) {
        if is_term(workspace, length) {
            return Err(Refusal::NoCombinator);
        }
        return Err(Refusal::NoTerm);
    }
    let bits = bits_of(term);
    // Bits that begin a byte take it whole.
    if bytes.len() < bits.div_ceil(BYTE_BITS) {
        return Err(Refusal::TooLong);
    }
    bytes.fill(0);
    put(term, bytes);
    Ok(bits)
}
