// Vectors of reading.
//
//     line C bytes gives words      the line of these bytes is read as these words
//     line C bytes Refused number   a refusal, which changes nothing
//
// The workspace has C words: all junk before the call, and every word is compared after it. Bytes are a list of numbers like words, `-` for none; one above
// 255 is no byte, and its vector fails.
ghost use Rattle.std.specs.Prelude.{◌≡◌, ◌≤◌, length};
ghost use Rattle.vector_text.specs.Lists.{list_most};
ghost use Rattle.vectors.specs.Stored.{verified_of};
ghost use Rattle.vectors.specs.Typed.{reading, line_holds};

use crate::pair::{JUNK, ROOM};
use crate::stored::brings;
use lines::read_line;
use text::bytes::{are_bytes, narrow};
use vector_text::lent::lent;
use vector_text::{LIST_MOST, Reader};

// Whether reading the bytes that these words are goes as the line says, to its end.
#[tactic(auto, unfolding(crate::specs::Typed::reading))]
fn reads(mut reader: Reader<'_>, words: &[u32], workspace: &mut [u32]) -> bool
    requires { length words.now ≤ list_most }
    ensures { verified_of result workspace.new ≡ reading reader.entry.line.now reader.entry.at words.now workspace.old }
{
    if !are_bytes(words) {
        return false;
    }
    let mut bytes = [0u8; LIST_MOST];
    let n = narrow(words, &mut bytes);
    let answer = read_line(&bytes[..n], workspace);
    let term = brings(&mut reader, answer, workspace);
    term.equal & reader.ends()
}

// Whether a line is right, from its size on.
pub fn line_holds(mut reader: Reader<'_>) -> bool
    ensures { result ≡ line_holds reader.entry.line.now reader.entry.at }
{
    let mut words = [0u32; LIST_MOST];
    let mut workspace = [JUNK; ROOM];
    let c = reader.number();
    let count = reader.list(&mut words);
    let n = lent(count, LIST_MOST);
    let w = lent(c as usize, ROOM);
    reads(reader, &words[..n], &mut workspace[..w])
}
