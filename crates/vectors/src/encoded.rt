// Vectors of importing and exporting.
//
//     import C count bytes gives words                the encoding of these bytes with this bit count is imported as these words, and exporting them gives the
//                                                     count and the bytes again
//     import C count bytes Refused number             a refusal, which changes nothing
//     export C words length size writes count bytes   exporting gives an encoding: this bit count and these bytes
//     export C words length size Refused number
//
// The workspace has C words, and the bytes that are written are `size`, or as many as were imported: all junk before the call, and every word and byte is
// compared after it. Bytes are a list of numbers like words, `-` for none; one above 255 is no byte, and its vector fails.
ghost use Rattle.std.specs.Prelude.{◌≡◌, ◌≤◌, length};
ghost use Rattle.binary.specs.Types.{exported_of};
ghost use Rattle.vector_text.specs.Lists.{list_most};
ghost use Rattle.vectors.specs.Stored.{verified_of};
ghost use Rattle.vectors.specs.Encoded.{exported_into, exports_back, importing, import_holds, exported_as, exports_words, export_holds};

use crate::pair::{JUNK, ROOM};
use crate::stored::{brings, is_last, refuses, returns_count};
use binary::{export, import};
use text::bytes::{are_bytes, narrow, widen};
use vector_text::lent::{holds, lent};
use vector_text::{LIST_MOST, Reader};
use words::refusal::Refusal;

// Exports into as many bytes of junk as there are words, which then are those bytes.
fn export_widened(workspace: &[u32], len: usize, encoded: &mut [u32]) -> Result<usize, Refusal>
    requires { length encoded.old ≤ list_most }
    ensures { exported_of result encoded.new ≡ exported_into workspace.now len (length encoded.old) }
{
    let mut bytes = [JUNK as u8; LIST_MOST];
    let n = lent(encoded.len(), LIST_MOST);
    let answer = export(workspace, len, &mut bytes[..n]);
    widen(&bytes[..n], encoded);
    answer
}

// Whether exporting gives this bit count and these bytes.
fn exports_back(workspace: &[u32], len: usize, count: usize, bytes: &[u32]) -> bool
    ensures { result ≡ exports_back workspace.now len count bytes.now }
{
    let mut encoded = [0u32; LIST_MOST];
    let n = lent(bytes.len(), LIST_MOST);
    let answer = export_widened(workspace, len, &mut encoded[..n]);
    returns_count(answer, count) & holds(&encoded[..n], bytes, bytes.len(), JUNK)
}

// Whether importing the bytes that these words are goes as the line says, to its end. A term that was brought is exported too.
#[tactic(auto, unfolding(crate::specs::Encoded::importing, crate::specs::Encoded::imported_as))]
fn imports(mut reader: Reader<'_>, count: usize, words: &[u32], workspace: &mut [u32]) -> bool
    requires { length words.now ≤ list_most }
    ensures { verified_of result workspace.new ≡ importing reader.entry.line.now reader.entry.at count words.now workspace.old }
{
    if !are_bytes(words) {
        return false;
    }
    let mut bytes = [0u8; LIST_MOST];
    let n = narrow(words, &mut bytes);
    let answer = import(&bytes[..n], count, workspace);
    let term = brings(&mut reader, answer, workspace);
    let ends = term.equal & reader.ends();
    // A refusal brings no words, and no term has none.
    if term.count == 0 {
        return ends;
    }
    ends & exports_back(workspace, term.count, count, words)
}

// Whether a line is right, from its size on.
pub fn import_holds(mut reader: Reader<'_>) -> bool
    ensures { result ≡ import_holds reader.entry.line.now reader.entry.at }
{
    let mut words = [0u32; LIST_MOST];
    let mut workspace = [JUNK; ROOM];
    let c = reader.number();
    let count = reader.number() as usize;
    let length = reader.list(&mut words);
    let n = lent(length, LIST_MOST);
    let w = lent(c as usize, ROOM);
    imports(reader, count, &words[..n], &mut workspace[..w])
}

// Whether what exporting answered and wrote is what the line says, to its end.
#[tactic(auto, unfolding(crate::specs::Encoded::exported_as))]
fn exports(mut reader: Reader<'_>, answer: Result<usize, Refusal>, encoded: &[u32]) -> bool
    ensures { result ≡ exported_as reader.entry.line.now reader.entry.at (exported_of answer encoded.now) }
{
    if reader.take(b"Refused") {
        return refuses(reader, answer, encoded);
    }
    reader.expect(b"writes");
    let count = reader.number() as usize;
    returns_count(answer, count) & is_last(reader, encoded)
}

// The words in the workspace, then the length and the size that exporting gets.
fn exports_words(mut reader: Reader<'_>, workspace: &mut [u32]) -> bool
    ensures { verified_of result workspace.new ≡ exports_words reader.entry.line.now reader.entry.at workspace.old }
{
    let mut encoded = [0u32; LIST_MOST];
    reader.list(workspace);
    let length = reader.number() as usize;
    let size = reader.number() as usize;
    let n = lent(size, LIST_MOST);
    let answer = export_widened(workspace, length, &mut encoded[..n]);
    exports(reader, answer, &encoded[..n])
}

// Whether a line is right, from its size on.
pub fn export_holds(mut reader: Reader<'_>) -> bool
    ensures { result ≡ export_holds reader.entry.line.now reader.entry.at }
{
    let mut workspace = [JUNK; ROOM];
    let c = reader.number();
    let w = lent(c as usize, ROOM);
    exports_words(reader, &mut workspace[..w])
}
