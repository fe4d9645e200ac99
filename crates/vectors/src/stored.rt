// Vectors of loading and writing.
//
//     load C table gives words                 the table loads to these words, and writing them gives the table again
//     load C table gives words writes table    the same, but writing gives another table
//     load C table Refused number              a refusal, which changes nothing
//     write C words length size writes table   writing gives a table
//     write C words length size Refused number
//
// The workspace has C words, and the table that is written `size`: all junk before the call, and every word is compared after it. In place of a
// table, `chain n index` is the table of n - 1 abstractions around a variable.
ghost use Rattle.std.specs.Prelude.{◌≡◌, ◌≤◌, length};
ghost use Rattle.words.specs.Types.{result_of, brought_of};
ghost use Rattle.vectors.specs.Answers.{is_returned};
ghost use Rattle.vector_text.specs.Lists.{list_most};
ghost use Rattle.vectors.specs.Stored.{verified_of, refused_last, chain_word, chain, table_at, is_last, is_table, writes_into, writes_back, brought_as, loading, load_holds, writes_words, write_holds};

use crate::pair::{JUNK, ROOM};
use records::Form;
use tables::{load, write};
use vector_text::lent::{filled, holds, lent};
use vector_text::{Compared, LIST_MOST, Reader};
use words::refusal::Refusal;

pub fn returns_count(answer: Result<usize, Refusal>, count: usize) -> bool
    ensures { result ≡ is_returned (result_of answer) count }
{
    answer == Ok(count)
}

// Whether the answer is the refusal that the line names last, and what was lent is still junk.
pub fn refuses(mut reader: Reader<'_>, answer: Result<usize, Refusal>, lent: &[u32]) -> bool
    ensures { result ≡ refused_last reader.entry.line.now reader.entry.at (result_of answer) lent.now }
{
    let Err(refusal) = answer else {
        return false;
    };
    let named = reader.number() == refusal.number();
    named & reader.ends() & filled(lent, JUNK)
}

// A word of the chain's table. The header differs from an abstraction over the next record in the second word alone.
fn chain_word(place: usize, records: u32, index: u32) -> u32
    requires { place ≤ list_most }
    ensures { result ≡ chain_word records index place }
{
    let record = place / Form::ONE_WORDS;
    if records as usize <= record {
        return if place % Form::ONE_WORDS == 1 {
            index
        } else {
            0
        };
    }
    match place % Form::ONE_WORDS {
        0 => 1,
        1 => if record == 0 { records } else { 0 },
        2 => record as u32 + 1,
        _ => 0,
    }
}

fn put_chain(table: &mut [u32], records: u32, index: u32)
    requires { length table.old ≤ list_most }
    ensures { table.new ≡ chain records index (length table.old) }
{
    for (i, word) in table.iter_mut().enumerate() {
        *word = chain_word(i, records, index);
    }
}

// The table that comes next in the line. Returns how many words it has.
#[tactic(auto, unfolding(crate::specs::Stored::table_at))]
fn read_table(reader: &mut Reader<'_>, table: &mut [u32]) -> usize
    requires { length table.old ≤ list_most }
    ensures words { table.new ≡ (table_at reader.old.line.now reader.old.at table.old).words }
    ensures count { result ≡ (table_at reader.old.line.now reader.old.at table.old).count }
    ensures next { reader.new ≡ record reader.old { at = (table_at reader.old.line.now reader.old.at table.old).next } }
{
    if !reader.take(b"chain") {
        return reader.list(table);
    }
    let records = reader.number();
    let index = reader.number();
    put_chain(table, records, index);
    Form::ONE_WORDS * (records as usize + 1)
}

// Whether these words are the list that comes next, and the line ends behind it.
#[tactic(auto, unfolding(crate::specs::Stored::is_last))]
pub fn is_last(mut reader: Reader<'_>, words: &[u32]) -> bool
    ensures { result ≡ is_last reader.entry.line.now reader.entry.at words.now }
{
    let list = reader.compare(words, JUNK);
    list.equal & (list.count == words.len()) & reader.ends()
}

// Whether a written table is the one that the line names after `writes`, or else the one that was loaded.
#[tactic(auto, unfolding(crate::specs::Stored::is_table))]
fn is_table(mut reader: Reader<'_>, written: &[u32], loaded: &[u32]) -> bool
    ensures { result ≡ is_table reader.entry.line.now reader.entry.at written.now loaded.now }
{
    if reader.take(b"writes") {
        return is_last(reader, written);
    }
    holds(written, loaded, loaded.len(), JUNK) & reader.ends()
}

// Whether writing goes as the line says, to the line's end.
#[tactic(auto, unfolding(crate::specs::Stored::writes_into))]
fn writes_into(
    mut reader: Reader<'_>,
    loaded: &[u32],
    workspace: &[u32],
    length: usize,
    table: &mut [u32],
) -> bool
    ensures { verified_of result table.new ≡ writes_into reader.entry.line.now reader.entry.at loaded.now workspace.now length table.old }
{
    let answer = write(workspace, length, table);
    if reader.take(b"Refused") {
        return refuses(reader, answer, table);
    }
    returns_count(answer, length) & is_table(reader, table, loaded)
}

// The same of a loaded term, into a table of junk as long as the one that was loaded.
fn writes(reader: Reader<'_>, loaded: &[u32], workspace: &[u32], length: usize) -> bool
    ensures { result ≡ writes_back reader.entry.line.now reader.entry.at loaded.now workspace.now length }
{
    let mut table = [JUNK; LIST_MOST];
    let n = lent(loaded.len(), LIST_MOST);
    writes_into(reader, loaded, workspace, length, &mut table[..n])
}

// What a call brought into a workspace of junk, beside what the line says: the refusal that it names last, which changes nothing and has no words, or the
// words that it gives, with zeros after them.
#[tactic(auto, unfolding(crate::specs::Stored::brought_as))]
pub fn brings(
    reader: &mut Reader<'_>,
    answer: Result<usize, Refusal>,
    workspace: &[u32],
) -> Compared
    ensures equal { result.equal ≡ (brought_as reader.old.line.now reader.old.at (brought_of answer workspace.now)).equal }
    ensures count { result.count ≡ (brought_as reader.old.line.now reader.old.at (brought_of answer workspace.now)).count }
    ensures next { reader.new ≡ record reader.old { at = (brought_as reader.old.line.now reader.old.at (brought_of answer workspace.now)).next } }
{
    if reader.take(b"Refused") {
        let equal = refuses(*reader, answer, workspace);
        reader.at = reader.line.len();
        return Compared { equal, count: 0 };
    }
    reader.expect(b"gives");
    let term = reader.compare(workspace, 0);
    Compared {
        equal: term.equal & returns_count(answer, term.count),
        count: term.count,
    }
}

// Whether loading and writing go as the line says after the table. A term that was brought is written too.
#[tactic(auto, unfolding(crate::specs::Stored::loading, crate::specs::Stored::loaded_as))]
fn loads(mut reader: Reader<'_>, table: &[u32], workspace: &mut [u32]) -> bool
    ensures { verified_of result workspace.new ≡ loading reader.entry.line.now reader.entry.at table.now workspace.old }
{
    let answer = load(table, workspace);
    let term = brings(&mut reader, answer, workspace);
    // A refusal brings no words, and no term has none.
    if term.count == 0 {
        return term.equal & reader.ends();
    }
    term.equal & writes(reader, table, workspace, term.count)
}

// Whether a line is right, from its size on. The workspace is set up in each such function: three lines, and one function that took what follows as a closure
// would need a contract longer than they are.
pub fn load_holds(mut reader: Reader<'_>) -> bool
    ensures { result ≡ load_holds reader.entry.line.now reader.entry.at }
{
    let mut table = [0u32; LIST_MOST];
    let mut workspace = [JUNK; ROOM];
    let c = reader.number();
    let count = read_table(&mut reader, &mut table);
    let n = lent(count, LIST_MOST);
    let w = lent(c as usize, ROOM);
    loads(reader, &table[..n], &mut workspace[..w])
}

// The words in the workspace, then the length and the size that writing gets.
fn writes_words(mut reader: Reader<'_>, workspace: &mut [u32]) -> bool
    ensures { verified_of result workspace.new ≡ writes_words reader.entry.line.now reader.entry.at workspace.old }
{
    let mut table = [JUNK; LIST_MOST];
    reader.list(workspace);
    let length = reader.number() as usize;
    let size = reader.number() as usize;
    let n = lent(size, LIST_MOST);
    writes_into(reader, &[], workspace, length, &mut table[..n])
}

// Whether a line is right, from its size on.
pub fn write_holds(mut reader: Reader<'_>) -> bool
    ensures { result ≡ write_holds reader.entry.line.now reader.entry.at }
{
    let mut workspace = [JUNK; ROOM];
    let c = reader.number();
    let w = lent(c as usize, ROOM);
    writes_words(reader, &mut workspace[..w])
}
