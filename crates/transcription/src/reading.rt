// The readers: a term is read with the chain of its children, and a chain term by term ("The stored table").
ghost use Rattle.std.specs.Prelude.{◌+◌, ◌≤◌, length};
ghost use Rattle.calculus.specs.Words.{workspace_most};
ghost use Rattle.words.specs.Placed.{Placed};
ghost use Rattle.records.specs.Types.{stored_of, viewed_of};
ghost use Rattle.transcription.specs.Reading.{chain_words, term_words, Readable};

use records::Table;
use records::children::chain_length;
use records::links::ROOM;
use records::payload::word;

// Room for the words of every term that a workspace holds, as much as the links are counted in. The readers are lent an array and no slice: a reference to an
// array is one machine word, so each level of a table takes less machine stack.
pub type Words = [u32; ROOM];

// Writes the words of record `at` with its children from position `out` on, and returns the position after them.
#[cycle(readers)]
pub fn read_term(table: &Table, at: usize, words: &mut Words, out: usize) -> usize
    requires readable { Readable (stored_of table.now) at × (1 ≤ at) }
    requires room { out + length (term_words (viewed_of table.now) at) ≤ workspace_most }
    ensures { Placed words.old out (term_words (viewed_of table.now) at) words.new result }
{
    let record = table.at(at);
    let first = record.first;
    let children = chain_length(table, first);
    words[out] = word(record.kind, record.value, children).0;
    read_chain(table, first, words, out + 1)
}

// The same of the chain from a link.
#[cycle(readers)]
fn read_chain(table: &Table, link: usize, words: &mut Words, out: usize) -> usize
    requires readable { Readable (stored_of table.now) link }
    requires room { out + length (chain_words (viewed_of table.now) link) ≤ workspace_most }
    ensures { Placed words.old out (chain_words (viewed_of table.now) link) words.new result }
{
    if link == 0 {
        return out;
    }
    let end = read_term(table, link, words, out);
    read_chain(table, table.at(link).next, words, end)
}
