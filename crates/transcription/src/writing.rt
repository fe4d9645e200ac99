// The records of a term, from its words, into a table ("The stored table").
ghost use Rattle.std.specs.Prelude.{◌≡◌, [], ◌∷◌, ◌+◌, ◌*◌, ◌<◌, ◌≤◌, length, get_or, drop};
ghost use Rattle.std.proofs.lemmas.List.Edits.{sets};
ghost use Rattle.calculus.specs.Words.{workspace_most};
ghost use Rattle.calculus.specs.Skip.{span};
ghost use Rattle.storage.specs.Records.{form1, records_words};
ghost use Rattle.records.specs.Types.{record_of};
ghost use Rattle.transcription.specs.Writing.{link_if, entry_of, entries, pushed, descended};

use records::payload::value;
use records::{Form, Record};
use words::{Word, extent};

// Room for a level for each word and one around them.
const LEVELS: usize = Word::WORKSPACE_MOST + 1;

// The link, if there is something that it leads to.
fn link_if(number: usize, link: usize) -> usize
    ensures { result ≡ link_if number link }
{
    if number == 0 { 0 } else { link }
}

// The record of word i, where so many siblings come after it.
fn entry(ws: &[u32], i: usize, siblings: usize) -> Record
    requires { (i < length ws.now) × (length ws.now ≤ workspace_most) }
    ensures { record_of result ≡ entry_of (i + 1) siblings (get_or ws.now i 0) (span 1 (drop i ws.now)) }
{
    let word = Word(ws[i]);
    Record {
        kind: word.kind() as u32,
        value: value(word),
        declared: None,
        first: link_if(word.arity(), i + 2),
        next: link_if(siblings, extent(ws, i) + 1),
    }
}

// One more level on top of the levels from `top` on, where it has items; returns where the levels start then. `pushed` and `descended` speak of a slice and a top, so
// the levels are no stack of a library.
fn push(levels: &mut [usize], top: usize, items: usize) -> usize
    requires { (1 ≤ top) × (top ≤ length levels.old) }
    ensures { (result, levels.new) ≡ pushed levels.old top items }
{
    if items == 0 {
        return top;
    }
    levels[top - 1] = items;
    top - 1
}

// Goes on after an item of the innermost level that so many items follow: that level has one item less, and these are a level of their own.
fn descend(levels: &mut [usize], top: usize, items: usize) -> usize
    requires { (1 ≤ top) × (top < length levels.old) × (1 ≤ get_or levels.old top 0) }
    ensures { (result, levels.new) ≡ descended levels.old top items }
{
    let siblings = levels[top] - 1;
    let rest = push(levels, top + 1, siblings);
    push(levels, rest, items)
}

// Puts the records of the term that starts the words, from index 1 on. The items still to come are counted level by level, the innermost first.
fn put_records(ws: &[u32], table: &mut [u32])
    requires { (length ws.now ≤ workspace_most) × (length table.old ≡ form1.record_words * (length ws.now + 1)) }
    ensures { table.new ≡ sets table.old form1.record_words (records_words (entries 1 (1 ∷ []) ws.now)) }
{
    let mut levels = [0usize; LEVELS];
    let mut top = push(&mut levels, LEVELS, 1);
    for i in 0..ws.len() {
        if top == LEVELS {
            return;
        }
        entry(ws, i, levels[top] - 1).put(table, Form::One, i + 1);
        top = descend(&mut levels, top, Word(ws[i]).arity());
    }
}

// Puts the table of the term that the words are: the header, and behind it the records.
pub fn put_table(ws: &[u32], table: &mut [u32])
    requires { (length ws.now ≤ workspace_most) × (length table.old ≡ form1.record_words * (length ws.now + 1)) }
    ensures { table.new ≡ sets (sets table.old 0 (form1.header_words (length ws.now) 1)) form1.record_words (records_words (entries 1 (1 ∷ []) ws.now)) }
{
    Form::One.put_header(table, ws.len(), 1);
    put_records(ws, table);
}
