// Judging a table: refusals 1, 2, 8, 3, 4, 5 and 6 in this order, and the words of its term, read once. One room, lent with zeros, serves to count the links
// and then for the words.
ghost use Rattle.std.specs.Prelude.{◌≡◌, false, [], ◌∷◌, ◌≤◌, length, replicate};
ghost use Rattle.calculus.specs.Refusal.{WrongFree};
ghost use Rattle.words.specs.Types.{result_of};
ghost use Rattle.storage.specs.Header.{wrong_length, wrong_header};
ghost use Rattle.records.specs.Counting.{room_most};
ghost use Rattle.records.specs.Types.{stored_of, viewed_of};
ghost use Rattle.transcription.specs.Reading.{Readable};
ghost use Rattle.storage.specs.FreeNumbers.{wrong_free};
ghost use Rattle.storage.specs.Load.{record_checks, table_checks};
ghost use Rattle.tables.specs.Judging.{Judged};

use records::Table;
use records::children::wrong_children;
use records::header::{wrong_header, wrong_length};
use records::links::wrong_links;
use records::values::wrong_values;
use terms::is_term;
use transcription::reading::{Words, read_term};
use words::refusal::Refusal;

// The refusal that is met first, 8 by the most words that there is room for; or the number of words of the term, which stand at the start of the room then.
pub fn judge(table: &Table, most: usize, room: &mut Words) -> Result<usize, Refusal>
    requires { room.old ≡ replicate room_most 0 }
    ensures { Judged (viewed_of table.now) (table_checks (stored_of table.now) most) room.old (result_of result) room.new }
{
    if wrong_length(table) {
        return Err(Refusal::WrongLength);
    }
    if wrong_header(table) {
        return Err(Refusal::WrongHeader);
    }
    if most < table.count() {
        return Err(Refusal::TooLong);
    }
    judge_records(table, room)
}

// The same of the refusals that are about the records.
fn judge_records(table: &Table, room: &mut Words) -> Result<usize, Refusal>
    requires headed { (wrong_length (stored_of table.now) ≡ false) × (wrong_header (stored_of table.now) ≡ false) }
    requires zeros { room.old ≡ replicate room_most 0 }
    ensures { Judged (viewed_of table.now) (record_checks (viewed_of table.now)) room.old (result_of result) room.new }
{
    if wrong_values(table) {
        return Err(Refusal::WrongValue);
    }
    if wrong_links(table, room) {
        return Err(Refusal::WrongLink);
    }
    if wrong_children(table) {
        return Err(Refusal::WrongChildren);
    }
    judge_free_numbers(table, room)
}

// The same of refusal 6. Everything else that is asked of a term holds by the refusals before, so the words are no accepted term only by a free number.
fn judge_free_numbers(table: &Table, room: &mut Words) -> Result<usize, Refusal>
    requires readable { Readable (stored_of table.now) (viewed_of table.now).root × (1 ≤ (viewed_of table.now).root) }
    requires room { length room.old ≡ room_most }
    ensures { Judged (viewed_of table.now) ((WrongFree, wrong_free (viewed_of table.now)) ∷ []) room.old (result_of result) room.new }
{
    let end = read_term(table, table.root(), room, 0);
    if !is_term(room, end) {
        return Err(Refusal::WrongFree);
    }
    Ok(end)
}
