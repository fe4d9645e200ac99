// Refusal 3: kinds, values, and what records declare.
ghost use Rattle.std.specs.Prelude.{◌≡◌, false};
ghost use Rattle.records.specs.Preconditions.{Inside};
ghost use Rattle.records.specs.Types.{declared_of, stored_of, viewed_of};
ghost use Rattle.storage.specs.Header.{wrong_length};
ghost use Rattle.storage.specs.Values.{value_fits, numberFits, declared_fits, valued, wrong_value};

use crate::Table;
use words::Word;
use words::kind::Kind;
use words::pattern::is_tag;
use words::payload::payload_fits;

// Whether a record of this kind may have this value.
fn kind_fits(kind: u32, value: u32) -> bool
    ensures { result ≡ value_fits kind value }
{
    match Kind::from(kind) {
        Kind::Constructor => is_tag(value),
        Kind::Case => value == 0,
        _ => payload_fits(kind, value),
    }
}

// Whether a record of this kind may have so many children. The kind is the table's word: a `Kind` would ask more of callers.
pub fn number_fits(kind: u32, number: usize) -> bool
    ensures { result ≡ numberFits kind number }
{
    match Kind::from(kind) {
        Kind::Variable | Kind::Numeral => number == 0,
        Kind::Application => number == 2,
        Kind::Constructor => number <= Word::ARGUMENTS_MOST as usize,
        Kind::Case => (1..=Word::BRANCHES_MOST as usize + 1).contains(&number),
        Kind::Abstraction | Kind::Branch | Kind::Unassigned => number == 1,
    }
}

// Whether a record of this kind may declare what it does.
fn declared_fits(kind: u32, declared: Option<usize>) -> bool
    ensures { result ≡ declared_fits kind (declared_of declared) }
{
    declared.is_none_or(|number| number_fits(kind, number))
}

// Whether record i has a kind, a value that fits it, and declares a number of children that fits it, if it does.
pub fn value_fits(table: &Table, i: usize) -> bool
    requires { Inside (stored_of table.now) i }
    ensures { result ≡ valued ((viewed_of table.now).at i) }
{
    let record = table.at(i);
    kind_fits(record.kind, record.value) && declared_fits(record.kind, record.declared)
}

pub fn wrong_values(table: &Table) -> bool
    requires { wrong_length (stored_of table.now) ≡ false }
    ensures { result ≡ wrong_value (viewed_of table.now) }
{
    !table.indices().all(|i| value_fits(table, i))
}
