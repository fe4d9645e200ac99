// Between a record's value and the payload of its word.
ghost use Rattle.std.specs.Prelude.{◌≡◌};
ghost use Rattle.calculus.specs.Words.{word, kind_of, payload_of};
ghost use Rattle.storage.specs.Payload.{value_of, payload};
ghost use Rattle.records.specs.Preconditions.{Wordable};

use words::Word;
use words::kind::Kind;

// The value of a word's record.
pub fn value(word: Word) -> u32
    ensures { result ≡ value_of (kind_of word.0) (payload_of word.0) }
{
    match word.kind() {
        Kind::Constructor => word.tag(),
        Kind::Case => 0,
        _ => word.payload(),
    }
}

// The payload of a record of this kind and value with so many children, and its word.
fn payload(kind: u32, value: u32, children: usize) -> u32
    requires { Wordable kind value children }
    ensures { result ≡ payload kind value children }
{
    match Kind::from(kind) {
        Kind::Constructor => value * Word::COUNT_BASE + children as u32,
        Kind::Case => children as u32 - 1,
        _ => value,
    }
}

// The kind is a number here and stays one: a `Kind` made of it would be turned back, at each record that is read.
pub fn word(kind: u32, value: u32, children: usize) -> Word
    requires { Wordable kind value children }
    ensures { result.0 ≡ word kind (payload kind value children) }
{
    Word::packed(kind, payload(kind, value, children))
}
