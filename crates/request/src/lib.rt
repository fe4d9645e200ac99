// What the bytes ask ("The verdict program"): budget, C, and two tables, each behind its word count.
#![tactic(auto)]

ghost use Rattle.std.specs.Prelude.{◌≡◌, ◌≤◌, length};
ghost use Rattle.request.specs.Request.{table_limit, input_most};
ghost use Rattle.request.specs.Parse.{table_at, Parses};

use records::Form;
use text::bytes::{WORD_BYTES, word_at};
use words::Word;

// The most words of a table: a header, and as many records as a workspace has words.
pub const TABLE_MOST: usize = Form::ONE_WORDS * (Word::WORKSPACE_MOST + 1);

// The most bytes of a request: budget, C, and two tables behind their counts.
pub const INPUT_MOST: usize = WORD_BYTES * (4 + 2 * TABLE_MOST);

// Where budget, C and the left count stand.
const BUDGET: usize = 0;

const C: usize = WORD_BYTES;

const LEFT: usize = 2 * WORD_BYTES;

// Where a table stands in the bytes: the position of its first word, and its words.
#[derive(Clone, Copy)]
pub struct Table {
    pub at: usize,
    pub words: usize,
}

// The parts of a request.
#[derive(Clone, Copy)]
pub struct Request {
    pub budget: u32,
    pub c: u32,
    pub left: Table,
    pub right: Table,
}

// The table whose word count stands at a position: none where a byte of it is missing, or the count is above its limit.
fn table_at(bytes: &[u8], at: usize) -> Option<Table>
    requires { at ≤ length bytes.now }
    ensures { result ≡ table_at bytes.now at }
{
    let ahead = bytes.len() - at;
    if ahead < WORD_BYTES {
        return None;
    }
    let words = word_at(bytes, at) as usize;
    if TABLE_MOST < words || ahead < WORD_BYTES + WORD_BYTES * words {
        return None;
    }
    Some(Table {
        at: at + WORD_BYTES,
        words,
    })
}

// Budget, C and the two tables stand one after the other, and nothing behind them.
pub fn parse(bytes: &[u8]) -> Option<Request>
    ensures { Parses bytes.now result }
{
    if bytes.len() < LEFT {
        return None;
    }
    let left = table_at(bytes, LEFT)?;
    let right = table_at(bytes, left.at + WORD_BYTES * left.words)?;
    if right.at + WORD_BYTES * right.words != bytes.len() {
        return None;
    }
    Some(Request {
        budget: word_at(bytes, BUDGET),
        c: word_at(bytes, C),
        left,
        right,
    })
}

// Does nothing. Its contract says that each constant is the number that the definitions give its name.
fn constants()
    ensures table_most { TABLE_MOST ≡ table_limit }
    ensures input_most { INPUT_MOST ≡ input_most }
{}
