// Vectors, one to a line. What a line means is said at the top of pair.rt (pair), stored.rt (load, write), typed.rt (line) and encoded.rt (import, export).
ghost use Rattle.std.specs.Prelude.{◌≡◌, ◌==◌, ◌≤◌, length, position};
ghost use Rattle.vectors.specs.Vector.{newline, line_end, passes, counted, share_of, tally_all};

use crate::STDOUT;
use crate::encoded::{export_holds, import_holds};
use crate::pair::pair_holds;
use crate::stored::{load_holds, write_holds};
use crate::typed::line_holds;
use vector_text::Reader;

// How many vectors there are, and how many of them pass.
#[derive(Clone, Copy)]
pub struct Tally {
    pub vectors: usize,
    pub passed: usize,
}

// A chain of tests: a table of keywords with functions would need a contract that each of its function pointers meets.
#[tactic(auto, unfolding(crate::specs::Vector::passes))]
fn passes(line: &[u8]) -> bool
    ensures { result ≡ passes line.now }
{
    let mut reader = Reader { line, at: 0 };
    if reader.take(b"pair") {
        return pair_holds(reader);
    }
    if reader.take(b"load") {
        return load_holds(reader);
    }
    if reader.take(b"line") {
        return line_holds(reader);
    }
    if reader.take(b"import") {
        return import_holds(reader);
    }
    if reader.take(b"export") {
        return export_holds(reader);
    }
    reader.expect(b"write");
    write_holds(reader)
}

// A vector's share. One that fails is printed.
fn count(line: &[u8], passes: bool) -> Tally
    ensures { result ≡ counted passes }
{
    if passes {
        return Tally {
            vectors: 1,
            passed: 1,
        };
    }
    io::write_all(STDOUT, b"failed: ");
    io::write_all(STDOUT, line);
    io::write_all(STDOUT, b"\n");
    Tally {
        vectors: 1,
        passed: 0,
    }
}

// A line's share: none of an empty line and of a comment. A line that is cut off before its end fails.
#[tactic(auto, unfolding(crate::specs::Vector::share_of))]
fn share(line: &[u8], ended: bool) -> Tally
    ensures { result ≡ share_of line.now ended }
{
    if line.is_empty() || line[0] == b'#' {
        return Tally {
            vectors: 0,
            passed: 0,
        };
    }
    count(line, ended & passes(line))
}

// Where the first newline stands.
fn newline_at(text: &[u8]) -> Option<usize>
    ensures { result ≡ position (λ b. b == newline) text.now }
{
    text.iter().position(|byte| *byte == b'\n')
}

// Where the line that goes on at a position ends.
fn line_end(text: &[u8], at: usize) -> usize
    requires { at ≤ length text.now }
    ensures { (result ≡ line_end text.now at) × (at ≤ result) × (result ≤ length text.now) }
{
    match newline_at(&text[at..]) {
        Some(i) => at + i,
        None => text.len(),
    }
}

// All lines of a text together.
pub fn tally_all(text: &[u8]) -> Tally
    ensures { result ≡ tally_all text.now }
{
    let mut vectors = 0;
    let mut passed = 0;
    let mut at = 0;
    // As many turns as the text has bytes, as `tally_all` counts them: a line has a newline, or is the last.
    for _ in 0..text.len() {
        if text.len() <= at {
            break;
        }
        let end = line_end(text, at);
        let line = share(&text[at..end], end < text.len());
        vectors += line.vectors;
        passed += line.passed;
        at = end + 1;
    }
    Tally { vectors, passed }
}
