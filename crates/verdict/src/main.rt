// Reads a request from standard input, and prints its line.
#![tactic(auto)]

use request::INPUT_MOST;
use verdict_text::PRINTED_MOST;

// The streams that it reads and writes, by descriptor: the library's readers fill no array as far as an input goes, but a vector, which needs a heap.
const STDIN: i32 = 0;

const STDOUT: i32 = 1;

fn main() {
    // One byte more than a request can have shows that an input is longer.
    let mut input = [0u8; INPUT_MOST + 1];
    let count = io::read_full(STDIN, &mut input);
    let mut line = [0u8; PRINTED_MOST];
    let length = verdict_line::line(&input[..count], &mut line);
    io::write_all(STDOUT, &line[..length]);
}
