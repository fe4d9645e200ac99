// Vectors: calls of the unit on real words, compared with what they should give. Each line of standard input is a vector or a comment; what a vector
// expects stands in its line. Prints those that fail, how many pass, and how many there are. An input that is missing or cut off has fewer.
//
// `rt run` in this folder proves and builds it, and runs it on the file stdin; `tools/program vectors` puts it there as target/bin/vectors.
#![tactic(auto)]

use crate::vector::tally_all;

mod encoded;
mod pair;
mod stored;
mod typed;
mod vector;

// The streams that it reads and writes, by number: std's reader fills no array as far as the input goes and says how far.
const STDIN: i32 = 0;

pub const STDOUT: i32 = 1;

// The most bytes that are read.
const INPUT_MOST: usize = 524288;

fn main() {
    let mut input = [0u8; INPUT_MOST];
    let length = io::read_full(STDIN, &mut input);
    let all = tally_all(&input[..length]);
    io::print_decimal(STDOUT, all.passed as u64);
    io::write_all(STDOUT, b" of ");
    io::print_decimal(STDOUT, all.vectors as u64);
    io::write_all(STDOUT, b" vectors passed\n");
}
