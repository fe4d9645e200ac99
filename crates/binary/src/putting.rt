// The bits of words, put into lent bytes.
ghost use Rattle.std.specs.Prelude.{◌≡◌, true, ◌++◌, ◌+◌, ◌*◌, ◌≤◌, ◌<◌, length, take, drop, replicate};
ghost use Rattle.calculus.specs.Words.{kind_of, payload_of, workspace_most};
ghost use Rattle.encoding.specs.Bytes.{byte_bits, unpacked, packed};
ghost use Rattle.encoding.specs.Encoded.{all_zero};
ghost use Rattle.bits.specs.Runs.{position_bound};
ghost use Rattle.binary.specs.Words.{word_bits, words_bits};

use bits::writing::put_ones;
use words::Word;
use words::kind::Kind;

// How many bits a word has: two, and as many more as its index for a variable.
fn word_bits(word: Word) -> usize
    ensures { result ≡ length (word_bits (kind_of word.0) (payload_of word.0)) }
{
    match word.kind() {
        Kind::Variable => word.payload() as usize + 2,
        _ => 2,
    }
}

pub fn bits_of(words: &[u32]) -> usize
    requires { length words.now ≤ workspace_most }
    ensures { result ≡ length (words_bits words.now) }
{
    words.iter().map(|w| word_bits(Word(*w))).sum()
}

// Puts the bits of a word from a position on, where all are 0, and returns the position after them.
fn put_word(word: Word, bytes: &mut [u8], at: usize) -> usize
    requires bits_fit { at + length (word_bits (kind_of word.0) (payload_of word.0)) ≤ byte_bits * length bytes.old }
    requires position_fits { at + length (word_bits (kind_of word.0) (payload_of word.0)) < position_bound }
    requires rest_zero { all_zero (drop at (unpacked bytes.old)) ≡ true }
    ensures put { bytes.new ≡ packed (length bytes.old) (take at (unpacked bytes.old) ++ word_bits (kind_of word.0) (payload_of word.0)) }
    ensures position { result ≡ at + length (word_bits (kind_of word.0) (payload_of word.0)) }
{
    match word.kind() {
        Kind::Variable => {
            let ones = word.payload() as usize + 1;
            put_ones(bytes, at, ones);
            at + ones + 1
        }
        Kind::Abstraction => at + 2,
        _ => {
            put_ones(bytes, at + 1, 1);
            at + 2
        }
    }
}

// Puts the bits of words into bytes that are all 0.
pub fn put(words: &[u32], bytes: &mut [u8])
    requires bits_fit { (length words.now ≤ workspace_most) × (length (words_bits words.now) ≤ byte_bits * length bytes.old) }
    requires cleared { bytes.old ≡ replicate (length bytes.old) 0 }
    ensures { bytes.new ≡ packed (length bytes.old) (words_bits words.now) }
{
    let mut at: usize = 0;
    for w in words {
        at = put_word(Word(*w), bytes, at);
    }
}
