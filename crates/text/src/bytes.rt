// Little-endian 32-bit words in bytes, and words that are a byte each.
ghost use Rattle.std.specs.Prelude.{◌≡◌, ◌≤◌, ◌+◌, ◌*◌, length, true};
ghost use Rattle.words.specs.Placed.{Placed};
ghost use Rattle.text.specs.Bytes.{word_bytes, are_bytes};
ghost use Rattle.text.specs.Decode.{word_at, words_from};

pub const WORD_BYTES: usize = 4;

// The words below it are bytes.
const BYTE_BASE: u32 = 256;

// The word whose first byte stands at a position.
pub fn word_at(bytes: &[u8], at: usize) -> u32
    requires { at + word_bytes ≤ length bytes.now }
    ensures { result ≡ word_at bytes.now at }
{
    u32::from_le_bytes([bytes[at], bytes[at + 1], bytes[at + 2], bytes[at + 3]])
}

// Fills a slice with the words from a position on.
pub fn words_from(bytes: &[u8], at: usize, words: &mut [u32])
    requires { at + word_bytes * length words.old ≤ length bytes.now }
    ensures { words.new ≡ words_from (length words.old) bytes.now at }
{
    for (i, word) in words.iter_mut().enumerate() {
        *word = word_at(bytes, at + WORD_BYTES * i);
    }
}

// Whether every word is a byte.
pub fn are_bytes(words: &[u32]) -> bool
    ensures { result ≡ are_bytes words.now }
{
    words.iter().all(|w| *w < BYTE_BASE)
}

// Puts words that are bytes at the start of a slice of bytes, and returns how many they are.
pub fn narrow(words: &[u32], bytes: &mut [u8]) -> usize
    requires words_value { are_bytes words.now ≡ true }
    requires words_in_bounds { length words.now ≤ length bytes.old }
    ensures { Placed bytes.old 0 words.now bytes.new result }
{
    for (i, word) in words.iter().enumerate() {
        bytes[i] = *word as u8;
    }
    words.len()
}

// Puts bytes as words at the start of a slice of words, and returns how many they are. It is no twin of `narrow` that a type parameter would join: what is
// a byte fits a word, and not the other way round.
pub fn widen(bytes: &[u8], words: &mut [u32]) -> usize
    requires { length bytes.now ≤ length words.old }
    ensures { Placed words.old 0 bytes.now words.new result }
{
    for (i, byte) in bytes.iter().enumerate() {
        words[i] = u32::from(*byte);
    }
    bytes.len()
}
