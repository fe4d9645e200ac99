// The words that the bits of an encoding stand for.
ghost use Rattle.std.specs.Prelude.{◌≡◌, ◌*◌, ◌≤◌, length, take};
ghost use Rattle.calculus.specs.Words.{variable_kind, word};
ghost use Rattle.encoding.specs.Bytes.{byte_bits, unpacked};
ghost use Rattle.encoding.specs.Decoding.{words_in};
ghost use Rattle.binary.specs.Scan.{clipped, Scans};

use bits::reading::{Token, first_token};
use words::Word;
use words::kind::Kind;
use words::slices::store;

// The word of a variable. An index that no term of a workspace binds is put as one that is as free.
fn variable(index: usize) -> u32
    ensures { result ≡ clipped (word variable_kind index) }
{
    Word::new(Kind::Variable, index.min(Word::WORKSPACE_MOST) as u32).0
}

// Reads the first bits of the bytes as one term, puts its words, as many as there is room for, at the start of a slice, and returns how many they are: nothing
// where the bits end early or are left over.
pub fn scan(bytes: &[u8], bits: usize, words: &mut [u32]) -> Option<usize>
    requires { bits ≤ byte_bits * length bytes.now }
    ensures { Scans (words_in (take bits (unpacked bytes.now)) 0 1) words.old words.new result }
{
    let mut at: usize = 0;
    let mut terms: usize = 1;
    let mut count: usize = 0;
    // By hand: a turn goes on by the bits of its word.
    while at < bits {
        if terms == 0 {
            return None;
        }
        match first_token(bytes, at, bits)? {
            Token::Abstraction => {
                store(words, count, Word::new(Kind::Abstraction, 0).0);
                at += 2;
            }
            Token::Application => {
                store(words, count, Word::new(Kind::Application, 0).0);
                at += 2;
                terms += 1;
            }
            Token::Variable(index) => {
                store(words, count, variable(index));
                at += index + 2;
                terms -= 1;
            }
        }
        count += 1;
    }
    (terms == 0).then_some(count)
}
