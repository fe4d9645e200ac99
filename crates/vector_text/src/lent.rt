// Lent words: how many there are, and whether they are those that they should be.
ghost use Rattle.std.specs.Prelude.{◌≡◌, min};
ghost use Rattle.vector_text.specs.Compared.{word_at, are_words};

// So many words of a room are lent: all where it has fewer.
pub fn lent(n: usize, room: usize) -> usize
    ensures { result ≡ min n room }
{
    n.min(room)
}

// The word at a place among the first `count` of a list, and the tail's word beyond them.
fn word_at(list: &[u32], count: usize, tail: u32, i: usize) -> u32
    ensures { result ≡ word_at list.now count tail i }
{
    if count <= i {
        return tail;
    }
    list.get(i).copied().unwrap_or(tail)
}

// Whether these are the first `count` words of a list and then a tail of equal words.
pub fn holds(words: &[u32], list: &[u32], count: usize, tail: u32) -> bool
    ensures { result ≡ are_words words.now list.now count tail }
{
    if words.len() < count {
        return false;
    }
    words
        .iter()
        .enumerate()
        .all(|(i, word)| *word == word_at(list, count, tail, i))
}

// Whether every word is this one.
pub fn filled(words: &[u32], word: u32) -> bool
    ensures { result ≡ are_words words.now words.now 0 word }
{
    holds(words, words, 0, word)
}
