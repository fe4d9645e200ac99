// The word of a term: payload × 8 + kind ("Terms and words"), and where an item ends. The constants of `Word` are the only places of the code where
// the kinds and the upper limits of the word rules stand as numbers.
#![tactic(auto)]

ghost use Rattle.std.specs.Prelude.{◌≡◌, ◌++◌, ◌≤◌, ◌<◌, ◌+◌, ◌-◌, length, take, drop, replicate};
ghost use Rattle.calculus.specs.Words.{variable_kind, abstraction_kind, application_kind, constructor_kind, case_kind, branch_kind, numeral_kind, workspace_least, workspace_most, library_words, kind_base, count_base};
ghost use Rattle.calculus.specs.Words.{word, kind_of, payload_of, tag_of, count_of};
ghost use Rattle.calculus.specs.Accepted.{tag_limit, argument_limit, branch_limit, free_limit, numeral_limit, index_limit};
ghost use Rattle.calculus.specs.Skip.{arity, span};
ghost use Rattle.words.specs.Limits.{payload_bound};
ghost use Rattle.words.specs.Types.{kind_number};

use kind::Kind;

pub mod kind;
pub mod pattern;
pub mod payload;
pub mod refusal;
pub mod slices;
pub mod workspace;

// A word by value. A workspace holds its number, so a word read there is `Word(w)`.
#[derive(Clone, Copy)]
pub struct Word(pub u32);

impl Word {
    // The kinds.
    pub const VARIABLE: u32 = 0;

    pub const ABSTRACTION: u32 = 1;

    pub const APPLICATION: u32 = 2;

    pub const CONSTRUCTOR: u32 = 3;

    pub const CASE: u32 = 4;

    pub const BRANCH: u32 = 5;

    pub const NUMERAL: u32 = 6;

    // A payload stands above the kind, a tag above a count.
    pub const KIND_BASE: u32 = 8;

    pub const COUNT_BASE: u32 = 16;

    // The words of a workspace, least and most.
    pub const WORKSPACE_LEAST: usize = 16;

    pub const WORKSPACE_MOST: usize = 2048;

    // The words of the library of numerals.
    pub const LIBRARY_WORDS: usize = 1088;

    // The largest tag, argument or bound count, number of branches, free number and numeral.
    pub const TAG_MOST: u32 = 255;

    pub const ARGUMENTS_MOST: u32 = 15;

    pub const BRANCHES_MOST: u32 = 15;

    pub const FREE_MOST: u32 = 255;

    pub const NUMERAL_MOST: u32 = 31;

    // The largest index that a record or a line can hold.
    pub const INDEX_MOST: u32 = 32767;

    // The word of a kind and a payload.
    pub fn new(kind: Kind, payload: u32) -> Self
        requires { payload < payload_bound }
        ensures { result.0 ≡ word (kind_number kind) payload }
    {
        Word::packed(kind as u32, payload)
    }

    // The same by the kind's number, for a word that is made of a record: the record has the number.
    pub fn packed(kind: u32, payload: u32) -> Self
        requires { (kind < kind_base) × (payload < payload_bound) }
        ensures { result.0 ≡ word kind payload }
    {
        Word(payload * Word::KIND_BASE + kind)
    }

    pub fn kind(self) -> Kind
        ensures { kind_number result ≡ kind_of self.0 }
    {
        Kind::from(self.0 % Word::KIND_BASE)
    }

    pub fn payload(self) -> u32
        ensures { result ≡ payload_of self.0 }
    {
        self.0 / Word::KIND_BASE
    }

    // The tag of a constructor or a branch.
    pub fn tag(self) -> u32
        ensures { result ≡ tag_of (payload_of self.0) }
    {
        self.0 / Word::KIND_BASE / Word::COUNT_BASE
    }

    // The arguments of a constructor, or the variables that a branch binds.
    pub fn count(self) -> u32
        ensures { result ≡ count_of (payload_of self.0) }
    {
        self.0 / Word::KIND_BASE % Word::COUNT_BASE
    }

    // How many items follow the word: as many as the number of its kind for a variable, an abstraction and an application. Asked first, and by the number,
    // these cost less.
    #[tactic(auto, unfolding(calculus::specs::Skip::following))]
    pub fn arity(self) -> usize
        ensures { result ≡ arity self.0 }
    {
        let number = self.0 % Word::KIND_BASE;
        if number < Word::CONSTRUCTOR {
            return number as usize;
        }
        match Kind::from(number) {
            Kind::Constructor => self.count() as usize,
            Kind::Case => self.payload() as usize + 1,
            Kind::Branch => 1,
            _ => 0,
        }
    }
}

// The end of the item that starts at a position, in any slice of so many words, also in a part of a term: a type for these would ask more of who calls it.
pub fn extent(ws: &[u32], at: usize) -> usize
    requires { length ws.now ≤ workspace_most }
    ensures { result ≡ at + span 1 (drop at ws.now) }
{
    skip(ws, at, 1)
}

// The end of so many items that start at a position: where the walk over the words stops.
pub fn skip(ws: &[u32], at: usize, items: usize) -> usize
    requires { (length ws.now ≤ workspace_most) × (items ≤ payload_bound) }
    ensures { result ≡ at + span items (drop at ws.now) }
{
    let mut pending = items;
    for i in at..ws.len() {
        if pending == 0 {
            return i;
        }
        pending = Word(ws[i]).arity() + (pending - 1);
    }
    at.max(ws.len())
}

// Zeros from a position to the end.
pub fn clear(ws: &mut [u32], from: usize)
    requires { from ≤ length ws.old }
    ensures { ws.new ≡ take from ws.old ++ replicate (length ws.old - from) 0 }
{
    ws[from..].fill(0);
}

// Does nothing. Its contract says that each constant is the number that the calculus gives its name.
fn constants()
    ensures variable { Word.VARIABLE ≡ variable_kind }
    ensures abstraction { Word.ABSTRACTION ≡ abstraction_kind }
    ensures application { Word.APPLICATION ≡ application_kind }
    ensures constructor { Word.CONSTRUCTOR ≡ constructor_kind }
    ensures case { Word.CASE ≡ case_kind }
    ensures branch { Word.BRANCH ≡ branch_kind }
    ensures numeral { Word.NUMERAL ≡ numeral_kind }
    ensures kind_base { Word.KIND_BASE ≡ kind_base }
    ensures count_base { Word.COUNT_BASE ≡ count_base }
    ensures workspace_least { Word.WORKSPACE_LEAST ≡ workspace_least }
    ensures workspace_most { Word.WORKSPACE_MOST ≡ workspace_most }
    ensures library_words { Word.LIBRARY_WORDS ≡ library_words }
    ensures tag_most { Word.TAG_MOST ≡ tag_limit }
    ensures arguments_most { Word.ARGUMENTS_MOST ≡ argument_limit }
    ensures branches_most { Word.BRANCHES_MOST ≡ branch_limit }
    ensures free_most { Word.FREE_MOST ≡ free_limit }
    ensures numeral_most { Word.NUMERAL_MOST ≡ numeral_limit }
    ensures index_most { Word.INDEX_MOST ≡ index_limit }
{}
