// Reading a vector's line: keywords, numbers and lists of words, each behind at most one space. Where what is wanted does not come next, reading goes
// on nowhere: no later read finds anything, and the vector fails.
#![tactic(auto)]

pub mod lent;

ghost use Rattle.std.specs.Prelude.{◌≡◌, ◌≤◌, ◌-◌, length, not, cond, eqb};
ghost use Rattle.vector_text.specs.Text.{nowhere, past_space, after, number_read, number_of, number_at, setting_at};
ghost use Rattle.vector_text.specs.Lists.{list_most, item_at, listed_of, with_more, list_at, compared_at};

use lent::holds;
use records::Form;
use words::Word;
use words::slices::fill;

// Beyond every line. A number like every other place: it is the definitions' `nowhere`, which they read on from, and
// `ReadExamples` is about.
const NOWHERE: usize = usize::MAX;

// A line, and where it is read on: nowhere once what was wanted did not come next.
#[derive(Clone, Copy)]
pub struct Reader<'a> {
    pub line: &'a [u8],
    pub at: usize,
}

// Lent words beside the list that comes next: whether they are the list's and then a tail of equal words, and how many the list has,
// which counts where they are not, too.
#[derive(Clone, Copy)]
pub struct Compared {
    pub equal: bool,
    pub count: usize,
}

// The words of the longest list that is compared: a table one record longer than the largest.
pub const LIST_MOST: usize = Form::ONE_WORDS * (Word::WORKSPACE_MOST + 2);

// The number whose digits stand from `from` to `end`, and where reading goes on.
fn number_read(value: u64, from: usize, end: usize) -> Option<(u32, usize)>
    ensures { number_of result ≡ number_read value from end }
{
    if end == from {
        return None;
    }
    Some((u32::try_from(value).ok()?, end))
}

impl<'a> Reader<'a> {
    // Whether the line ends here.
    pub fn ends(&self) -> bool
        ensures { result ≡ eqb self.now.at (length self.now.line.now) }
    {
        self.at == self.line.len()
    }

    // Nothing more is found.
    pub fn stop(&mut self)
        ensures { self.new ≡ record self.old { at = nowhere } }
    {
        self.at = NOWHERE;
    }

    // Behind the space that stands here, if one does.
    fn past_space(&self) -> usize
        requires { self.now.at ≤ length self.now.line.now }
        ensures { (result ≡ past_space self.now.line.now self.now.at) × (result ≤ length self.now.line.now) }
    {
        match self.line.get(self.at) {
            Some(b' ') => self.at + 1,
            _ => self.at,
        }
    }

    // Where reading goes on if this keyword comes next.
    fn after(&self, keyword: &[u8]) -> usize
        ensures { result ≡ after self.now.line.now self.now.at keyword.now }
    {
        if self.line.len() < self.at {
            return NOWHERE;
        }
        let from = self.past_space();
        if self.line[from..].starts_with(keyword) {
            return from + keyword.len();
        }
        NOWHERE
    }

    // Goes on behind this keyword, which should come next.
    pub fn expect(&mut self, keyword: &[u8])
        ensures { self.new ≡ record self.old { at = after self.old.line.now self.old.at keyword.now } }
    {
        self.at = self.after(keyword);
    }

    // Whether this keyword comes next: reading goes on behind it, and else where it was.
    pub fn take(&mut self, keyword: &[u8]) -> bool
        ensures found { eqb (after self.old.line.now self.old.at keyword.now) nowhere ≡ not result }
        ensures next { self.new ≡ record self.old { at = cond result (after self.old.line.now self.old.at keyword.now) self.old.at } }
    {
        let from = self.after(keyword);
        if from == NOWHERE {
            return false;
        }
        self.at = from;
        true
    }

    // The number that comes next, and where reading goes on behind it.
    fn number_ahead(&self) -> Option<(u32, usize)>
        ensures { number_of result ≡ number_at self.now.line.now self.now.at }
    {
        if self.line.len() < self.at {
            return None;
        }
        let from = self.past_space();
        let mut value: u64 = 0;
        let mut end = from;
        for byte in &self.line[from..] {
            if !byte.is_ascii_digit() {
                return number_read(value, from, end);
            }
            if value > u64::from(u32::MAX) {
                return number_read(value, from, end);
            }
            value = value * 10 + u64::from(*byte - b'0');
            end += 1;
        }
        number_read(value, from, end)
    }

    // A number of 32 bits in base ten.
    pub fn number(&mut self) -> u32
        ensures value { result ≡ (number_at self.old.line.now self.old.at).value }
        ensures next { self.new ≡ record self.old { at = (number_at self.old.line.now self.old.at).next } }
    {
        let (value, next) = self.number_ahead().unwrap_or((0, NOWHERE));
        self.at = next;
        value
    }

    // The number behind this keyword if it comes next, and else a number that needs no text.
    #[tactic(auto, unfolding(crate::specs::Text::setting_at))]
    pub fn setting(&mut self, keyword: &[u8], default: usize) -> usize
        ensures value { result ≡ (setting_at self.old.line.now self.old.at keyword.now default).value }
        ensures next { self.new ≡ record self.old { at = (setting_at self.old.line.now self.old.at keyword.now default).next } }
    {
        if self.take(keyword) {
            self.number() as usize
        } else {
            default
        }
    }

    // A word, or `times*word`.
    #[tactic(auto, unfolding(crate::specs::Lists::item_at))]
    fn item(&mut self) -> (usize, u32)
        ensures times { result.0 ≡ (item_at self.old.line.now self.old.at).times }
        ensures word { result.1 ≡ (item_at self.old.line.now self.old.at).word }
        ensures next { self.new ≡ record self.old { at = (item_at self.old.line.now self.old.at).next } }
    {
        let first = self.number();
        if self.take(b"*") {
            (first as usize, self.number())
        } else {
            (1, first)
        }
    }

    // Puts an item more behind the first `count` words, where it fits. Returns how many there are now.
    #[tactic(auto, unfolding(crate::specs::Lists::with_more))]
    fn more(&mut self, count: usize, into: &mut [u32]) -> usize
        ensures listed { listed_of into.new result self.new.at ≡ with_more self.old.line.now (listed_of into.old count self.old.at) }
        ensures line { self.new.line ≡ self.old.line }
    {
        let (times, word) = self.item();
        if into.len() < count || into.len() - count < times {
            self.stop();
            return 0;
        }
        fill(into, count, count + times, word);
        count + times
    }

    // Items with commas between them, into the start of a lent part; `-` for no words. Returns how many words it has.
    #[tactic(auto, unfolding(crate::specs::Lists::list_at))]
    pub fn list(&mut self, into: &mut [u32]) -> usize
        ensures words { into.new ≡ (list_at self.old.line.now self.old.at into.old).words }
        ensures count { result ≡ (list_at self.old.line.now self.old.at into.old).count }
        ensures next { self.new ≡ record self.old { at = (list_at self.old.line.now self.old.at into.old).next } }
    {
        let mut count = 0;
        if self.take(b"-") {
            return count;
        }
        // As many turns as the line has bytes, as `list_at` counts them.
        for _ in 0..self.line.len() {
            count = self.more(count, into);
            if !self.take(b",") {
                break;
            }
        }
        count
    }

    // Words beside the list that comes next and then a tail of equal words.
    #[tactic(auto, unfolding(crate::specs::Lists::compared_at))]
    pub fn compare(&mut self, words: &[u32], tail: u32) -> Compared
        ensures equal { result.equal ≡ (compared_at self.old.line.now self.old.at words.now tail).equal }
        ensures count { result.count ≡ (compared_at self.old.line.now self.old.at words.now tail).count }
        ensures next { self.new ≡ record self.old { at = (compared_at self.old.line.now self.old.at words.now tail).next } }
    {
        let mut expected = [0u32; LIST_MOST];
        let count = self.list(&mut expected);
        let equal = holds(words, &expected, count, tail);
        Compared { equal, count }
    }
}

// Does nothing. Its contract says that each constant is the number that the definitions give its name.
fn constants()
    ensures nowhere { NOWHERE ≡ nowhere }
    ensures list_most { LIST_MOST ≡ list_most }
{}
