// The words of the term of a line, found in one pass over its bytes from the last to the first. They fill an array from its end, so that they come out in
// prefix order; the applications of a term are its spaces, and all of these are behind the place where its first item starts.
#![tactic(auto)]

ghost use Rattle.std.specs.Prelude.{◌≡◌, List, ◌++◌, ℕ, ◌≤◌, ◌<◌, ◌-◌, length, take, drop};
ghost use Rattle.words.specs.Room.{Room};
ghost use Rattle.notation.specs.Grammar.{space, opening, closing, backslash, line_most};
ghost use Rattle.notation.specs.Reader.{apply, is_index, lambda, opens, on_begun, settle, on_digit, on_close, step, sign, line_words};
ghost use Rattle.parser.specs.Scan.{state_of, stepped_of, begun_by, begun_of, parsed_of, room_most, Fitting, Within, StepWithin, Ahead, Settled, Stays, WordsStay, Parses};

use words::Word;
use words::kind::Kind;

// The bytes of the notation beside the digits.
const SPACE: u8 = b' ';

const OPENING: u8 = b'(';

const CLOSING: u8 = b')';

const BACKSLASH: u8 = b'\\';

// The most bytes of a line.
pub const LINE_MOST: usize = 1024;

// Each byte of a line adds at most one word or one count; one place more, so that every step may ask for room for one further word.
pub const ROOM: usize = LINE_MOST + 1;

// What is known of an item at a place between two bytes.
#[derive(Clone, Copy)]
pub enum Place {
    // One has to end here.
    Wanted,
    // One starts here.
    Begun,
    // A number goes on: its value so far, and the worth of one more digit in front. It stands last, so that the compiler asks for it last.
    Number { value: u32, worth: u32 },
}

// What is known behind a byte. The words read so far are those of `out` from `at` on; `stack` from `top` on has the spaces of the terms around this one,
// which has `count`.
#[derive(Clone, Copy)]
pub struct Scan {
    pub at: usize,
    pub top: usize,
    pub count: usize,
    pub place: Place,
}

// Whether digits of this value are an index, where one more digit has this worth.
#[tactic(auto, unfolding(notation::specs::Reader::is_index))]
fn is_index(value: u32, worth: u32) -> bool
    ensures { result ≡ is_index value worth }
{
    value <= Word::INDEX_MOST && (worth <= value * 10 || worth == 10)
}

// Puts so many applications in front of the words from `at` on, and returns where they start.
fn put_applications(out: &mut [u32], at: usize, count: usize) -> usize
    requires { (count ≤ at) × (at ≤ length out.old) }
    ensures { (result ≡ at - count) × (out.new ≡ take result out.old ++ apply count (drop at out.old)) }
{
    let start = at - count;
    out[start..at].fill(Word::new(Kind::Application, 0).0);
    start
}

// A digit in front.
#[tactic(auto, unfolding(notation::specs::Reader::on_digit))]
fn on_digit(s: Scan, d: u32) -> Option<Scan>
    requires { (d ≤ 9) × Fitting s.place }
    ensures { ((D R : ℕ) → Within D R s → StepWithin D R result) × ((stack out : List ℕ) → stepped_of result stack out ≡ on_digit d (state_of s stack out)) }
{
    let place = match s.place {
        Place::Wanted => Place::Number {
            value: d,
            worth: 10,
        },
        // Above this worth it is a sixth digit: no index has one.
        Place::Number { value, worth } if worth <= Word::INDEX_MOST => Place::Number {
            value: d * worth + value,
            worth: worth * 10,
        },
        _ => return None,
    };
    Some(Scan { place, ..s })
}

// A closing parenthesis in front.
#[tactic(auto, unfolding(notation::specs::Reader::on_close))]
fn on_closing(s: Scan, stack: &mut [usize]) -> Option<Scan>
    requires { (0 < s.top) × (s.top ≤ length stack.old) }
    ensures steps { ((R : ℕ) → Within (length stack.old) R s → StepWithin (length stack.old) R result) × ((out : List ℕ) → stepped_of result stack.new out ≡ on_close (state_of s stack.old out)) }
    ensures stays { Stays (λ t. t.top) result stack.old stack.new }
{
    let Place::Wanted = s.place else {
        return None;
    };
    let top = s.top - 1;
    stack[top] = s.count;
    Some(Scan { top, count: 0, ..s })
}

// An item has to start here: a number ends.
#[tactic(auto, unfolding(notation::specs::Reader::settle))]
fn settle(s: Scan, out: &mut [u32]) -> Option<Scan>
    requires { (0 < s.at) × (s.at ≤ length out.old) × Fitting s.place }
    ensures settled { Settled (length out.old) s result × ((stack : List ℕ) → begun_of result stack out.new ≡ settle (state_of s stack out.old)) }
    ensures stays { Stays (λ t. t.at) result out.old out.new }
{
    match s.place {
        Place::Begun => Some(s),
        Place::Number { value, worth } if is_index(value, worth) => {
            let at = s.at - 1;
            out[at] = Word::new(Kind::Variable, value).0;
            Some(Scan {
                at,
                place: Place::Begun,
                ..s
            })
        }
        _ => None,
    }
}

// A backslash in front of an item: the term that starts there is whole, and the body of an abstraction.
#[tactic(auto, unfolding(notation::specs::Reader::on_begun))]
fn on_backslash(s: Scan, out: &mut [u32]) -> Option<Scan>
    requires { (s.count < s.at) × (s.at ≤ length out.old) }
    ensures steps { ((D : ℕ) → s.top ≤ D → StepWithin D s.at result) × ((stack : List ℕ) → stepped_of result stack out.new ≡ on_begun lambda (begun_by s stack out.old)) }
    ensures stays { Stays (λ t. t.at) result out.old out.new }
{
    let at = put_applications(out, s.at, s.count) - 1;
    out[at] = Word::new(Kind::Abstraction, 0).0;
    Some(Scan {
        at,
        count: 0,
        place: Place::Begun,
        ..s
    })
}

// An opening parenthesis in front of an item: the term that starts there is whole, and an item of the term around, if there is one.
// All four fields are new.
#[tactic(auto, unfolding(notation::specs::Reader::on_begun, notation::specs::Reader::popped))]
fn on_opening(s: Scan, stack: &[usize], out: &mut [u32]) -> Option<Scan>
    requires { (s.count < s.at) × (s.at ≤ length out.old) × (s.top ≤ length stack.now) }
    ensures steps { StepWithin (length stack.now) s.at result × (stepped_of result stack.now out.new ≡ on_begun opens (begun_by s stack.now out.old)) }
    ensures stays { Stays (λ t. t.at) result out.old out.new }
{
    let top = s.top;
    if top == stack.len() {
        return None;
    }
    let at = put_applications(out, s.at, s.count);
    Some(Scan {
        at,
        top: top + 1,
        count: stack[top],
        place: Place::Begun,
    })
}

// A byte in front of an item.
#[tactic(auto, unfolding(notation::specs::Reader::on_begun, notation::specs::Reader::sign))]
fn begin(b: u8, s: Scan, stack: &[usize], out: &mut [u32]) -> Option<Scan>
    requires { (s.count < s.at) × (s.at ≤ length out.old) × (s.top ≤ length stack.now) }
    ensures steps { StepWithin (length stack.now) s.at result × (stepped_of result stack.now out.new ≡ on_begun (sign b) (begun_by s stack.now out.old)) }
    ensures stays { Stays (λ t. t.at) result out.old out.new }
{
    match b {
        SPACE => Some(Scan {
            count: s.count + 1,
            place: Place::Wanted,
            ..s
        }),
        BACKSLASH => on_backslash(s, out),
        OPENING => on_opening(s, stack, out),
        _ => None,
    }
}

// One byte in front of those that are read. A step is lent what it may change and no more, so the scan and both arrays stay apart, and how they stand to
// one another is a fact of all three. Both arrays are lent to `parse`, whose contract says that they keep their lengths: a stack of its own would not be they.
#[tactic(auto, unfolding(notation::specs::Reader::step, notation::specs::Reader::sign))]
fn on_byte(b: u8, s: Scan, stack: &mut [usize], out: &mut [u32]) -> Option<Scan>
    requires { Within (length stack.old) (length out.old) s × Ahead s }
    ensures steps { StepWithin (length stack.old) (length out.old) result × (stepped_of result stack.new out.new ≡ step (sign b) (state_of s stack.old out.old)) }
    ensures stays { Stays (λ t. t.top) result stack.old stack.new × WordsStay result out.old out.new }
{
    if b.is_ascii_digit() {
        return on_digit(s, u32::from(b - b'0'));
    }
    if b == CLOSING {
        return on_closing(s, stack);
    }
    begin(b, settle(s, out)?, stack, out)
}

// The words of the term of a line: they are `out` from the answered position on. Outside the grammar there is none. What else the arrays hold then is free.
pub fn parse(line: &[u8], stack: &mut [usize], out: &mut [u32]) -> Option<usize>
    requires { Parses line.now stack.old out.old }
    ensures out_after { parsed_of result out.new ≡ line_words line.now }
    ensures room { Room stack.old stack.new × Room out.old out.new }
{
    let mut s = Scan {
        at: ROOM,
        top: ROOM,
        count: 0,
        place: Place::Wanted,
    };
    for b in line.iter().rev() {
        s = on_byte(*b, s, stack, out)?;
    }
    let start = settle(s, out)?;
    if start.top != ROOM {
        return None;
    }
    Some(put_applications(out, start.at, start.count))
}

// Does nothing. Its contract says that each constant is the number that the definitions give its name.
fn constants()
    ensures space_value { SPACE ≡ space }
    ensures opening_value { OPENING ≡ opening }
    ensures closing_value { CLOSING ≡ closing }
    ensures backslash_value { BACKSLASH ≡ backslash }
    ensures line_most_value { LINE_MOST ≡ line_most }
    ensures room_value { ROOM ≡ room_most }
{}
