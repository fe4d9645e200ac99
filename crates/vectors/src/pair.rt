// Vectors of presses and showings: a pair of workspaces, and what is done with them, one call after the other.
//
//     pair C left right CALL ..
//
// Both workspaces have C words (or one C and the other D, written `C,D`): the term's, then junk. The session is fresh at first, or after `total n`
// in front of the calls one that has spent n. A call is one of
//
//     press budget VERDICT spent left right         the answer with position 0, and the terms' words afterwards
//     press budget VERDICT spent at n left right    the same with position n
//     press budget Refused number                   a refusal, which changes nothing
//     show words                                    the part that is handed back
//
// and gets the terms' lengths, and a scratch of C words, unless `left n`, `right n` or `scratch n` stand in front of it, in this order. After a press
// the session and every word of both workspaces and the scratch are compared too.
ghost use Rattle.std.specs.Prelude.{◌≡◌, ℕ, length};
ghost use Rattle.turn.specs.Types.{verdict_of};
ghost use Rattle.press.specs.Types.{session_of, answer_of, pressed_of};
ghost use Rattle.vectors.specs.Answers.{is_session, is_shown, is_refused};
ghost use Rattle.vectors.specs.Pair.{room, junk, only_if, verdict_at, given_of, given_at, lent_read, lent_at, stage_of, refused_after, counted_after, checked};
ghost use Rattle.vectors.specs.Pair.{stepped_of, press_step, shown_after, stepped, ended_of, steps_from, opened_at, pair_run, pair_holds};

use press::answer::{Answer, Pressed};
use press::show;
use press::state::Session;
use session::press_owned;
use turn::Verdict;
use vector_text::Reader;
use vector_text::lent::{filled, lent};
use words::Word;

// One word more than a workspace may have.
pub const ROOM: usize = Word::WORKSPACE_MOST + 1;

// What lies beyond a term, and in a scratch, before a call: no word of a term.
pub const JUNK: u32 = 7;

// Between two calls.
#[derive(Clone, Copy)]
pub struct State {
    // Where the line has the words of both terms, their lengths, and what lies beyond them in their workspaces.
    pub terms: usize,
    pub left: usize,
    pub right: usize,
    pub tail: u32,
    pub session: Session,
}

// The lengths that a call gets, and its scratch's.
#[derive(Clone, Copy)]
pub struct Given {
    pub left: usize,
    pub right: usize,
    pub scratch: usize,
}

// What lies in both workspaces and the scratch beside what should: whether it is that, and the lengths of the terms, which count where it is not, too.
#[derive(Clone, Copy)]
pub struct Lent {
    pub equal: bool,
    pub left: usize,
    pub right: usize,
}

// Reading goes on after a test that passed. A reader that is lent by `&mut` goes on, and each contract says where, and that its line stays; where none goes on it is taken by value.
fn go_on_if(reader: &mut Reader<'_>, passed: bool)
    ensures { reader.new ≡ record reader.old { at = only_if passed reader.old.at } }
{
    if !passed {
        reader.stop();
    }
}

// Whether a session has this total, these lengths and this verdict.
fn is_session(session: Session, total: u64, left: usize, right: usize, verdict: Verdict) -> bool
    ensures { result ≡ is_session (session_of session) total left right (verdict_of verdict) }
{
    (u64::from(session.total) == total)
        & (session.left == left)
        & (session.right == right)
        & (session.verdict == verdict)
}

// Whether an answer is this verdict with these numbers.
fn shows(
    answer: Answer,
    verdict: Verdict,
    spent: u32,
    left: usize,
    right: usize,
    position: usize,
) -> bool
    ensures { result ≡ is_shown (answer_of answer) (verdict_of verdict) spent left right position }
{
    let Ok(shown) = answer else {
        return false;
    };
    (shown.spent == spent)
        & (shown.left == left)
        & (shown.right == right)
        & (shown.position == position)
        & (shown.verdict == verdict)
}

fn refuses(answer: Answer, number: u32) -> bool
    ensures { result ≡ is_refused (answer_of answer) number }
{
    answer.is_err_and(|refusal| refusal.number() == number)
}

// A chain of tests, as in `passes`: a loop over names and verdicts would want an invariant for what each name before did not match.
#[tactic(auto, unfolding(crate::specs::Pair::verdict_at))]
fn read_verdict(reader: &mut Reader<'_>) -> Verdict
    ensures verdict { result ≡ (verdict_at reader.old.line.now reader.old.at).verdict }
    ensures next { reader.new ≡ record reader.old { at = (verdict_at reader.old.line.now reader.old.at).next } }
{
    if reader.take(b"Same") {
        return Verdict::Same;
    }
    if reader.take(b"Different") {
        return Verdict::Different;
    }
    if reader.take(b"Budget") {
        return Verdict::Budget;
    }
    reader.expect(b"Full");
    Verdict::Full
}

// `left n`, `right n` and `scratch n`
#[tactic(auto, unfolding(crate::specs::Pair::given_at))]
fn read_given(reader: &mut Reader<'_>, left: usize, right: usize, scratch: usize) -> Given
    ensures given { given_of result reader.new.at ≡ given_at reader.old.line.now reader.old.at left right scratch }
    ensures line { reader.new.line ≡ reader.old.line }
{
    let left = reader.setting(b"left", left);
    let right = reader.setting(b"right", right);
    let scratch = reader.setting(b"scratch", scratch);
    Given {
        left,
        right,
        scratch,
    }
}

// Both workspaces beside the words that come next, with a tail, and the scratch beside equal words. The workspaces stay apart, as a press takes them.
#[tactic(auto, unfolding(crate::specs::Pair::lent_at))]
fn compare_lent(
    reader: &mut Reader<'_>,
    left: &[u32],
    right: &[u32],
    tail: u32,
    scratch: &[u32],
    word: u32,
) -> Lent
    ensures lent { lent_read result reader.new.at ≡ lent_at reader.old.line.now reader.old.at left.now right.now tail scratch.now word }
    ensures line { reader.new.line ≡ reader.old.line }
{
    let left = reader.compare(left, tail);
    let right = reader.compare(right, tail);
    Lent {
        equal: left.equal & right.equal & filled(scratch, word),
        left: left.count,
        right: right.count,
    }
}

// After a press that should be refused with the number that comes next: all is as before.
#[tactic(auto, unfolding(crate::specs::Pair::refused_after))]
fn check_refused(reader: &mut Reader<'_>, lent: Lent, pressed: Pressed, state: State)
    ensures stage { (at next : ℕ) → stage_of reader.new.at state ≡ refused_after reader.old.line.now reader.old.at (lent_read lent next) (answer_of pressed.answer) (session_of pressed.session) (stage_of at state) }
    ensures line { reader.new.line ≡ reader.old.line }
{
    let old = state.session;
    let kept = is_session(
        pressed.session,
        u64::from(old.total),
        old.left,
        old.right,
        old.verdict,
    );
    let number = reader.number();
    go_on_if(reader, lent.equal & kept & refuses(pressed.answer, number));
}

// After a press that should answer this verdict, with a number spent, a position and terms that stand at `terms`.
#[tactic(auto, unfolding(crate::specs::Pair::counted_after))]
fn check_counted(
    reader: &mut Reader<'_>,
    verdict: Verdict,
    spent: u32,
    position: usize,
    terms: usize,
    lent: Lent,
    pressed: Pressed,
    state: State,
) -> State
    ensures stage { (at : ℕ) → stage_of reader.new.at result ≡ counted_after (verdict_of verdict) spent position terms (lent_read lent reader.old.at) (answer_of pressed.answer) (session_of pressed.session) (stage_of at state) }
    ensures line { reader.new.line ≡ reader.old.line }
{
    let session = pressed.session;
    let total = u64::from(state.session.total) + u64::from(spent);
    let renewed = is_session(session, total, lent.left, lent.right, verdict);
    let shown = shows(
        pressed.answer,
        verdict,
        spent,
        lent.left,
        lent.right,
        position,
    );
    go_on_if(reader, lent.equal & renewed & shown);
    State {
        terms,
        left: lent.left,
        right: lent.right,
        tail: 0,
        session,
    }
}

// After a press: the expected answer, and the words in both workspaces and the scratch.
#[tactic(auto, unfolding(crate::specs::Pair::checked))]
fn check_press(
    reader: &mut Reader<'_>,
    left: &[u32],
    right: &[u32],
    scratch: &[u32],
    pressed: Pressed,
    state: State,
) -> State
    ensures stage { (at : ℕ) → stage_of reader.new.at result ≡ checked reader.old.line.now reader.old.at (pressed_of pressed left.now right.now scratch.now) (stage_of at state) }
    ensures line { reader.new.line ≡ reader.old.line }
{
    if reader.take(b"Refused") {
        let mut terms = Reader {
            at: state.terms,
            ..*reader
        };
        let lent = compare_lent(&mut terms, left, right, state.tail, scratch, JUNK);
        check_refused(reader, lent, pressed, state);
        return state;
    }
    let verdict = read_verdict(reader);
    let spent = reader.number();
    let position = reader.setting(b"at", 0);
    let terms = reader.at;
    let lent = compare_lent(reader, left, right, 0, scratch, 0);
    check_counted(
        reader, verdict, spent, position, terms, lent, pressed, state,
    )
}

// `press budget` and the expected answer, with a scratch of junk.
fn press_step(
    reader: &mut Reader<'_>,
    given: Given,
    left: &mut [u32],
    right: &mut [u32],
    state: State,
) -> State
    ensures stage { (at : ℕ) → stepped_of (stage_of reader.new.at result) left.new right.new ≡ press_step reader.old.line.now (given_of given reader.old.at) left.old right.old (stage_of at state) }
    ensures line { reader.new.line ≡ reader.old.line }
{
    let mut scratch = [JUNK; ROOM];
    let n = lent(given.scratch, ROOM);
    reader.expect(b"press");
    let budget = reader.number();
    let session = state.session;
    let pressed = press_owned(
        left,
        right,
        &mut scratch[..n],
        given.left,
        given.right,
        budget,
        session,
    );
    check_press(reader, left, right, &scratch[..n], pressed, state)
}

// The part that comes next is shown.
#[tactic(auto, unfolding(crate::specs::Pair::shown_after))]
fn show_step(reader: &mut Reader<'_>, left: &[u32], right: &[u32], given: Given)
    ensures { reader.new ≡ record reader.old { at = shown_after reader.old.line.now reader.old.at left.now right.now given.left given.right } }
{
    let part = show(left, right, given.left, given.right);
    let shown = reader.compare(part, 0);
    go_on_if(reader, shown.equal & (shown.count == part.len()));
}

// A call with what stands in front of it.
#[tactic(auto, unfolding(crate::specs::Pair::stepped))]
fn step(reader: &mut Reader<'_>, left: &mut [u32], right: &mut [u32], state: State) -> State
    ensures stage { stepped_of (stage_of reader.new.at result) left.new right.new ≡ stepped reader.old.line.now (stepped_of (stage_of reader.old.at state) left.old right.old) }
    ensures line { reader.new.line ≡ reader.old.line }
{
    let given = read_given(reader, state.left, state.right, left.len());
    if !reader.take(b"show") {
        return press_step(reader, given, left, right, state);
    }
    show_step(reader, left, right, given);
    state
}

// Whether every call goes as the line says, to the line's end.
fn steps(mut reader: Reader<'_>, left: &mut [u32], right: &mut [u32], start: State) -> bool
    ensures { ended_of result left.new right.new ≡ steps_from (length reader.entry.line.now) reader.entry.line.now (stepped_of (stage_of reader.entry.at start) left.old right.old) }
{
    let mut state = start;
    // As many turns as the line has bytes, as `steps_from` counts them: each goes on by a byte or more.
    for _ in 0..reader.line.len() {
        state = step(&mut reader, left, right, state);
        if reader.line.len() <= reader.at {
            return reader.ends();
        }
    }
    false
}

// The fresh session, or after `total` one that has spent the number and has lengths of no term.
#[tactic(auto, unfolding(crate::specs::Pair::opened_at))]
fn read_session(reader: &mut Reader<'_>) -> Session
    ensures session { session_of result ≡ (opened_at reader.old.line.now reader.old.at).session }
    ensures next { reader.new ≡ record reader.old { at = (opened_at reader.old.line.now reader.old.at).next } }
{
    if !reader.take(b"total") {
        return Session::fresh();
    }
    Session {
        total: reader.number(),
        left: ROOM,
        right: ROOM,
        verdict: Verdict::Full,
    }
}

// The two terms, the session and the calls.
#[tactic(auto, unfolding(crate::specs::Pair::pair_run))]
fn run(mut reader: Reader<'_>, left: &mut [u32], right: &mut [u32]) -> bool
    ensures { ended_of result left.new right.new ≡ pair_run reader.entry.line.now reader.entry.at left.old right.old }
{
    let terms = reader.at;
    let left_length = reader.list(left);
    let right_length = reader.list(right);
    let session = read_session(&mut reader);
    let state = State {
        terms,
        left: left_length,
        right: right_length,
        tail: JUNK,
        session,
    };
    steps(reader, left, right, state)
}

// Whether a line is right, from its sizes on.
pub fn pair_holds(mut reader: Reader<'_>) -> bool
    ensures { result ≡ pair_holds reader.entry.line.now reader.entry.at }
{
    let mut left = [JUNK; ROOM];
    let mut right = [JUNK; ROOM];
    let c = reader.number();
    let d = reader.setting(b",", c as usize);
    let l = lent(c as usize, ROOM);
    let r = lent(d, ROOM);
    run(reader, &mut left[..l], &mut right[..r])
}

// Does nothing. Its contract says that each constant is the number that the definitions give its name.
fn constants()
    ensures room { ROOM ≡ room }
    ensures junk { JUNK ≡ junk }
{}
