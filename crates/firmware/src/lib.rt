// The unit's calls for C: only numbers, slices of numbers and lent numbers are passed. A call returns 0, or the number of its refusal, which changes nothing that
// was lent; showing returns the side that is shown.
#![tactic(auto)]

ghost use Rattle.std.specs.Prelude.{◌≡◌, ◌≤◌};
ghost use Rattle.calculus.specs.Words.{workspace_most};
ghost use Rattle.claim.specs.State.{fresh};
ghost use Rattle.words.specs.Types.{result_of};
ghost use Rattle.rounds.specs.Types.{shown_of};
ghost use Rattle.press.specs.Types.{session_of, call_of};
ghost use Rattle.claim.specs.Showing.{show};
ghost use Rattle.storage.specs.Load.{load};
ghost use Rattle.storage.specs.Write.{write};
ghost use Rattle.notation.specs.Reading.{read_line};
ghost use Rattle.encoding.specs.Import.{import};
ghost use Rattle.encoding.specs.Export.{export};
ghost use Rattle.firmware.specs.Numbers.{session_words, answer_words};
ghost use Rattle.firmware.specs.Calls.{count_seen, brought_seen, written_seen, exported_seen, press_seen, part_seen};

use press::state::Session;
use press::{show, shows_right};
use rounds::Shown;
use session::press;
use words::refusal::Refusal;

// What a call returns that is not refused, and the sides: numbers, as C reads them.
const UNREFUSED: u32 = 0;

const LEFT: u32 = 0;

const RIGHT: u32 = 1;

// How many words a session and an answer are.
const SESSION_SIZE: usize = 4;

const ANSWER_SIZE: usize = 5;

// Stores what a call returned; a refusal leaves the count.
fn store(answer: Result<usize, Refusal>, count: &mut usize) -> u32
    ensures { (result, count.new) ≡ count_seen count.old (result_of answer) }
{
    match answer {
        Err(why) => why.number(),
        Ok(returned) => {
            *count = returned;
            UNREFUSED
        }
    }
}

#[unsafe(no_mangle)]
pub extern "C" fn fetsguin_load(table: &[u32], workspace: &mut [u32], length: &mut usize) -> u32
    ensures { ((result, length.new), workspace.new) ≡ brought_seen length.old (load table.now workspace.old) }
{
    store(tables::load(table, workspace), length)
}

#[unsafe(no_mangle)]
pub extern "C" fn fetsguin_read_line(line: &[u8], workspace: &mut [u32], length: &mut usize) -> u32
    ensures { ((result, length.new), workspace.new) ≡ brought_seen length.old (read_line line.now workspace.old) }
{
    store(lines::read_line(line, workspace), length)
}

#[unsafe(no_mangle)]
pub extern "C" fn fetsguin_import(
    encoding: &[u8],
    bits: usize,
    workspace: &mut [u32],
    length: &mut usize,
) -> u32
    ensures { ((result, length.new), workspace.new) ≡ brought_seen length.old (import encoding.now bits workspace.old) }
{
    store(binary::import(encoding, bits, workspace), length)
}

#[unsafe(no_mangle)]
pub extern "C" fn fetsguin_write(
    workspace: &[u32],
    length: usize,
    table: &mut [u32],
    records: &mut usize,
) -> u32
    ensures { ((result, records.new), table.new) ≡ written_seen records.old (write workspace.now length table.old) }
{
    store(tables::write(workspace, length, table), records)
}

#[unsafe(no_mangle)]
pub extern "C" fn fetsguin_export(
    workspace: &[u32],
    length: usize,
    encoding: &mut [u8],
    bits: &mut usize,
) -> u32
    ensures { ((result, bits.new), encoding.new) ≡ exported_seen bits.old (export workspace.now length encoding.old) }
{
    store(binary::export(workspace, length, encoding), bits)
}

// No `From`: the types are not this crate's, and only lengths within a workspace fit a word.
fn session_words(session: Session) -> [u32; SESSION_SIZE]
    requires { (session.left ≤ workspace_most) × (session.right ≤ workspace_most) }
    ensures { result ≡ session_words (session_of session) }
{
    [
        session.total,
        session.left as u32,
        session.right as u32,
        session.verdict.number(),
    ]
}

fn answer_words(shown: Shown) -> [u32; ANSWER_SIZE]
    requires { (shown.left ≤ workspace_most) × ((shown.right ≤ workspace_most) × (shown.position ≤ workspace_most)) }
    ensures { result ≡ answer_words (shown_of shown) }
{
    [
        shown.verdict.number(),
        shown.spent,
        shown.left as u32,
        shown.right as u32,
        shown.position as u32,
    ]
}

#[unsafe(no_mangle)]
pub extern "C" fn fetsguin_fresh(session: &mut [u32; SESSION_SIZE])
    ensures { session.new ≡ session_words fresh }
{
    *session = session_words(Session::fresh());
}

#[unsafe(no_mangle)]
pub extern "C" fn fetsguin_press(
    left: &mut [u32],
    right: &mut [u32],
    scratch: &mut [u32],
    left_length: usize,
    right_length: usize,
    budget: u32,
    session: &mut [u32; SESSION_SIZE],
    answer: &mut [u32; ANSWER_SIZE],
) -> u32
    ensures { ((result, session.new, answer.new), left.new, right.new, scratch.new)
        ≡ press_seen session.old answer.old left.old right.old (call_of scratch.old left_length right_length budget) }
{
    // Of a session a press reads only the total.
    let mut renewed = Session {
        total: session[0],
        ..Session::fresh()
    };
    match press(
        left,
        right,
        scratch,
        left_length,
        right_length,
        budget,
        &mut renewed,
    ) {
        Err(refusal) => refusal.number(),
        Ok(shown) => {
            *session = session_words(renewed);
            *answer = answer_words(shown);
            UNREFUSED
        }
    }
}

#[unsafe(no_mangle)]
pub extern "C" fn fetsguin_show<'a>(
    left: &'a [u32],
    right: &'a [u32],
    left_length: usize,
    right_length: usize,
    count: &mut usize,
) -> u32
    ensures { (result, count.new) ≡ part_seen (show left.now right.now left_length right_length) }
{
    let part = show(left, right, left_length, right_length);
    *count = part.len();
    if part.len() == 0 {
        return LEFT;
    }
    if shows_right(left_length, right_length) {
        return RIGHT;
    }
    LEFT
}
