// What a request comes to: left is loaded, then right, then one press with a fresh session.
ghost use Rattle.std.specs.Prelude.{◌≡◌, min};
ghost use Rattle.std.proofs.Math.Option.{some};
ghost use Rattle.press.specs.Types.{answer_of};
ghost use Rattle.storage.specs.Load.{load};
ghost use Rattle.words.specs.Types.{brought_of};
ghost use Rattle.request.specs.Request.{request};
ghost use Rattle.request.specs.Parse.{words_of_table, Stands};
ghost use Rattle.verdict_text.specs.Types.{printed_line};
ghost use Rattle.verdict_line.specs.Line.{line_of, judged};
ghost use Rattle.verdict_line.specs.Judge.{lent_most, request_for};

use press::answer::Answer;
use press::state::Session;
use request::{Request, TABLE_MOST, Table, parse};
use session::press_owned;
use text::bytes::words_from;
use verdict_text::Line;
use words::Word;
use words::refusal::Refusal;

// A workspace is lent by so many words at most, one above its limit, so that loading itself refuses it.
pub const LENT_MOST: usize = Word::WORKSPACE_MOST + 1;

// How many words of a workspace of c words are lent.
pub fn lent(c: u32) -> usize
    ensures { result ≡ min c lent_most }
{
    (c as usize).min(LENT_MOST)
}

// Loads the table that stands in the bytes.
pub fn load_from(bytes: &[u8], table: Table, workspace: &mut [u32]) -> Result<usize, Refusal>
    requires { Stands bytes.now table }
    ensures { brought_of result workspace.new ≡ load (words_of_table bytes.now table) workspace.old }
{
    let mut words = [0u32; TABLE_MOST];
    let words = &mut words[..table.words];
    words_from(bytes, table.at, words);
    tables::load(words, workspace)
}

// What a press answers, as a line.
fn line_of(answer: Answer) -> Line
    ensures { printed_line result ≡ line_of (answer_of answer) }
{
    match answer {
        Ok(shown) => Line::Shows(shown),
        Err(refusal) => Line::Refuses(refusal.number()),
    }
}

// What a request is answered: left is loaded, then right, then one press with a fresh session.
fn judge_with(bytes: &[u8], request: Request) -> Answer
    requires { Stands bytes.now request.left × Stands bytes.now request.right }
    ensures { line_of (answer_of result) ≡ judged (some (request_for bytes.now request.budget request.c request.left request.right)) }
{
    let n = lent(request.c);
    let mut left = [0u32; LENT_MOST];
    let mut right = [0u32; LENT_MOST];
    let mut scratch = [0u32; LENT_MOST];
    let l = load_from(bytes, request.left, &mut left[..n])?;
    let r = load_from(bytes, request.right, &mut right[..n])?;
    let pressed = press_owned(
        &mut left[..n],
        &mut right[..n],
        &mut scratch[..n],
        l,
        r,
        request.budget,
        Session::fresh(),
    );
    pressed.answer
}

// What is printed for the bytes.
pub fn judge(bytes: &[u8]) -> Line
    ensures { printed_line result ≡ judged (request bytes.now) }
{
    match parse(bytes) {
        Some(request) => line_of(judge_with(bytes, request)),
        None => Line::Input,
    }
}
