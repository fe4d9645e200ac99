// The line that the verdict program prints.
#![tactic(auto)]

ghost use Rattle.std.specs.Prelude.{◌≡◌, ◌≤◌, ◌+◌, length};
ghost use Rattle.turn.specs.Types.{verdict_of};
ghost use Rattle.rounds.specs.Types.{shown_of};
ghost use Rattle.verdict_text.specs.Line.{name_of, position_field, line_bytes, printed_most, refuses, shows};
ghost use Rattle.verdict_text.specs.Types.{printed_line};
ghost use Rattle.words.specs.Placed.{Placed};

use rounds::Shown;
use text::decimal::{DIGITS_MOST, put_bytes, put_end, put_field};
use turn::Verdict;

// The bytes of the longest verdict, `Different`.
const VERDICT_MOST: usize = 9;

// The most bytes of a line: a verdict, four numbers behind a space, and the newline.
pub const PRINTED_MOST: usize = VERDICT_MOST + 4 * (1 + DIGITS_MOST) + 1;

// Three cases, so neither an Option nor a Result.
#[derive(Clone, Copy)]
pub enum Line {
    Input,
    // A number: `put_line` prints any, and would ask more of its callers if it took a refusal alone.
    Refuses(u32),
    Shows(Shown),
}

// The name of a verdict.
fn put_verdict(verdict: Verdict, out: &mut [u8], at: usize) -> usize
    requires { at + length (name_of (verdict_of verdict)) ≤ length out.old }
    ensures { Placed out.old at (name_of (verdict_of verdict)) out.new result }
{
    let name: &[u8] = match verdict {
        Verdict::Same => b"Same",
        Verdict::Different => b"Different",
        Verdict::Budget => b"Budget",
        Verdict::Full => b"Full",
    };
    put_bytes(name, out, at)
}

fn put_refusal(number: u32, out: &mut [u8]) -> usize
    requires { length (line_bytes (refuses number)) ≤ length out.old }
    ensures { Placed out.old 0 (line_bytes (refuses number)) out.new result }
{
    let name = put_bytes(b"Refused", out, 0);
    let field = put_field(number as usize, out, name);
    put_end(out, field)
}

// The position behind a space, with Different only.
fn put_position(verdict: Verdict, position: usize, out: &mut [u8], at: usize) -> usize
    requires { at + length (position_field (verdict_of verdict) position) ≤ length out.old }
    ensures { Placed out.old at (position_field (verdict_of verdict) position) out.new result }
{
    match verdict {
        Verdict::Different => put_field(position, out, at),
        Verdict::Same | Verdict::Budget | Verdict::Full => at,
    }
}

fn put_answer(shown: Shown, out: &mut [u8]) -> usize
    requires { length (line_bytes (shows (shown_of shown))) ≤ length out.old }
    ensures { Placed out.old 0 (line_bytes (shows (shown_of shown))) out.new result }
{
    let verdict = shown.verdict;
    let name = put_verdict(verdict, out, 0);
    let first = put_field(shown.spent as usize, out, name);
    let second = put_field(shown.left, out, first);
    let third = put_field(shown.right, out, second);
    let fourth = put_position(verdict, shown.position, out, third);
    put_end(out, fourth)
}

// The bytes of a line at the start of `out`, and their number.
pub fn put_line(line: Line, out: &mut [u8]) -> usize
    requires { length (line_bytes (printed_line line)) ≤ length out.old }
    ensures { Placed out.old 0 (line_bytes (printed_line line)) out.new result }
{
    match line {
        Line::Input => put_bytes(b"Input\n", out, 0),
        Line::Refuses(number) => put_refusal(number, out),
        Line::Shows(shown) => put_answer(shown, out),
    }
}

// Does nothing. Its contract says that the constant is the number that the definitions give its name.
fn constants()
    ensures { PRINTED_MOST ≡ printed_most }
{}
