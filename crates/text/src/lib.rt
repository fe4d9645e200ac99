// Bytes and text for the programs: words in bytes, and numbers in base ten.
#![tactic(auto)]

ghost use Rattle.std.specs.Prelude.{◌≡◌};
ghost use Rattle.text.specs.Bytes.{word_bytes};
ghost use Rattle.text.specs.Decimal.{digits_most};

use crate::bytes::WORD_BYTES;
use crate::decimal::DIGITS_MOST;

pub mod bytes;
pub mod decimal;

// Does nothing. Its contract says that each constant is the number that the definitions give its name.
fn constants()
    ensures word_bytes_value { WORD_BYTES ≡ word_bytes }
    ensures digits_most_value { DIGITS_MOST ≡ digits_most }
{}
