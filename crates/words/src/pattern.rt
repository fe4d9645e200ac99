// Tags, and the payloads of constructors and branches.
ghost use Rattle.std.specs.Prelude.{◌≡◌};
ghost use Rattle.calculus.specs.Term.{is_default};
ghost use Rattle.calculus.specs.Words.{tag_of, count_of};
ghost use Rattle.calculus.specs.Pattern.{is_tag, is_tagged, is_pattern};

use crate::Word;

pub fn is_tag(tag: u32) -> bool
    ensures { result ≡ is_tag tag }
{
    (1..=Word::TAG_MOST).contains(&tag)
}

// Whether a constructor may have this payload: a tag and a number of arguments.
pub fn is_tagged(payload: u32) -> bool
    ensures { result ≡ is_tagged (tag_of payload) (count_of payload) }
{
    is_tag(payload / Word::COUNT_BASE) && payload % Word::COUNT_BASE <= Word::ARGUMENTS_MOST
}

// Whether a branch of this payload is the default.
pub fn is_default(payload: u32) -> bool
    ensures { result ≡ is_default (tag_of payload) (count_of payload) }
{
    payload == 0
}

// Whether a branch may have this payload: the default's, or a tag and a bound count.
pub fn is_pattern(payload: u32) -> bool
    ensures { result ≡ is_pattern (tag_of payload) (count_of payload) }
{
    is_default(payload) || is_tagged(payload)
}
