// The kinds of words by name, each with the number that `Word` gives it.
ghost use Rattle.std.specs.Prelude.{◌≡◌};
ghost use Rattle.words.specs.Types.{kind_for};

use crate::Word;

#[derive(Clone, Copy, PartialEq, Eq)]
pub enum Kind {
    Variable = Word::VARIABLE as isize,
    Abstraction = Word::ABSTRACTION as isize,
    Application = Word::APPLICATION as isize,
    Constructor = Word::CONSTRUCTOR as isize,
    Case = Word::CASE as isize,
    Branch = Word::BRANCH as isize,
    Numeral = Word::NUMERAL as isize,
    // No kind's number, which every number above the kinds' is taken for. It is no missing kind: `Word::new` makes a word of it too.
    Unassigned,
}

impl From<u32> for Kind {
    ghost from_gives = { λ number kind. kind ≡ kind_for number };

    // Tested in this order the kinds cost less than a jump by a table of all, and where a `match` goes over the names the compiler takes each test
    // straight to its arm.
    fn from(number: u32) -> Self {
        if number == Word::VARIABLE {
            return Kind::Variable;
        }
        if number < Word::CONSTRUCTOR {
            if number == Word::ABSTRACTION {
                return Kind::Abstraction;
            }
            return Kind::Application;
        }
        match number {
            Word::CONSTRUCTOR => Kind::Constructor,
            Word::CASE => Kind::Case,
            Word::BRANCH => Kind::Branch,
            Word::NUMERAL => Kind::Numeral,
            _ => Kind::Unassigned,
        }
    }
}
