// What shift and substitution do at a word, kind by kind ("Contraction").
ghost use Rattle.std.specs.Prelude.{◌≡◌};
ghost use Rattle.calculus.specs.Words.{variable_kind, kind_of};
ghost use Rattle.substitution.specs.Kinds.{Visitable, Visits};

use walk::index::{argument, shift_variable};
use words::Word;
use words::kind::Kind;

// What stands for a word, an argument by its place or else a word; how many items follow it, and how many binders stand around these and not around
// the word.
#[derive(Clone, Copy)]
pub struct Visited {
    pub argument: Option<usize>,
    pub word: Word,
    pub items: usize,
    pub binders: u32,
}

// The work at a word under so many binders, where `count` arguments are put for the first free indices and the others move by a distance; without an
// argument it is a shift. The kinds stand in the order of the maker's service notes; a word that is kept comes with its items and the binders around them.
pub fn visit(word: Word, depth: u32, count: usize, distance: i32) -> Visited
    requires { Visitable word.0 depth count distance }
    ensures { Visits word.0 depth count distance result.argument result.word.0 result.items result.binders }
{
    match word.kind() {
        Kind::Application => keep(word, 2, 0),
        Kind::Abstraction => keep(word, 1, 1),
        Kind::Variable => put(word, depth, count, distance),
        Kind::Constructor => keep(word, word.count() as usize, 0),
        Kind::Case => keep(word, word.payload() as usize + 1, 0),
        Kind::Branch => keep(word, 1, word.count()),
        Kind::Numeral => keep(word, 0, 0),
        Kind::Unassigned => keep(word, 0, 0),
    }
}

// The word stays, and what follows it is walked.
fn keep(word: Word, items: usize, binders: u32) -> Visited
    ensures { (result.argument ≡ None) × (result.word.0 ≡ word.0) × (result.items ≡ items) × (result.binders ≡ binders) }
{
    Visited {
        argument: None,
        word,
        items,
        binders,
    }
}

// An argument stands for a variable, or the variable with its index moved if it is free.
fn put(word: Word, depth: u32, count: usize, distance: i32) -> Visited
    requires { Visitable word.0 depth count distance × (kind_of word.0 ≡ variable_kind) }
    ensures { Visits word.0 depth count distance result.argument result.word.0 result.items result.binders }
{
    match argument(word, depth, count) {
        Some(place) => Visited {
            argument: Some(place),
            word,
            items: 0,
            binders: 0,
        },
        None => keep(shift_variable(word, depth, distance), 0, 0),
    }
}
