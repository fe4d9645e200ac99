// One walk over the words of a term: the scopes that it keeps, and the moves of an index that it meets.
#![tactic(auto)]

pub mod index;
pub mod scope;
