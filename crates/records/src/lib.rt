// Records of a stored table by value ("The stored table"), the forms in which their words are kept, and the refusals that are about header and records.
#![tactic(auto)]

ghost use Rattle.std.specs.Prelude.{◌≡◌, ◌+◌, ◌*◌, ◌^◌, ◌<◌, length, get_or};
ghost use Rattle.std.proofs.lemmas.List.Edits.{sets};
ghost use Rattle.calculus.specs.Words.{tag_of};
ghost use Rattle.storage.specs.Children.{is_branch};
ghost use Rattle.storage.specs.Records.{record_at, form1, in_form1};
ghost use Rattle.records.specs.Preconditions.{Inside, Puttable};
ghost use Rattle.records.specs.Types.{form_of, stored, stored_of, viewed_of, record_of};

use chain::Chain;
use std::ops::Range;
use words::Word;
use words::slices::copy;

mod chain;
pub mod children;
pub mod header;
pub mod links;
pub mod payload;
pub mod values;

// A second form is a second arm where a form is matched.
#[derive(Clone, Copy)]
pub enum Form {
    One,
}

impl Form {
    // The number of form 1, which its header starts with, and the words of a record in it.
    pub const ONE: u32 = 1;

    pub const ONE_WORDS: usize = 4;

    // The words of a record.
    pub fn words(self) -> usize
        ensures { result ≡ (form_of self).record_words }
    {
        match self {
            Form::One => Form::ONE_WORDS,
        }
    }

    // Whether the header is one of this form, n and the root's index aside. It takes words as `put_header` and `Record::put` do, which write: a `Table` is to read.
    pub fn header_fits(self, table: &[u32]) -> bool
        requires { Inside (stored self table.now) 0 }
        ensures { result ≡ (form_of self).header_fits table.now }
    {
        match self {
            Form::One => header_one(table),
        }
    }

    // Puts the header of a table of n records.
    pub fn put_header(self, table: &mut [u32], n: usize, root: usize)
        requires { Inside (stored self table.old) 0 × (n < 2 ^ 32) × (root < 2 ^ 32) }
        ensures { table.new ≡ sets table.old 0 ((form_of self).header_words n root) }
    {
        match self {
            Form::One => put_header_one(table, n as u32, root as u32),
        }
    }
}

// A table as the code holds it: its words, in a form. What an earlier check has found is asked for in the contracts and is no invariant, since the checks take tables
// that fail them.
#[derive(Clone, Copy)]
pub struct Table<'a> {
    pub words: &'a [u32],
    pub form: Form,
}

impl<'a> Table<'a> {
    // How many records the header says that the table has, and where it says that the root is.
    pub fn count(&self) -> usize
        requires { 2 < length self.now.words.now }
        ensures told { result ≡ (viewed_of self.now).n }
        ensures fits { result < 2 ^ 32 }
    {
        index_at(self.words, 1)
    }

    pub fn root(&self) -> usize
        requires { 2 < length self.now.words.now }
        ensures { result ≡ (viewed_of self.now).root }
    {
        index_at(self.words, 2)
    }

    // The indices of the records, half open: an inclusive range costs more.
    fn indices(&self) -> Range<usize>
        requires { 2 < length self.now.words.now }
        ensures from { result.start ≡ 1 }
        ensures to { result.end ≡ (viewed_of self.now).n + 1 }
    {
        1..self.count() + 1
    }

    // The records of a chain, from a link on.
    fn chain(&self, link: usize) -> Chain<'a>
        ensures table { result.table ≡ self.now }
        ensures link { result.link ≡ link }
    {
        Chain { table: *self, link }
    }

    // The record at an index.
    pub fn at(&self, i: usize) -> Record
        requires { Inside (stored_of self.now) i }
        ensures { record_of result ≡ record_at (stored_of self.now) i }
    {
        match self.form {
            Form::One => Record::at_one(self.words, i),
        }
    }
}

// The kind is the word that a table has for it, which may be no kind's number. A record may declare how many children it has. A link is the
// table's number, 0 for none, as `chain_from` follows it.
#[derive(Clone, Copy)]
pub struct Record {
    pub kind: u32,
    pub value: u32,
    pub declared: Option<usize>,
    pub first: usize,
    pub next: usize,
}

impl Record {
    fn at_one(table: &[u32], i: usize) -> Self
        requires { Inside (in_form1 table.now) i }
        ensures { record_of result ≡ record_at (in_form1 table.now) i }
    {
        let from = Form::ONE_WORDS * i;
        Record {
            kind: table[from],
            value: table[from + 1],
            declared: None,
            first: index_at(table, from + 2),
            next: index_at(table, from + 3),
        }
    }

    // Puts the record at an index.
    pub fn put(self, table: &mut [u32], form: Form, i: usize)
        requires { Inside (stored form table.old) i × Puttable (record_of self) }
        ensures { table.new ≡ sets table.old ((form_of form).record_words * i) ((form_of form).record_as (record_of self)) }
    {
        match form {
            Form::One => self.put_one(table, i),
        }
    }

    fn put_one(self, table: &mut [u32], i: usize)
        requires { Inside (in_form1 table.old) i × Puttable (record_of self) }
        ensures { table.new ≡ sets table.old (form1.record_words * i) (form1.record_as (record_of self)) }
    {
        let words = [self.kind, self.value, self.first as u32, self.next as u32];
        copy(&words, 0, Form::ONE_WORDS, table, Form::ONE_WORDS * i);
    }

    pub fn is_branch(self) -> bool
        ensures { result ≡ is_branch (record_of self) }
    {
        self.kind == Word::BRANCH
    }

    // The tag of a branch.
    pub fn tag(self) -> u32
        ensures { result ≡ tag_of self.value }
    {
        self.value / Word::COUNT_BASE
    }
}

fn header_one(table: &[u32]) -> bool
    requires { Inside (in_form1 table.now) 0 }
    ensures { result ≡ form1.header_fits table.now }
{
    table[0] == Form::ONE && table[3] == 0
}

fn put_header_one(table: &mut [u32], n: u32, root: u32)
    requires { Inside (in_form1 table.old) 0 }
    ensures { table.new ≡ sets table.old 0 (form1.header_words n root) }
{
    let words = [Form::ONE, n, root, 0];
    copy(&words, 0, Form::ONE_WORDS, table, 0);
}

// The word at a position, as an index or a number of records.
fn index_at(table: &[u32], at: usize) -> usize
    requires { at < length table.now }
    ensures told { result ≡ get_or table.now at 0 }
    ensures fits { result < 2 ^ 32 }
{
    table[at] as usize
}

// Does nothing. Its contract says that each constant is the number that the definitions give its name.
fn constants()
    ensures one { Form.ONE ≡ form1.number }
    ensures one_words { Form.ONE_WORDS ≡ form1.record_words }
{}
