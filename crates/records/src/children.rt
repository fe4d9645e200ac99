// Refusal 5: the children of every record, and the root.
ghost use Rattle.std.specs.Prelude.{◌≡◌, ◌≤◌, length};
ghost use Rattle.records.specs.Types.{declared_of, record_of, stored_of, viewed_of};
ghost use Rattle.storage.specs.Children.{starts_above, may_stand, chain_fits, sorts_fit, agrees, record_fits, wrong_children, chain_from};
ghost use Rattle.records.specs.Preconditions.{Walkable};

use crate::values::number_fits;
use crate::{Record, Table};
use words::Word;

// How many records a chain has.
pub fn chain_length(table: &Table, link: usize) -> usize
    requires { Walkable (stored_of table.now) link }
    ensures { result ≡ length (chain_from (viewed_of table.now) link) }
{
    table.chain(link).count()
}

// Whether a chain has no records or starts with a tag above this one.
fn starts_above(table: &Table, tag: u32, link: usize) -> bool
    requires { Walkable (stored_of table.now) link }
    ensures { result ≡ starts_above tag (chain_from (viewed_of table.now) link) }
{
    link == 0 || tag < table.at(link).tag()
}

// Whether a record may stand in a chain of terms, or of branches.
fn may_stand(table: &Table, child: Record, branches: bool) -> bool
    requires { Walkable (stored_of table.now) child.next }
    ensures { result ≡ may_stand branches (record_of child) (chain_from (viewed_of table.now) child.next) }
{
    if branches {
        child.is_branch() && starts_above(table, child.tag(), child.next)
    } else {
        !child.is_branch()
    }
}

// Whether a chain is one of terms, or of branches with rising tags.
fn chain_fits(table: &Table, link: usize, branches: bool) -> bool
    requires { Walkable (stored_of table.now) link }
    ensures { result ≡ chain_fits branches (chain_from (viewed_of table.now) link) }
{
    table
        .chain(link)
        .all(|child| may_stand(table, child, branches))
}

// Whether the chain of children of a record of this kind has terms and branches where they belong. A subject is read only where there is one.
fn sorts_fit(table: &Table, kind: u32, link: usize) -> bool
    requires { Walkable (stored_of table.now) link }
    ensures { result ≡ sorts_fit kind (chain_from (viewed_of table.now) link) }
{
    if kind != Word::CASE {
        return chain_fits(table, link, false);
    }
    if link == 0 {
        return true;
    }
    let subject = table.at(link);
    !subject.is_branch() && chain_fits(table, subject.next, true)
}

// Whether a declared number of children, if there is one, is their number.
fn agrees(declared: Option<usize>, number: usize) -> bool
    ensures { result ≡ agrees (declared_of declared) number }
{
    declared.is_none_or(|count| count == number)
}

// Whether record i has the children that it declares and that its kind wants.
pub fn record_fits(table: &Table, i: usize) -> bool
    requires { Walkable (stored_of table.now) i × (1 ≤ i) }
    ensures { result ≡ record_fits (viewed_of table.now) i }
{
    let record = table.at(i);
    let number = chain_length(table, record.first);
    agrees(record.declared, number)
        && number_fits(record.kind, number)
        && sorts_fit(table, record.kind, record.first)
}

pub fn wrong_children(table: &Table) -> bool
    requires { Walkable (stored_of table.now) (viewed_of table.now).root × (1 ≤ (viewed_of table.now).root) }
    ensures { result ≡ wrong_children (viewed_of table.now) }
{
    // The root is read only where every record fits.
    if !table.indices().all(|i| record_fits(table, i)) {
        return true;
    }
    let top = table.at(table.root());
    top.is_branch() || top.next != 0
}
