// Refusal 4: the two link rules.
ghost use Rattle.std.specs.Prelude.{◌≡◌, true, false, ◌+◌, ◌^◌, ◌<◌, eqb, length, get_or, replicate};
ghost use Rattle.records.specs.Preconditions.{Inside};
ghost use Rattle.storage.specs.Records.{everyOf};
ghost use Rattle.storage.specs.Header.{wrong_length, wrong_header};
ghost use Rattle.words.specs.Room.{Room};
ghost use Rattle.storage.specs.Links.{link_fits, links_fit, namings, wrong_link};
ghost use Rattle.records.specs.Counting.{more, counted, room_most, Countable};
ghost use Rattle.records.specs.Types.{stored_of, viewed_of};

use crate::Table;
use words::Word;

// Room for a count for each index that a link may be, or for the words of a term.
pub const ROOM: usize = Word::WORKSPACE_MOST + 1;

// Whether a link of record i is 0 or names a later record of n.
fn link_fits(n: usize, i: usize, link: usize) -> bool
    ensures { result ≡ link_fits n i link }
{
    link == 0 || i < link && link <= n
}

// Whether both links of record i fit.
pub fn links_fit(table: &Table, i: usize) -> bool
    requires { Inside (stored_of table.now) i }
    ensures { result ≡ links_fit (viewed_of table.now) i }
{
    let n = table.count();
    let record = table.at(i);
    link_fits(n, i, record.first) && link_fits(n, i, record.next)
}

// Counts one more link.
fn count_link(counts: &mut [u32], link: usize)
    requires { (link < length counts.old) × (get_or counts.old link 0 + 1 < 2 ^ 32) }
    ensures { counts.new ≡ more link counts.old }
{
    counts[link] += 1;
}

// Counts the links of every record.
fn count_links(table: &Table, counts: &mut [u32])
    requires { Countable (stored_of table.now) counts.old }
    ensures { counts.new ≡ counted (viewed_of table.now) (viewed_of table.now).n counts.old }
{
    for i in 1..=table.count() {
        let record = table.at(i);
        count_link(counts, record.first);
        count_link(counts, record.next);
    }
}

// Whether each of the first n indices after 0 is counted once.
fn all_once(counts: &[u32], n: usize) -> bool
    requires { n < length counts.now }
    ensures { result ≡ everyOf n (λ i. eqb (get_or counts.now i 0) 1) }
{
    counts[1..=n].iter().all(|named| *named == 1)
}

// Whether every record is named by exactly one link. The ends of chains are counted at 0.
fn named_once(table: &Table, counts: &mut [u32]) -> bool
    requires linked { (wrong_length (stored_of table.now) ≡ false) × (wrong_header (stored_of table.now) ≡ false) × (everyOf (viewed_of table.now).n (links_fit (viewed_of table.now)) ≡ true) }
    requires zeros { counts.old ≡ replicate room_most 0 }
    ensures { (result ≡ everyOf (viewed_of table.now).n (λ i. eqb (namings (viewed_of table.now) i) 1)) × Room counts.old counts.new }
{
    count_link(counts, table.root());
    count_links(table, counts);
    all_once(counts, table.count())
}

// The links are counted in a room that is lent with zeros.
pub fn wrong_links(table: &Table, room: &mut [u32]) -> bool
    requires headed { (wrong_length (stored_of table.now) ≡ false) × (wrong_header (stored_of table.now) ≡ false) }
    requires zeros { room.old ≡ replicate room_most 0 }
    ensures { (result ≡ wrong_link (viewed_of table.now)) × Room room.old room.new }
{
    !table.indices().all(|i| links_fit(table, i)) || !named_once(table, room)
}

// Does nothing. Its contract says that the constant is the number that the definitions give its name.
fn constants()
    ensures { ROOM ≡ room_most }
{}
