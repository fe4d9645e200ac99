// The records of a chain, one after the other.
ghost use Rattle.records.specs.Preconditions.{Walkable};
ghost use Rattle.records.specs.Chains.{Passes, left};
ghost use Rattle.records.specs.Types.{stored_of};
ghost use Rattle.std.specs.Iterator.{item_count};

use crate::{Record, Table};

// What is left of a chain, from a link on.
#[derive(Drop)]
pub struct Chain<'a> {
    pub table: Table<'a>,
    pub link: usize,
}

impl<'a> Iterator for Chain<'a> {
    type Item = Record;

    ghost can_next = { λ s. Walkable (stored_of s.table) s.link };

    ghost next_gives = { Passes };

    ghost remaining = { item_count left };

    fn next(&mut self) -> Option<Record> {
        if self.link == 0 {
            return None;
        }
        let record = self.table.at(self.link);
        self.link = record.next;
        Some(record)
    }
}
