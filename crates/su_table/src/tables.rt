// Tables of principals, each of which keeps its digest.
ghost use Rattle.std.specs.Prelude.{◌≡◌, ◌<◌, ◌≤◌, [], length, replicate, slice_index_or, slice_set, Some, None, IfOk, OnOk, OnErr, IsSome};
ghost use Rattle.std.specs.Ordering.{nat_cmp};
ghost use Rattle.std.specs.FinMap.Entries.{find};
ghost use Rattle.su_tree.specs.Digest.{digest};
ghost use Rattle.su_tree.specs.Number.{numbers};
ghost use Rattle.su_hash_tree.specs.Clones.{IsExact};
ghost use Rattle.su_table.specs.Cost.{hashes_of_number};
ghost use Rattle.su_table.specs.Free.{has_none, IsLeastFree};
ghost use Rattle.su_table.specs.Table.{with_pair};

use crate::table::Table;
use std::alloc::{AllocError, Global};
use std::marker::Model;
use su_bytes::{Digest, Inum};
use su_tree::TreeValue;

/// Tables from numbers to values, one for each principal from number 0 on. Its model is the pairs
/// of each table in the order of their numbers.
#[derive(Drop)]
pub(crate) struct Tables<V: TreeValue> {
    tables: Vec<Table<V>>,
    alloc: Global,
}

impl<V: TreeValue> Model for Tables<V> {
    ghost use Rattle.std.specs.Prelude.{ℕ, List};

    ghost Value = { List (List (ℕ × V)) };

    ghost view = { λ t. t.tables.items };
}

impl<V: TreeValue + Drop> Tables<V> {
    /// Makes so many empty tables. It makes one hash for each.
    pub fn empty(alloc: Global, count: usize) -> Result<Tables<V>, AllocError>
        ensures { IfOk result (λ tables. tables ≡ replicate count []) }
    {
        let mut tables = Vec::with_capacity(alloc, count)?;
        for _ in 0..count {
            tables.push(Table::empty(alloc))?;
        }
        Ok(Tables { tables, alloc })
    }

    /// Returns the digest of a table. It makes no hash.
    pub fn digest(&self, table: u8) -> Digest
        requires { table < length self.now }
        ensures { result ≡ digest (numbers V.bytes) (slice_index_or self.now table []) }
    {
        self.tables[usize::from(table)].digest()
    }

    /// Finds the least number from a number on that a table doesn't have, as `Table::free_number`
    /// does.
    pub fn free_number(&self, table: u8, from_: Inum) -> Option<Inum>
        requires { table < length self.now }
        ensures { IsLeastFree (has_none (slice_index_or self.now table [])) from_ result }
    {
        self.tables[usize::from(table)].free_number(from_)
    }

    /// Puts a value at a number of a table. Returns how many hashes it made. Takes memory only for
    /// a number that isn't there; where it is wanting, it changes nothing.
    pub fn put(&mut self, table: u8, number: Inum, value: V) -> Result<u64, AllocError>
        requires { table < length self.old }
        ensures ok { let pairs = slice_index_or self.old table [] in
            OnOk result (self.new
            ≡ slice_set self.old table (with_pair number (Some value) pairs)) }
        ensures absent { let pairs = slice_index_or self.old table [] in
            OnErr result (find nat_cmp number pairs ≡ None) }
        ensures err { OnErr result (self.new ≡ self.old) }
        ensures hashes { IfOk result (λ made. made ≤ hashes_of_number) }
    {
        self.tables[usize::from(table)].put(number, value)
    }

    /// Puts a value in the place of another, which takes no memory. Returns how many hashes it
    /// made.
    pub fn set(&mut self, table: u8, number: Inum, value: V) -> u64
        requires within { table < length self.old }
        requires there { IsSome (find nat_cmp number (slice_index_or self.old table [])) }
        ensures value { let pairs = slice_index_or self.old table [] in
            self.new ≡ slice_set self.old table (with_pair number (Some value) pairs) }
        ensures hashes { result ≤ hashes_of_number }
    {
        match self.put(table, number, value) {
            Ok(made) => made,
            Err(_) => unreachable!(),
        }
    }

    /// Takes out the value at a number of a table, if there is one.
    pub fn remove(&mut self, table: u8, number: Inum)
        requires { table < length self.old }
        ensures { let pairs = slice_index_or self.old table [] in
            self.new ≡ slice_set self.old table (with_pair number None pairs) }
    {
        self.tables[usize::from(table)].remove(number);
    }
}

impl<V: TreeValue + Clone + Drop> Tables<V> {
    /// Copies the tables, with their digests. Fails where memory is wanting.
    pub fn copy(&self) -> Result<Tables<V>, AllocError>
        requires { IsExact V.is_clone }
        ensures { IfOk result (λ copy. copy ≡ self.now) }
    {
        let mut tables = Vec::with_capacity(self.alloc, self.tables.len())?;
        for table in &self.tables {
            tables.push(table.copy()?)?;
        }
        Ok(Tables {
            tables,
            alloc: self.alloc,
        })
    }
}
