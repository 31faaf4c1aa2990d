// A principal's table, in which a free number is found without a look at each that is taken.
ghost use Rattle.std.specs.Prelude.{◌≡◌, ◌+◌, ◌*◌, ◌^◌, ◌<◌, ◌≤◌, [], IsTrue, Some, None, IfOk, OnOk, OnErr};
ghost use Rattle.std.specs.Ordering.{nat_cmp};
ghost use Rattle.std.specs.FinMap.Entries.{find};
ghost use Rattle.su_bytes.specs.FileId.{is_inum};
ghost use Rattle.su_tree.specs.Digest.{digest};
ghost use Rattle.su_tree.specs.Number.{numbers};
ghost use Rattle.su_hash_tree.specs.Clones.{IsExact};
ghost use Rattle.su_table.specs.Cost.{hashes_of_number};
ghost use Rattle.su_table.specs.Free.{has_none, HasAll, IsLeastFree};
ghost use Rattle.su_table.specs.Table.{with_pair};

use std::alloc::{AllocError, Global};
use std::marker::Model;
use su_bytes::{Digest, Inum};
use su_hash_tree::HashTree;
use su_tree::TreeValue;

/// How many numbers there are in a block.
const BLOCK: u32 = 1024;

/// A table from numbers to values, with its digest. Its model is the pairs in the order of their
/// numbers. A change hashes the path of one number: at most 33 hashes, and about log2 n of n random
/// numbers.
///
/// Of each block of numbers it keeps how many from the first one on are there, up to the last block
/// in which there was a number: so a free number is found by a look at each block, and at the
/// numbers of one.
#[derive(Drop)]
pub(crate) struct Table<V: TreeValue> {
    tree: HashTree<u32, V>,
    fronts: Vec<u32>,
    alloc: Global,
}

impl<V: TreeValue> Model for Table<V> {
    ghost use Rattle.std.specs.Prelude.{ℕ, List};
    ghost use Rattle.su_table.specs.Free.{AreFronts};

    ghost Value = { List (ℕ × V) };

    ghost view = { λ t. t.tree.entries };

    ghost invariant = { λ t. AreFronts t.tree.entries t.fronts.items };
}

impl<V: TreeValue + Drop> Table<V> {
    /// Makes an empty table. It makes one hash.
    pub fn empty(alloc: Global) -> Table<V>
        ensures { result ≡ [] }
    {
        Table {
            tree: HashTree::empty(alloc),
            fronts: Vec::new(alloc),
            alloc,
        }
    }

    /// Returns the digest of the table. It makes no hash.
    pub fn digest(&self) -> Digest
        ensures { result ≡ digest (numbers V.bytes) self.now }
    {
        self.tree.digest()
    }

    /// Finds the least free number from a number on; none where each one from there to the last is
    /// taken.
    pub fn free_number(&self, from_: Inum) -> Option<Inum>
        ensures { IsLeastFree (has_none self.now) from_ result }
    {
        let mut number = from_.number();
        while number <= Inum::LAST.number() {
            let next = self.past_front(number);
            if next > number {
                number = next;
            } else if self.tree.get(&number).is_some() {
                number += 1;
            } else {
                return Inum::new(u64::from(number)).ok();
            }
        }
        None
    }

    /// Passes by numbers from `number` on that are known to be there, those of the front of its
    /// block.
    fn past_front(&self, number: u32) -> u32
        requires { IsTrue (is_inum number) }
        ensures there { HasAll self.now number result }
        ensures from_there { number ≤ result }
    {
        let block = (number - 1) / BLOCK;
        match self.fronts.get(block as usize) {
            Some(front) => number.max(block * BLOCK + 1 + *front),
            None => number,
        }
    }

    /// Puts a value at a number. Returns how many hashes it made. Takes memory only for a number
    /// that isn't there; where it is wanting, it changes nothing.
    pub fn put(&mut self, number: Inum, value: V) -> Result<u64, AllocError>
        ensures ok { OnOk result (self.new ≡ with_pair number (Some value) self.old) }
        ensures absent { OnErr result (find nat_cmp number self.old ≡ None) }
        ensures err { OnErr result (self.new ≡ self.old) }
        ensures hashes { IfOk result (λ made. made ≤ hashes_of_number) }
    {
        let before = self.tree.hashes();
        let was = self.tree.insert(number.number(), value)?;
        let made = self.tree.hashes().saturating_sub(before);
        if was.is_none() {
            self.lengthen((number.number() - 1) / BLOCK);
        }
        Ok(made)
    }

    /// Takes out the value at a number, if there is one.
    pub fn remove(&mut self, number: Inum)
        ensures { self.new ≡ with_pair number None self.old }
    {
        let place = number.number() - 1;
        match self.fronts.get_mut((place / BLOCK) as usize) {
            Some(front) => *front = (*front).min(place % BLOCK),
            None => {}
        }
        self.tree.remove(&number.number());
    }

    /// Counts anew how many numbers stand at the front of a block. Where there is no memory to keep
    /// that, it stays unknown.
    fn lengthen(&mut self, block: u32)
        requires { IsTrue (is_inum (block * BLOCK + 1)) }
        ensures { self.new ≡ self.old }
    {
        let index = block as usize;
        self.reach(index);
        let mut front = match self.fronts.get(index) {
            Some(front) => *front,
            None => return,
        };
        while front < BLOCK && self.tree.get(&(block * BLOCK + 1 + front)).is_some() {
            front += 1;
        }
        self.fronts[index] = front;
    }

    /// Makes room for the front of a block, if there is memory.
    fn reach(&mut self, index: usize)
        requires { index < 2 ^ 32 }
        ensures { self.new ≡ self.old }
    {
        for _ in self.fronts.len()..index + 1 {
            if self.fronts.push(0).is_err() {
                return;
            }
        }
    }
}

impl<V: TreeValue + Clone + Drop> Table<V> {
    /// Copies the table, with its digest. Fails where memory is wanting.
    pub fn copy(&self) -> Result<Table<V>, AllocError>
        requires { IsExact V.is_clone }
        ensures { IfOk result (λ copy. copy ≡ self.now) }
    {
        Ok(Table {
            tree: self.tree.copy()?,
            fronts: Vec::from_slice(self.alloc, self.fronts.as_slice())?,
            alloc: self.alloc,
        })
    }
}
