// The items that no file has.
ghost use Rattle.std.specs.Prelude.{◌≡◌, [], ℕ, List, false, None, IsSome, length, slice_get};
ghost use Rattle.std.specs.Prelude.{option_map, OnOk, OnErr};
ghost use Rattle.std.specs.Str.{bytes_eq};
ghost use Rattle.su_store_keeper.specs.Lacking.{file_for};

use indexmap::IndexMap;
use std::alloc::{AllocError, Global};
use std::marker::Model;
use su_bytes::Digest;

/// An item that no file has, and the number of the first file, counted from 0, with a record that
/// needs it.
#[derive(Clone, Copy, Debug, PartialEq, Eq)]
pub(crate) struct LackingItem {
    pub(crate) digest: Digest,
    pub(crate) number: usize,
}

/// The items that no file has, each once. Its model is their digests, with the numbers of their
/// files.
#[derive(Drop)]
pub(crate) struct LackingItems {
    numbers: IndexMap<[u8; 32], usize>,
}

impl Model for LackingItems {
    ghost use Rattle.su_store_keeper.specs.Lacking.{Lacking};

    ghost Value = { Lacking };

    ghost view = { λ l. l.numbers.entries };
}

impl LackingItems {
    /// Begins with none.
    pub(crate) fn new(alloc: Global) -> LackingItems
        ensures { result ≡ [] }
    {
        LackingItems {
            numbers: IndexMap::new(alloc),
        }
    }

    /// How many there are.
    pub(crate) fn len(&self) -> usize
        ensures { result ≡ length self.now }
    {
        self.numbers.len()
    }

    /// Returns the one of an index, if there are more than so many.
    pub(crate) fn get(&self, index: usize) -> Option<LackingItem>
        ensures { option_map (λ item. (item.digest, item.number)) result
            ≡ slice_get self.now index }
    {
        let (digest, number) = self.numbers.get_index(index)?;
        Some(LackingItem {
            digest: Digest::new(*digest),
            number: *number,
        })
    }

    /// Adds one, unless one of its digest is there.
    pub(crate) fn add(&mut self, item: LackingItem) -> Result<(), AllocError>
        ensures added { OnOk result (IsSome (file_for self.new item.digest)) }
        ensures others { (d : List ℕ) → bytes_eq item.digest d ≡ false
            → file_for self.new d ≡ file_for self.old d }
        ensures same { OnErr result (self.new ≡ self.old) }
    {
        if self.numbers.contains_key(item.digest.as_bytes()) {
            return Ok(());
        }
        match self.numbers.insert(*item.digest.as_bytes(), item.number) {
            Ok(_) => Ok(()),
            Err(refused) => Err(AllocError::from(refused)),
        }
    }

    /// Takes out the one of a digest, if there is one. The last one has its index then.
    pub(crate) fn take_out(&mut self, digest: &Digest)
        ensures gone { file_for self.new digest.now ≡ None }
        ensures others { (d : List ℕ) → bytes_eq digest.now d ≡ false
            → file_for self.new d ≡ file_for self.old d }
    {
        let _number = self.numbers.swap_remove(digest.as_bytes());
    }
}
