// The files of a vault whose records all stand in the book.
ghost use Rattle.std.specs.Prelude.{◌≡◌, ◌∷◌, ◌++◌, [], List, ℕ, IfOk, IfErr, IfSome, OnOk, OnErr};
ghost use Rattle.std.specs.List.{All};
ghost use Rattle.sha2.specs.Sha256.{sha256};
ghost use Rattle.su_keeper.specs.Kept.{KeptRecord};
ghost use Rattle.su_vault.specs.Records.{KeepsRecords};

use std::alloc::{AllocFailed, Global};
use su_bytes::Digest;
use su_vault::Volume;

/// Files whose records all stand in the book. At most one of them is open: the one from which an
/// item or a record was read last, or in which an item was kept.
#[derive(Drop)]
pub struct PastFiles<V: Volume> {
    places: Vec<V>,
    opened: usize,
}

/// Opens the file, if it is shut, and reads the item of a digest.
fn read<V: Volume>(file: &mut V, alloc: Global, digest: Digest) -> Result<Option<Vec<u8>>, V::Fault>
    ensures hashes { IfOk result (λ found. IfSome found (λ b. sha256 b.items ≡ digest)) }
    ensures kept { KeepsRecords V.keeps file.old file.new }
    ensures clean { OnOk result (V.is_clean file.new → V.is_clean file.old) }
{
    file.open(alloc)?;
    file.item(digest)
}

/// Opens the file, if it is shut, and reads the record of a number. `None` from the count on.
fn read_record<V: Volume>(
    file: &mut V,
    alloc: Global,
    number: u32,
) -> Result<Option<Vec<u8>>, V::Fault>
    ensures { KeepsRecords V.keeps file.old file.new }
{
    file.open(alloc)?;
    file.record(number)
}

/// Opens the file, if it is shut, and keeps an item in it.
fn put<V: Volume>(file: &mut V, alloc: Global, item: &[u8]) -> Result<(), V::Fault>
    ensures { KeepsRecords V.keeps file.old file.new }
{
    file.open(alloc)?;
    file.put_item(item)
}

impl<V: Volume> PastFiles<V> {
    ghost use Rattle.su_store_files.specs.Past.{KeepInTurn};

    /// Makes the list of no file.
    pub(crate) fn new(alloc: Global) -> PastFiles<V>
        ensures { KeepInTurn V.Volume result [] }
    {
        PastFiles {
            places: Vec::new(alloc),
            opened: 0,
        }
    }

    /// Hands the files back.
    pub(crate) fn into_places(self) -> Vec<V>
        ensures { result ≡ self.places }
    {
        let PastFiles { places, opened: _ } = self;
        places
    }

    /// How many files there are.
    pub(crate) fn len(&self) -> usize {
        self.places.len()
    }

    /// Puts a file behind the others. It is given back where there is no memory.
    pub(crate) fn push(&mut self, place: V) -> Result<(), V>
        ensures kept { (lists : List (List KeptRecord)) (own : List KeptRecord)
            → KeepInTurn V.Volume self.old lists → V.keeps place own
            → OnOk result (KeepInTurn V.Volume self.new (lists ++ own ∷ [])) }
        ensures clean { OnOk result (All V.is_clean self.new.places.items
            → All V.is_clean self.old.places.items × V.is_clean place) }
        ensures given { IfErr result (λ e. e ≡ place) }
        ensures same { OnErr result (self.new.places.items ≡ self.old.places.items) }
    {
        match self.places.push(place) {
            Ok(()) => Ok(()),
            Err(AllocFailed { value }) => Err(value),
        }
    }

    /// Shuts the file that was opened last, unless it has this number.
    fn turn_to(&mut self, number: usize) -> Result<(), V::Fault>
        ensures clean { OnOk result (All V.is_clean self.new.places.items
            → All V.is_clean self.old.places.items) }
        ensures kept { (lists : List (List KeptRecord)) → KeepInTurn V.Volume self.old lists
            → KeepInTurn V.Volume self.new lists }
    {
        let last = self.opened;
        self.opened = number;
        if last == number || self.places.len() <= last {
            return Ok(());
        }
        self.places[last].shut()
    }

    /// Reads the item of a digest from the file of a number. `None` where there is no such file.
    pub(crate) fn item(
        &mut self,
        alloc: Global,
        number: usize,
        digest: Digest,
    ) -> Result<Option<Vec<u8>>, V::Fault>
        ensures hashes { IfOk result (λ found. IfSome found (λ b. sha256 b.items ≡ digest)) }
        ensures kept { (lists : List (List KeptRecord)) → KeepInTurn V.Volume self.old lists
            → KeepInTurn V.Volume self.new lists }
        ensures clean { OnOk result (All V.is_clean self.new.places.items
            → All V.is_clean self.old.places.items) }
    {
        self.turn_to(number)?;
        if self.places.len() <= number {
            return Ok(None);
        }
        read(&mut self.places[number], alloc, digest)
    }

    /// Keeps an item in the file of a number. `false` where there is no such file.
    pub(crate) fn put_item(
        &mut self,
        alloc: Global,
        number: usize,
        item: &[u8],
    ) -> Result<bool, V::Fault>
        ensures { (lists : List (List KeptRecord)) → KeepInTurn V.Volume self.old lists
            → KeepInTurn V.Volume self.new lists }
    {
        self.turn_to(number)?;
        if self.places.len() <= number {
            return Ok(false);
        }
        put(&mut self.places[number], alloc, item)?;
        Ok(true)
    }

    /// Reads the record of an index in the file of a number. `None` where there is no such file, or
    /// no such record in it.
    pub(crate) fn record(
        &mut self,
        alloc: Global,
        number: usize,
        index: u32,
    ) -> Result<Option<Vec<u8>>, V::Fault>
        ensures { (lists : List (List KeptRecord)) → KeepInTurn V.Volume self.old lists
            → KeepInTurn V.Volume self.new lists }
    {
        self.turn_to(number)?;
        if self.places.len() <= number {
            return Ok(None);
        }
        read_record(&mut self.places[number], alloc, index)
    }

    /// Shuts the files, the last one first, and gives them up.
    pub(crate) fn close(self) -> Result<(), V::Fault> {
        let PastFiles { places, opened: _ } = self;
        for place in places.into_iter().rev() {
            place.close()?;
        }
        Ok(())
    }
}
