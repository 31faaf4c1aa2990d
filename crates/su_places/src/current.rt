// A file of a store whose records are taken up or kept now.
ghost use Rattle.std.specs.Prelude.{◌≡◌, ◌≤◌, ◌+◌, ◌++◌, ◌∷◌, [], None, List, ℕ, option_map, slice_get, IfOk, OnOk, OnErr, IfSome};
ghost use Rattle.sha2.specs.Sha256.{sha256};
ghost use Rattle.su_keeper.specs.Kept.{KeptRecord};
ghost use Rattle.su_vault.specs.Records.{KeepsRecords, AddsRecord, kept_with, found_alone, with_item};

use crate::places::Place;
use sqlite_disk::Disk;
use su_bytes::Digest;
use su_store::FileFault;

impl<D: Disk + Drop> Place<D> {
    ghost use Rattle.su_places.specs.Places.{KeepsAll};
    ghost use Rattle.su_places.specs.Current.{Begins, Counts, IsClean, Shows, count_of};

    /// How many records the file shows, if it is open.
    pub(crate) fn len(&self) -> u32
        ensures { result ≡ count_of self.now }
    {
        match self {
            Place::Open(file) => file.len(),
            _ => 0,
        }
    }

    /// Reads the record of a number. `None` from the count on. `Spent` where the file isn't open.
    pub(crate) fn record(&mut self, number: u32) -> Result<Option<Vec<u8>>, FileFault>
        ensures kept { KeepsRecords (KeepsAll D.Disk) self.old self.new }
        ensures begun { KeepsRecords (Begins D.Disk) self.old self.new }
        ensures counted { (n : ℕ) (records : List KeptRecord) → Counts D.Disk self.old n records
            → OnOk result (Counts D.Disk self.new n records) }
        ensures found { IfOk result (λ found. IfSome found (λ b. (records : List KeptRecord)
            → Counts D.Disk self.new number records
            → Counts D.Disk self.new (number + 1) (records ++ found_alone b.items ∷ []))) }
        ensures at { (commits : List (List ℕ)) → Shows D.Disk self.old commits
            → IsClean D.Disk self.new → IfOk result (λ found.
            option_map (λ b. b.items) found ≡ slice_get commits number) }
        ensures shown { OnOk result (KeepsRecords (Shows D.Disk) self.old self.new) }
        ensures clean { OnOk result (IsClean D.Disk self.new → IsClean D.Disk self.old) }
        ensures end { IfOk result (λ found. found ≡ None → count_of self.new ≤ number) }
        ensures same { count_of self.new ≡ count_of self.old }
    {
        match self {
            Place::Open(file) => file.record(number),
            _ => Err(FileFault::Spent),
        }
    }

    /// Puts a record behind the others, with the blocks that it needs. `Full` at the most records of
    /// a file, and `Spent` where the file isn't open.
    pub(crate) fn append(&mut self, commit: &[u8], blocks: &[Vec<u8>]) -> Result<(), FileFault>
        ensures appended { (n : ℕ) (records : List KeptRecord) → count_of self.old ≤ n
            → Counts D.Disk self.old n records → OnOk result
            (Counts D.Disk self.new (count_of self.new)
            (records ++ kept_with commit.now blocks.now ∷ [])) }
        ensures begun { (n : ℕ) (records : List KeptRecord) → count_of self.old ≤ n
            → Counts D.Disk self.old n records
            → OnErr result (Begins D.Disk self.new records) }
        ensures shown { OnOk result (AddsRecord (Shows D.Disk) self.old self.new commit.now) }
        ensures clean { OnOk result (IsClean D.Disk self.new → IsClean D.Disk self.old) }
        ensures fewer { OnErr result (count_of self.new ≤ count_of self.old) }
    {
        match self {
            Place::Open(file) => {
                file.append(commit, blocks)?;
                Ok(())
            }
            _ => Err(FileFault::Spent),
        }
    }

    /// Reads the block of a digest. `Spent` where the file isn't open.
    pub(crate) fn item(&mut self, digest: Digest) -> Result<Option<Vec<u8>>, FileFault>
        ensures hashes { IfOk result (λ found. IfSome found (λ b. sha256 b.items ≡ digest)) }
        ensures kept { KeepsRecords (KeepsAll D.Disk) self.old self.new }
        ensures begun { KeepsRecords (Begins D.Disk) self.old self.new }
        ensures counted { (n : ℕ) (records : List KeptRecord) → Counts D.Disk self.old n records
            → OnOk result (Counts D.Disk self.new n records) }
        ensures shown { OnOk result (KeepsRecords (Shows D.Disk) self.old self.new) }
        ensures clean { OnOk result (IsClean D.Disk self.new → IsClean D.Disk self.old) }
        ensures same { count_of self.new ≡ count_of self.old }
    {
        match self {
            Place::Open(file) => file.block(digest),
            _ => Err(FileFault::Spent),
        }
    }

    /// Holds a block by itself, unless one of its digest is held. `Spent` where the file isn't open.
    pub(crate) fn put_item(&mut self, item: &[u8]) -> Result<(), FileFault>
        ensures kept { KeepsRecords (KeepsAll D.Disk) self.old self.new }
        ensures begun { KeepsRecords (Begins D.Disk) self.old self.new }
        ensures counted { (n : ℕ) (records : List KeptRecord) → Counts D.Disk self.old n records
            → OnOk result (Counts D.Disk self.new n records) }
        ensures put { (n : ℕ) (records : List KeptRecord) → Counts D.Disk self.old n records
            → OnOk result (Counts D.Disk self.new n (with_item item.now records)) }
        ensures same { count_of self.new ≡ count_of self.old }
    {
        match self {
            Place::Open(file) => file.hold_block(item),
            _ => Err(FileFault::Spent),
        }
    }
}
