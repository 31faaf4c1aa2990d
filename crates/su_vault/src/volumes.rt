// What a file of records promises.
ghost use Rattle.std.specs.Prelude.{◌≡◌, ◌≤◌, ◌+◌, List, ℕ, [], ◌∷◌, ◌++◌, None, option_map, slice_get, length, IfOk, IfSome, OnOk, OnErr};
ghost use Rattle.sha2.specs.Sha256.{sha256};
ghost use Rattle.su_keeper.specs.Kept.{KeptRecord};
ghost use Rattle.su_vault.specs.Records.{KeepsRecords, AddsRecord, kept_with, found_alone, with_item};

use crate::faults::VolumeFault;
use std::alloc::{AllocError, Global};
use su_bytes::Digest;

/// A file of a vault: it keeps records in their order, and the items that they need. It is in memory
/// while it is open. A call that failed may have spent it.
pub trait Volume: Drop {
    // It keeps these records and no others, whatever becomes of the process.
    ghost keeps: { Self → List KeptRecord → Type 0 };

    // The records that it keeps begin with these, whatever becomes of the process.
    ghost begins: { Self → List KeptRecord → Type 0 };

    // While it is open, it keeps as many records as it counts, of which so many are these first ones.
    // Once it isn't, these are all that it keeps.
    ghost counts: { Self → ℕ → List KeptRecord → Type 0 };

    // How many records it counts: none unless it is open.
    ghost count: { Self → ℕ };

    // It is as it was found, and what it was found with stands for these records.
    ghost was_found: { Self → List (List ℕ) → Type 0 };

    // It is open, and shows these records, as many as it counts.
    ghost shows: { Self → List (List ℕ) → Type 0 };

    // No wrong answer of what it stands on was taken as true.
    ghost is_clean: { Self → Type 0 };

    /// Why a call fails.
    type Fault: Drop + From<AllocError>;

    /// The fault of a file that isn't gone on with.
    fn fault_for(why: VolumeFault) -> Self::Fault;

    /// How many records it counts.
    fn len(&self) -> u32
        ensures { result ≡ count self.now };

    /// Whether it counts as many records as a file may have.
    fn is_full(&self) -> bool;

    /// Opens the file, if it is shut. Fails where it isn't a sound file of records.
    fn open(&mut self, alloc: Global) -> Result<(), Self::Fault>
        ensures kept { KeepsRecords keeps self.old self.new }
        ensures anew { OnOk result ((commits : List (List ℕ)) → was_found self.old commits
            → counts self.new 0 []) }
        ensures found { OnOk result ((commits : List (List ℕ)) → was_found self.old commits
            → shows self.new commits) }
        ensures clean { OnOk result (is_clean self.new → is_clean self.old) };

    /// Shuts the file, if it is open. Where it fails, the file is lost, and keeps what it kept.
    fn shut(&mut self) -> Result<(), Self::Fault>
        ensures kept { KeepsRecords keeps self.old self.new }
        ensures counted { (number : ℕ) (records : List KeptRecord) → keeps self.old records
            → counts self.new number records }
        ensures clean { OnOk result (is_clean self.new → is_clean self.old) }
        ensures empty { count self.new ≡ 0 };

    /// Shuts the file, if it is open, and gives it up. Fails where it was lost.
    fn close(self) -> Result<(), Self::Fault>;

    /// Reads the record of a number. `None` from the count on. Fails where the file isn't open, and
    /// where the record isn't there.
    fn record(&mut self, number: u32) -> Result<Option<Vec<u8>>, Self::Fault>
        ensures kept { KeepsRecords keeps self.old self.new }
        ensures begun { KeepsRecords begins self.old self.new }
        ensures counted { (n : ℕ) (records : List KeptRecord) → counts self.old n records
            → OnOk result (counts self.new n records) }
        ensures found { IfOk result (λ found. IfSome found (λ b. (records : List KeptRecord)
            → counts self.new number records
            → counts self.new (number + 1) (records ++ found_alone b.items ∷ []))) }
        ensures at { (commits : List (List ℕ)) → shows self.old commits → is_clean self.new
            → IfOk result (λ found.
            option_map (λ b. b.items) found ≡ slice_get commits number) }
        ensures shown { OnOk result (KeepsRecords shows self.old self.new) }
        ensures clean { OnOk result (is_clean self.new → is_clean self.old) }
        ensures end { IfOk result (λ found. found ≡ None → count self.new ≤ number) }
        ensures same { count self.new ≡ count self.old };

    /// Puts a record behind the others, with the items that it needs. Fails where the file isn't
    /// open, where it is full, and where they aren't kept.
    fn append(&mut self, commit: &[u8], items: &[Vec<u8>]) -> Result<(), Self::Fault>
        ensures appended { (n : ℕ) (records : List KeptRecord) → count self.old ≤ n
            → counts self.old n records
            → OnOk result (counts self.new (count self.new)
            (records ++ kept_with commit.now items.now ∷ [])) }
        ensures begun { (n : ℕ) (records : List KeptRecord) → count self.old ≤ n
            → counts self.old n records → OnErr result (begins self.new records) }
        ensures shown { OnOk result (AddsRecord shows self.old self.new commit.now) }
        ensures clean { OnOk result (is_clean self.new → is_clean self.old) }
        ensures fewer { OnErr result (count self.new ≤ count self.old) };

    /// Reads the item of a digest. `None` where there is none. Fails where the file isn't open, and
    /// where the item has another digest.
    fn item(&mut self, digest: Digest) -> Result<Option<Vec<u8>>, Self::Fault>
        ensures hashes { IfOk result (λ found. IfSome found (λ b. sha256 b.items ≡ digest)) }
        ensures kept { KeepsRecords keeps self.old self.new }
        ensures begun { KeepsRecords begins self.old self.new }
        ensures counted { (n : ℕ) (records : List KeptRecord) → counts self.old n records
            → OnOk result (counts self.new n records) }
        ensures shown { OnOk result (KeepsRecords shows self.old self.new) }
        ensures clean { OnOk result (is_clean self.new → is_clean self.old) }
        ensures same { count self.new ≡ count self.old };

    /// Keeps an item by itself, unless it keeps it already: for a record that came without it. Fails
    /// where the file isn't open, and where the item isn't kept.
    fn put_item(&mut self, item: &[u8]) -> Result<(), Self::Fault>
        ensures kept { KeepsRecords keeps self.old self.new }
        ensures begun { KeepsRecords begins self.old self.new }
        ensures counted { (n : ℕ) (records : List KeptRecord) → counts self.old n records
            → OnOk result (counts self.new n records) }
        // Each of its records is kept with this item then.
        ensures put { (n : ℕ) (records : List KeptRecord) → counts self.old n records
            → OnOk result (counts self.new n (with_item item.now records)) }
        ensures same { count self.new ≡ count self.old };

    // It shows as many as it counts, as long as no wrong answer was taken as true.
    ghost shows_counted: { (f : Self) (commits : List (List ℕ)) → is_clean f → shows f commits
        → length commits ≡ count f };

    // What it counts is the first of what it keeps.
    ghost begins_with_counted: { (f : Self) (n : ℕ) (records : List KeptRecord)
        → counts f n records → begins f records };

    // Where these are all that it counts, it keeps just these.
    ghost keeps_all_counted: { (f : Self) (n : ℕ) (records : List KeptRecord) → count f ≤ n
        → counts f n records → keeps f records };
}
