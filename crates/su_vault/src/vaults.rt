// What files that keep records promise.
ghost use Rattle.std.specs.Prelude.{◌≡◌, List, ℕ, Bool, true, false, None, option_map, IfOk, IfSome, OnOk, OnErr};
ghost use Rattle.sha2.specs.Sha256.{sha256};
ghost use Rattle.su_keeper.specs.Kept.{KeptRecord};
ghost use Rattle.su_vault.specs.Records.{KeepsRecords, AddsRecord, LeavesLast, KeepsFound, FindsNext, TakesFound, kept_with, found_alone};

use std::alloc::{AllocError, Global};
use su_bytes::Digest;

/// Keeps the records of a book in files, one behind another, each with the items that it needs. The
/// records that the files were found with stand in the book one by one, before others come. Once a
/// call has failed no more are kept.
pub trait Vault: Drop {
    // The files keep these records, the first of all that they keep, whatever becomes of the process.
    ghost holds: { Self → List KeptRecord → Type 0 };

    // These are the records that they were found with and that don't stand in the book yet.
    ghost finds: { Self → List (List ℕ) → Type 0 };

    // No wrong answer of what they stand on was taken as true.
    ghost is_clean: { Self → Type 0 };

    // All records of all files stand in the book.
    ghost is_at_end: { Self → Type 0 };

    // No file comes behind the current one, unless a record of this one doesn't stand in the book.
    ghost is_taken_up: { Self → Type 0 };

    // No more are kept.
    ghost is_stopped: { Self → Bool };

    /// Why a call fails.
    type Fault: Drop + From<AllocError>;

    /// The number of the current file, counted from 0.
    fn number(&self) -> usize;

    /// Whether as many records of the current file stand in the book as a file may have.
    fn is_full(&self) -> bool;

    /// Whether no more are kept.
    fn is_halted(&self) -> bool
        ensures { result ≡ is_stopped self.now };

    /// Keeps no more from now on. The last record that was kept need not stand in the book.
    fn halt(&mut self)
        ensures held { KeepsRecords holds self.old self.new }
        ensures last { LeavesLast holds self.old self.new }
        ensures end { is_at_end self.old → is_at_end self.new }
        ensures stopped { is_stopped self.new ≡ true };

    /// Whether a record of the current file doesn't stand in the book yet.
    fn has_next(&self) -> bool
        ensures end { result ≡ false → is_taken_up self.now → is_at_end self.now };

    /// Takes up the next file, if all records of the current one stand in the book. Fails where it
    /// isn't opened, and where it is empty with another one behind it.
    fn take_up(&mut self, alloc: Global) -> Result<(), Self::Fault>
        requires running { is_stopped self.old ≡ false }
        ensures held { KeepsRecords holds self.old self.new }
        ensures found { OnOk result (KeepsFound is_clean finds self.old self.new) }
        ensures running { OnOk result (is_stopped self.new ≡ false) }
        ensures end { is_at_end self.old → is_at_end self.new }
        ensures taken_up { OnOk result (is_taken_up self.new) };

    /// Reads the first record that doesn't stand in the book, and takes up the next file for it.
    /// `None` where there is no such record. Fails where the file isn't taken up or isn't read.
    fn next(&mut self, alloc: Global) -> Result<Option<Vec<u8>>, Self::Fault>
        requires running { is_stopped self.old ≡ false }
        ensures held { KeepsRecords holds self.old self.new }
        ensures found { IfOk result (λ next. FindsNext is_clean finds self.old
            (option_map (λ commit. commit.items) next) self.new) }
        ensures end { IfOk result (λ next. next ≡ None → is_at_end self.new) }
        ensures running { OnOk result (is_stopped self.new ≡ false) };

    /// Takes the next record of the current file for one that stands in the book. Fails where it
    /// isn't this one.
    fn keep_found(&mut self, commit: &[u8]) -> Result<(), Self::Fault>
        requires running { is_stopped self.old ≡ false }
        ensures kept { OnOk result
            (AddsRecord holds self.old self.new (found_alone commit.now)) }
        ensures held { OnErr result (KeepsRecords holds self.old self.new) }
        ensures found { OnOk result
            (TakesFound is_clean finds self.old commit.now self.new) }
        ensures running { OnOk result (is_stopped self.new ≡ false) }
        ensures end { is_at_end self.old → is_at_end self.new };

    /// Goes on with a new file. Fails where none can be made, and where one of its number keeps
    /// something.
    fn begin(&mut self) -> Result<(), Self::Fault>
        requires running { is_stopped self.old ≡ false }
        requires end { is_at_end self.old }
        ensures held { KeepsRecords holds self.old self.new }
        ensures found { OnOk result (KeepsFound is_clean finds self.old self.new) }
        ensures running { OnOk result (is_stopped self.new ≡ false) }
        ensures end { is_at_end self.new };

    /// Puts a record behind those of the last file, with the items that it needs. Fails where the
    /// file is full, and where they aren't kept.
    fn append(&mut self, commit: &[u8], items: &[Vec<u8>]) -> Result<(), Self::Fault>
        requires running { is_stopped self.old ≡ false }
        requires end { is_at_end self.old }
        ensures kept { OnOk result
            (AddsRecord holds self.old self.new (kept_with commit.now items.now)) }
        ensures held { OnErr result (KeepsRecords holds self.old self.new) }
        ensures found { OnOk result
            (TakesFound is_clean finds self.old commit.now self.new) }
        ensures end { is_at_end self.new };

    /// Reads the item of a digest from the file of a number, counted from 0. `None` where the file
    /// hasn't got it, or is a later one. Fails where the file isn't read, and where the item has
    /// another digest.
    fn item(
        &mut self,
        alloc: Global,
        number: usize,
        digest: Digest,
    ) -> Result<Option<Vec<u8>>, Self::Fault>
        requires running { is_stopped self.old ≡ false }
        ensures hashes { IfOk result (λ found. IfSome found (λ b. sha256 b.items ≡ digest)) }
        ensures held { KeepsRecords holds self.old self.new }
        ensures found { OnOk result (KeepsFound is_clean finds self.old self.new) }
        ensures end { is_at_end self.old → is_at_end self.new }
        ensures running { OnOk result (is_stopped self.new ≡ false) };

    /// Keeps an item by itself in the file of a number, counted from 0, unless that one keeps it
    /// already: for a record there that came without it. `false` where the file is a later one.
    /// Fails where the file isn't opened, and where the item isn't kept.
    fn put_item(&mut self, alloc: Global, number: usize, item: &[u8]) -> Result<bool, Self::Fault>
        requires running { is_stopped self.old ≡ false }
        ensures held { KeepsRecords holds self.old self.new }
        ensures end { is_at_end self.old → is_at_end self.new }
        ensures running { OnOk result (is_stopped self.new ≡ false) };

    /// Reads the record of an index and a digest from the file of a number, both counted from 0.
    /// `None` where the file is a later one, or has no such record. Fails where the file isn't read,
    /// and where the record has another digest.
    fn record(
        &mut self,
        alloc: Global,
        number: usize,
        index: u32,
        digest: Digest,
    ) -> Result<Option<Vec<u8>>, Self::Fault>
        requires running { is_stopped self.old ≡ false }
        ensures hashes { IfOk result (λ found. IfSome found (λ b. sha256 b.items ≡ digest)) }
        ensures held { KeepsRecords holds self.old self.new }
        ensures end { is_at_end self.old → is_at_end self.new }
        ensures running { OnOk result (is_stopped self.new ≡ false) };

    /// Reads the record of an index from the file of a number, both counted from 0, whatever its
    /// digest. `None` where the file is a later one, or has no such record. Fails where the file
    /// isn't read.
    fn record_at(
        &mut self,
        alloc: Global,
        number: usize,
        index: u32,
    ) -> Result<Option<Vec<u8>>, Self::Fault>
        requires running { is_stopped self.old ≡ false }
        ensures held { KeepsRecords holds self.old self.new }
        ensures end { is_at_end self.old → is_at_end self.new }
        ensures running { OnOk result (is_stopped self.new ≡ false) };

    /// Shuts all files, and gives them up. Fails at the first one that isn't shut; the others are left
    /// as they are.
    fn close(self) -> Result<(), Self::Fault>;
}
