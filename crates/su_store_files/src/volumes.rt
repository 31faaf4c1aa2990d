// The files of a vault in their order.
ghost use Rattle.std.specs.Prelude.{◌≡◌, ◌<◌, ◌+◌, ◌++◌, ◌∷◌, [], false, None, IsTrue, IfOk, IfSome, List, ℕ, OnOk, OnErr, option_map, option_to_list, length};
ghost use Rattle.std.specs.List.{All, AllZip};
ghost use Rattle.sha2.specs.Sha256.{sha256};
ghost use Rattle.su_keeper.specs.Kept.{KeptRecord};
ghost use Rattle.su_vault.specs.Records.{KeepsRecords, AddsRecord, LeavesLast, KeepsFound, FindsNext, TakesFound, kept_with, found_alone};

use crate::past::PastFiles;
use crate::turns::keep_found;
use sha2::Sha256;
use std::alloc::Global;
use std::mem;
use su_bytes::Digest;
use su_vault::{Shelf, Volume, VolumeFault};

/// The files that a vault was found with, none of whose records stands in the book: the first one,
/// as its open left it, and those behind it, the next of them last.
#[derive(Drop)]
pub struct Opened<V: Volume> {
    pub first: V,
    pub later: Vec<V>,
}

/// The files of a vault: those whose records all stand in the book, the one whose records are taken
/// up or kept now, and those whose turn comes later, the next of them last. Once a call has failed
/// no more are kept.
#[derive(Drop)]
pub struct Volumes<V: Volume> {
    pub(crate) past: PastFiles<V>,
    pub(crate) current: V,
    pub(crate) later: Vec<V>,
    pub(crate) kept: u32,
    pub(crate) is_halted: bool,
}

impl<V: Volume> Volumes<V> {
    ghost use Rattle.su_store_files.specs.Volumes.{WereFound, WereSound, WasSound, halted, in_turn};
    ghost use Rattle.su_store_files.specs.Volumes.{IsThrough, IsAtEnd, HoldsInTurn, FindsInTurn, AreClean};

    /// Begins with these files.
    pub fn new(alloc: Global, files: Opened<V>) -> Volumes<V>
        ensures held { WereSound V.Volume files → HoldsInTurn V.Volume result [] }
        ensures found { (commits : List (List ℕ)) → WereFound V.Volume files commits
            → FindsInTurn V.Volume result commits }
    {
        let Opened { first, later } = files;
        Volumes {
            past: PastFiles::new(alloc),
            current: first,
            later,
            kept: 0,
            is_halted: false,
        }
    }

    /// Shuts all files, each with all that it keeps copied from its log, and gives them up. After a
    /// failure the others are left as they are.
    pub fn close(self) -> Result<(), V::Fault> {
        let Volumes {
            past,
            current,
            later: _later,
            kept: _,
            is_halted: _,
        } = self;
        match current.close() {
            Ok(()) => past.close(),
            Err(fault) => Err(fault),
        }
    }

    /// The number of the current file, counted from 0.
    pub fn number(&self) -> usize {
        self.past.len()
    }

    /// Whether no more are kept.
    pub fn is_halted(&self) -> bool
        ensures { result ≡ self.now.is_halted }
    {
        self.is_halted
    }

    /// Keeps no more from now on. The last record that was kept need not stand in the book.
    pub fn halt(&mut self)
        ensures same { self.new ≡ halted self.old }
        ensures held { KeepsRecords (HoldsInTurn V.Volume) self.old self.new }
        ensures last { LeavesLast (HoldsInTurn V.Volume) self.old self.new }
        ensures end { IsAtEnd V.Volume self.old → IsAtEnd V.Volume self.new }
    {
        self.is_halted = true;
    }

    /// Whether as many records of the current file stand in the book as a file may have.
    pub fn is_full(&self) -> bool {
        self.current.is_full()
    }

    /// Whether a record of the current file doesn't stand in the book yet.
    pub fn has_next(&self) -> bool
        ensures through { result ≡ false → IsThrough V.Volume self.now }
        ensures more { IsTrue result → self.now.kept < V.count self.now.current }
    {
        self.kept < self.current.len()
    }

    /// Shuts the current file, whose records all stand in the book.
    fn settle(&mut self) -> Result<(), V::Fault>
        requires running { self.old.is_halted ≡ false }
        requires through { IsThrough V.Volume self.old }
        ensures held { KeepsRecords (HoldsInTurn V.Volume) self.old self.new }
        ensures shut { V.count self.new.current ≡ 0 }
        ensures same { OnOk result
            (self.new ≡ record self.old { current = self.new.current }) }
        ensures later { self.new.later ≡ self.old.later }
        ensures clean { OnOk result (V.is_clean self.new.current → V.is_clean self.old.current) }
    {
        match self.current.shut() {
            Ok(()) => Ok(()),
            Err(fault) => {
                self.halt();
                Err(fault)
            }
        }
    }

    /// Puts a file, of which no record stands in the book yet, in the place of the current one, which
    /// is a past one then.
    fn push(&mut self, file: V) -> Result<(), V::Fault>
        requires running { self.old.is_halted ≡ false }
        requires shut { V.count self.old.current ≡ 0 }
        ensures held { V.counts file 0 []
            → OnOk result (KeepsRecords (HoldsInTurn V.Volume) self.old self.new) }
        ensures same { OnErr result (KeepsRecords (HoldsInTurn V.Volume) self.old self.new) }
        ensures later { self.new.later ≡ self.old.later }
        ensures running { self.new.is_halted ≡ false }
        ensures current { OnOk result ((self.new.current ≡ file) × (self.new.kept ≡ 0)) }
        ensures old { OnErr result ((self.new.current ≡ self.old.current)
            × (self.new.kept ≡ self.old.kept)) }
        ensures clean { OnOk result (All V.is_clean self.new.past.places.items
            → All V.is_clean self.old.past.places.items × V.is_clean self.old.current) }
    {
        match self.past.push(mem::replace(&mut self.current, file)) {
            Ok(()) => {
                self.kept = 0;
                Ok(())
            }
            Err(place) => {
                self.current = place;
                Err(V::fault_for(VolumeFault::NoMemory))
            }
        }
    }

    /// Goes on with another file, of which no record stands in the book yet.
    fn go_on(&mut self, file: V) -> Result<(), V::Fault>
        requires running { self.old.is_halted ≡ false }
        requires shut { V.count self.old.current ≡ 0 }
        ensures held { V.counts file 0 []
            → KeepsRecords (HoldsInTurn V.Volume) self.old self.new }
        ensures later { self.new.later ≡ self.old.later }
        ensures running { OnOk result (self.new.is_halted ≡ false) }
        ensures current { OnOk result ((self.new.current ≡ file) × (self.new.kept ≡ 0)) }
        ensures old { OnErr result ((self.new.current ≡ self.old.current)
            × (self.new.kept ≡ self.old.kept)) }
        ensures clean { OnOk result (All V.is_clean self.new.past.places.items
            → All V.is_clean self.old.past.places.items × V.is_clean self.old.current) }
    {
        match self.push(file) {
            Ok(()) => Ok(()),
            Err(fault) => {
                self.halt();
                Err(fault)
            }
        }
    }

    /// Takes the next of the later files.
    fn take_next(&mut self) -> Option<V>
        ensures held { KeepsRecords (HoldsInTurn V.Volume) self.old self.new }
        ensures sound { (records : List KeptRecord) → HoldsInTurn V.Volume self.old records
            → IfSome result (WasSound V.Volume) }
        ensures same { self.new ≡ record self.old { later = self.new.later } }
        ensures taken { self.old.later.items ≡ self.new.later.items ++ option_to_list result }
        ensures none { result ≡ None → self.old.later.items ≡ [] }
    {
        self.later.pop()
    }

    /// Goes on with the next of the later files, if there is one.
    fn advance(&mut self, alloc: Global) -> Result<(), V::Fault>
        requires running { self.old.is_halted ≡ false }
        requires through { IsThrough V.Volume self.old }
        requires more { 0 < length self.old.later.items }
        ensures held { KeepsRecords (HoldsInTurn V.Volume) self.old self.new }
        ensures running { OnOk result (self.new.is_halted ≡ false) }
        ensures found { OnOk result
            (KeepsFound (AreClean V.Volume) (FindsInTurn V.Volume) self.old self.new) }
    {
        self.settle()?;
        let Some(next) = self.take_next() else {
            return Ok(());
        };
        let mut next = next;
        match next.open(alloc) {
            Ok(()) => self.go_on(next),
            Err(fault) => {
                self.halt();
                Err(fault)
            }
        }
    }

    /// Goes on with a new file. `Foreign` where it isn't an empty one.
    pub fn begin<H: Shelf<V>>(&mut self, shelf: &mut H) -> Result<(), V::Fault>
        requires running { self.old.is_halted ≡ false }
        requires end { IsAtEnd V.Volume self.old }
        ensures held { KeepsRecords (HoldsInTurn V.Volume) self.old self.new }
        ensures running { OnOk result (self.new.is_halted ≡ false) }
        ensures end { IsAtEnd V.Volume self.new }
        ensures found { OnOk result
            (KeepsFound (AreClean V.Volume) (FindsInTurn V.Volume) self.old self.new) }
    {
        self.settle()?;
        let file = match shelf.make(self.past.len().saturating_add(1)) {
            Ok(file) => file,
            Err(fault) => {
                self.halt();
                return Err(fault);
            }
        };
        if file.len() != 0 {
            self.halt();
            return Err(V::fault_for(VolumeFault::Foreign));
        }
        self.go_on(file)
    }

    /// Takes up the next file, if all records of the current one stand in the book. An empty one is
    /// taken up only as the last: `DamagedRecord` where there is another behind it.
    pub fn take_up(&mut self, alloc: Global) -> Result<(), V::Fault>
        requires running { self.old.is_halted ≡ false }
        ensures held { KeepsRecords (HoldsInTurn V.Volume) self.old self.new }
        ensures running { OnOk result (self.new.is_halted ≡ false) }
        ensures last { OnOk result (IsThrough V.Volume self.new → self.new.later.items ≡ []) }
        ensures end { IsAtEnd V.Volume self.old → IsAtEnd V.Volume self.new }
        ensures found { OnOk result
            (KeepsFound (AreClean V.Volume) (FindsInTurn V.Volume) self.old self.new) }
    {
        if self.has_next() || self.later.is_empty() {
            return Ok(());
        }
        self.advance(alloc)?;
        if !self.has_next() && !self.later.is_empty() {
            self.halt();
            return Err(V::fault_for(VolumeFault::DamagedRecord(0)));
        }
        Ok(())
    }

    /// Reads the first record that doesn't stand in the book, if there is one.
    pub fn next(&mut self, alloc: Global) -> Result<Option<Vec<u8>>, V::Fault>
        requires running { self.old.is_halted ≡ false }
        ensures held { KeepsRecords (HoldsInTurn V.Volume) self.old self.new }
        ensures found { IfOk result (λ found. IfSome found (λ b. (records : List KeptRecord)
            → V.counts self.new.current self.new.kept records
            → V.counts self.new.current (self.new.kept + 1)
            (records ++ found_alone b.items ∷ []))) }
        ensures next { IfOk result (λ next. FindsNext (AreClean V.Volume) (FindsInTurn V.Volume)
            self.old (option_map (λ commit. commit.items) next) self.new) }
        ensures end { IfOk result (λ found. found ≡ None → IsAtEnd V.Volume self.new) }
        ensures running { OnOk result (self.new.is_halted ≡ false) }
    {
        self.take_up(alloc)?;
        match self.current.record(self.kept) {
            Ok(found) => Ok(found),
            Err(fault) => {
                self.is_halted = true;
                Err(fault)
            }
        }
    }

    /// Takes the next record of the current file for one that stands in the book. `OtherRecord`
    /// where it isn't this one, or there is none.
    pub fn keep_found(&mut self, commit: &[u8]) -> Result<(), V::Fault>
        requires running { self.old.is_halted ≡ false }
        ensures kept { OnOk result
            (AddsRecord (HoldsInTurn V.Volume) self.old self.new (found_alone commit.now)) }
        ensures held { OnErr result (KeepsRecords (HoldsInTurn V.Volume) self.old self.new) }
        ensures found { OnOk result (TakesFound (AreClean V.Volume) (FindsInTurn V.Volume)
            self.old commit.now self.new) }
        ensures running { OnOk result (self.new.is_halted ≡ false) }
        ensures end { IsAtEnd V.Volume self.old → IsAtEnd V.Volume self.new }
    {
        if self.current.len() <= self.kept {
            self.halt();
            return Err(V::fault_for(VolumeFault::OtherRecord(self.kept)));
        }
        match keep_found(&mut self.current, self.kept, commit) {
            Ok(kept) => {
                self.kept = kept;
                Ok(())
            }
            Err(fault) => {
                self.is_halted = true;
                Err(fault)
            }
        }
    }

    /// Puts a record behind those of the last file, with the items that it needs. `Full` at the
    /// most records of a file.
    pub fn append(&mut self, commit: &[u8], items: &[Vec<u8>]) -> Result<(), V::Fault>
        requires running { self.old.is_halted ≡ false }
        requires end { IsAtEnd V.Volume self.old }
        ensures kept { OnOk result (AddsRecord (HoldsInTurn V.Volume) self.old self.new
            (kept_with commit.now items.now)) }
        ensures held { OnErr result (KeepsRecords (HoldsInTurn V.Volume) self.old self.new) }
        ensures found { OnOk result (TakesFound (AreClean V.Volume) (FindsInTurn V.Volume)
            self.old commit.now self.new) }
        ensures end { IsAtEnd V.Volume self.new }
    {
        match self.current.append(commit, items) {
            Ok(()) => {
                self.kept = self.current.len();
                Ok(())
            }
            Err(fault) => {
                self.is_halted = true;
                Err(fault)
            }
        }
    }

    /// Reads the item of a digest from the file of a number, counted from 0. `None` where it is a
    /// later one.
    pub fn item(
        &mut self,
        alloc: Global,
        number: usize,
        digest: Digest,
    ) -> Result<Option<Vec<u8>>, V::Fault>
        requires running { self.old.is_halted ≡ false }
        ensures hashes { IfOk result (λ found. IfSome found (λ b. sha256 b.items ≡ digest)) }
        ensures held { KeepsRecords (HoldsInTurn V.Volume) self.old self.new }
        ensures found { OnOk result
            (KeepsFound (AreClean V.Volume) (FindsInTurn V.Volume) self.old self.new) }
        ensures end { IsAtEnd V.Volume self.old → IsAtEnd V.Volume self.new }
        ensures running { OnOk result (self.new.is_halted ≡ false) }
    {
        if number != self.past.len() {
            return self.past_item(alloc, number, digest);
        }
        match self.current.item(digest) {
            Ok(found) => Ok(found),
            Err(fault) => {
                self.is_halted = true;
                Err(fault)
            }
        }
    }

    /// The same, for a past file.
    fn past_item(
        &mut self,
        alloc: Global,
        number: usize,
        digest: Digest,
    ) -> Result<Option<Vec<u8>>, V::Fault>
        requires running { self.old.is_halted ≡ false }
        ensures hashes { IfOk result (λ found. IfSome found (λ b. sha256 b.items ≡ digest)) }
        ensures held { KeepsRecords (HoldsInTurn V.Volume) self.old self.new }
        ensures found { OnOk result
            (KeepsFound (AreClean V.Volume) (FindsInTurn V.Volume) self.old self.new) }
        ensures end { IsAtEnd V.Volume self.old → IsAtEnd V.Volume self.new }
        ensures running { OnOk result (self.new.is_halted ≡ false) }
    {
        match self.past.item(alloc, number, digest) {
            Ok(found) => Ok(found),
            Err(fault) => {
                self.halt();
                Err(fault)
            }
        }
    }

    /// Keeps an item in the file of a number, counted from 0, unless that one keeps it already.
    /// `false` where it is a later one.
    pub fn put_item(&mut self, alloc: Global, number: usize, item: &[u8]) -> Result<bool, V::Fault>
        requires running { self.old.is_halted ≡ false }
        ensures held { KeepsRecords (HoldsInTurn V.Volume) self.old self.new }
        ensures end { IsAtEnd V.Volume self.old → IsAtEnd V.Volume self.new }
        ensures running { OnOk result (self.new.is_halted ≡ false) }
    {
        if number != self.past.len() {
            return self.put_past_item(alloc, number, item);
        }
        match self.current.put_item(item) {
            Ok(()) => Ok(true),
            Err(fault) => {
                self.is_halted = true;
                Err(fault)
            }
        }
    }

    /// The same, for a past file.
    fn put_past_item(&mut self, alloc: Global, number: usize, item: &[u8]) -> Result<bool, V::Fault>
        requires running { self.old.is_halted ≡ false }
        ensures held { KeepsRecords (HoldsInTurn V.Volume) self.old self.new }
        ensures end { IsAtEnd V.Volume self.old → IsAtEnd V.Volume self.new }
        ensures running { OnOk result (self.new.is_halted ≡ false) }
    {
        match self.past.put_item(alloc, number, item) {
            Ok(is_put) => Ok(is_put),
            Err(fault) => {
                self.halt();
                Err(fault)
            }
        }
    }

    /// Reads the record of an index and a digest from the file of a number, both counted from 0.
    /// `None` where the file is a later one, or has no such record. `DamagedRecord` where the one
    /// that it has has another digest.
    pub fn record(
        &mut self,
        alloc: Global,
        number: usize,
        index: u32,
        digest: Digest,
    ) -> Result<Option<Vec<u8>>, V::Fault>
        requires running { self.old.is_halted ≡ false }
        ensures hashes { IfOk result (λ found. IfSome found (λ b. sha256 b.items ≡ digest)) }
        ensures held { KeepsRecords (HoldsInTurn V.Volume) self.old self.new }
        ensures end { IsAtEnd V.Volume self.old → IsAtEnd V.Volume self.new }
        ensures running { OnOk result (self.new.is_halted ≡ false) }
    {
        let found = self.record_at(alloc, number, index)?;
        if let Some(commit) = &found {
            if <Sha256 as sha2::Digest>::digest(commit.as_slice()) != *digest.as_bytes() {
                self.halt();
                return Err(V::fault_for(VolumeFault::DamagedRecord(index)));
            }
        }
        Ok(found)
    }

    /// Reads the record of an index from the file of a number, both counted from 0, whatever its
    /// digest. `None` where the file is a later one, or has no such record.
    pub fn record_at(
        &mut self,
        alloc: Global,
        number: usize,
        index: u32,
    ) -> Result<Option<Vec<u8>>, V::Fault>
        requires running { self.old.is_halted ≡ false }
        ensures held { KeepsRecords (HoldsInTurn V.Volume) self.old self.new }
        ensures end { IsAtEnd V.Volume self.old → IsAtEnd V.Volume self.new }
        ensures running { OnOk result (self.new.is_halted ≡ false) }
    {
        if number != self.past.len() {
            return self.past_record(alloc, number, index);
        }
        match self.current.record(index) {
            Ok(found) => Ok(found),
            Err(fault) => {
                self.is_halted = true;
                Err(fault)
            }
        }
    }

    /// The same, for a past file.
    fn past_record(
        &mut self,
        alloc: Global,
        number: usize,
        index: u32,
    ) -> Result<Option<Vec<u8>>, V::Fault>
        requires running { self.old.is_halted ≡ false }
        ensures held { KeepsRecords (HoldsInTurn V.Volume) self.old self.new }
        ensures end { IsAtEnd V.Volume self.old → IsAtEnd V.Volume self.new }
        ensures running { OnOk result (self.new.is_halted ≡ false) }
    {
        match self.past.record(alloc, number, index) {
            Ok(found) => Ok(found),
            Err(fault) => {
                self.halt();
                Err(fault)
            }
        }
    }
}
