// A book's keeper over what keeps its records in files.
ghost use Rattle.std.specs.Prelude.{◌≡◌, ◌≢◌, [], true, false, None, Some, Ok, length, slice_get, option_map};
ghost use Rattle.std.specs.Prelude.{List, ℕ, IfOk, IfSome, OnOk, OnErr};
ghost use Rattle.sha2.specs.Sha256.{sha256};
ghost use Rattle.su_vault.specs.Records.{KeepsRecords, AddsRecord, KeepsFound, FindsNext, TakesFound, kept_with};

use crate::ahead::{AHEAD, Ahead};
use crate::fills::Fill;
use crate::items::{change_of, release_item, share};
use crate::lacking::{LackingItem, LackingItems};
use crate::numbers::Numbers;
use std::alloc::{AllocError, Global};
use std::collections::BTreeMap;
use std::sync::Wait;
use su_block::{digest_of, is_item};
use su_bytes::Digest;
use su_keeper::{Keeper, NotKept};
use su_shared_items::SharedBlocks;
use su_vault::Vault;

/// Keeps the records of a book in a vault, each with the item of its change, which need not stay then
/// among the items that the server's threads share. The records that the vault was found with go back into the
/// book one by one, and their items among the shared ones. It begins with none in the book. It notes
/// the items that are lacking, and they can be filled in.
#[derive(Drop)]
pub struct Archive<'a, V: Vault, R: Wait> {
    vault: V,
    fill: Fill,
    // which file has the item of a digest
    places: BTreeMap<[u8; 32], usize>,
    // Items of changes that no file has. One that a file has counts as there for all records, since
    // it is read from that file. A start looks for the item of a record in the file of that record
    // alone; it finds each that is kept, as an item is only put into a file with a record that needs
    // it. So what is noted here until another file is seen to have it is lacking once all is taken up.
    lacking: LackingItems,
    numbers: Numbers,
    asked: usize,
    fault: Option<V::Fault>,
    blocks: &'a SharedBlocks,
    rt: &'a R,
}

impl<'a, V: Vault, R: Wait> Archive<'a, V, R> {
    /// Makes the keeper of a book that has no record yet, over a vault of which no record stands in
    /// it. A file is full with this many bytes of records and items, or with as many records as the
    /// vault says; then the vault begins the next one.
    pub fn new(
        rt: &'a R,
        alloc: Global,
        vault: V,
        limit: usize,
        blocks: &'a SharedBlocks,
    ) -> Archive<'a, V, R>
        requires begun { V.holds vault [] }
        ensures begun { V.holds result.vault [] }
        ensures vault { result.vault ≡ vault }
    {
        Archive {
            vault,
            fill: Fill::new(limit),
            places: BTreeMap::new(alloc),
            lacking: LackingItems::new(alloc),
            numbers: Numbers::new(alloc),
            asked: 0,
            fault: None,
            blocks,
            rt,
        }
    }

    /// Returns the fault of the call that failed, if one did: what to do about the file.
    pub fn fault(&self) -> Option<&V::Fault> {
        self.fault.as_ref()
    }

    /// The number of the file that was asked last, counted from 0.
    pub fn number(&self) -> usize {
        self.asked
    }

    /// How many items are lacking: those of the changes of records that were taken up or kept so far,
    /// which none of the files so far has.
    pub fn lacking(&self) -> usize
        ensures { result ≡ length self.now.lacking }
    {
        self.lacking.len()
    }

    /// The digest of the lacking item of an index, from 0. `None` where no more than so many are.
    pub fn lacking_item(&self, index: usize) -> Option<Digest>
        ensures { result ≡ option_map (λ item. item.0) (slice_get self.now.lacking index) }
    {
        match self.lacking.get(index) {
            Some(item) => Some(item.digest),
            None => None,
        }
    }

    /// Keeps the lacking item of an index, in the file of the first record that needs it. It isn't
    /// lacking any more, and the last one has its index. Does nothing where there is no such index,
    /// and where these bytes have another digest or are no item: not 1 to 70,000 bytes. Fails where
    /// the file isn't opened or doesn't keep it, of which `fault` tells, and after each failure.
    pub fn fill(&mut self, alloc: Global, index: usize, item: &[u8]) -> Result<(), NotKept>
        ensures held { KeepsRecords V.holds self.old.vault self.new.vault }
        ensures other { (digest : List ℕ)
            → option_map (λ item. item.0) (slice_get self.old.lacking index) ≡ Some digest
            → sha256 item.now ≢ digest → self.new ≡ self.old }
    {
        if self.vault.is_halted() {
            return Err(NotKept);
        }
        let Some(lacking) = self.lacking.get(index) else {
            return Ok(());
        };
        if digest_of(item) != lacking.digest || !is_item(item) {
            return Ok(());
        }
        match self.put_item(alloc, &lacking, item) {
            Ok(()) => Ok(()),
            Err(fault) => Err(self.fail(fault)),
        }
    }

    /// Keeps an item in the file of the first record that needs it.
    fn put_item(
        &mut self,
        alloc: Global,
        lacking: &LackingItem,
        item: &[u8],
    ) -> Result<(), V::Fault>
        requires running { V.is_stopped self.old.vault ≡ false }
        ensures held { KeepsRecords V.holds self.old.vault self.new.vault }
    {
        self.asked = lacking.number;
        if !self.vault.put_item(alloc, self.asked, item)? {
            return Ok(());
        }
        if self.asked == self.vault.number() {
            self.fill.count(item.len());
        }
        self.put_place(lacking.digest)?;
        Ok(())
    }

    /// Hands the vault back.
    pub fn into_vault(self) -> V
        ensures { result ≡ self.entry.vault }
    {
        let Archive {
            vault,
            fill: _,
            places: _places,
            lacking: _lacking,
            numbers: _numbers,
            asked: _,
            fault: _fault,
            blocks: _,
            rt: _,
        } = self;
        vault
    }

    /// Shuts all files, and gives them up. Fails at the first one that isn't shut; the others are left
    /// as they are.
    pub fn close(self) -> Result<(), V::Fault> {
        self.vault.close()
    }

    /// Stops for a fault.
    fn fail(&mut self, fault: V::Fault) -> NotKept
        ensures held { KeepsRecords V.holds self.old.vault self.new.vault }
        ensures end { V.is_at_end self.old.vault → V.is_at_end self.new.vault }
    {
        self.vault.halt();
        self.fault = Some(fault);
        NotKept
    }

    /// Shares the item of a commit's change, where the current file has it; where no file has it so
    /// far, it is lacking. A block that is no item is left out: no client can have put it.
    fn share_item(&mut self, alloc: Global, commit: &[u8]) -> Result<(), V::Fault>
        requires running { V.is_stopped self.old.vault ≡ false }
        ensures held { KeepsRecords V.holds self.old.vault self.new.vault }
        ensures found { OnOk result
            (KeepsFound V.is_clean V.finds self.old.vault self.new.vault) }
        ensures end { V.is_at_end self.old.vault → V.is_at_end self.new.vault }
    {
        self.fill.find(commit.len());
        let Some(digest) = change_of(alloc, commit)? else {
            return Ok(());
        };
        let Some(item) = self.vault.item(alloc, self.asked, digest)? else {
            self.note_lacking(digest)?;
            return Ok(());
        };
        self.fill.find(commit.len().saturating_add(item.len()));
        self.put_place(digest)?;
        share(self.rt, alloc, self.blocks, item.as_slice())?;
        Ok(())
    }

    /// Reads the first record that doesn't stand in the book, if there is one, and shares the item
    /// of its change.
    fn read_next(&mut self, alloc: Global) -> Result<Option<Vec<u8>>, V::Fault>
        requires running { V.is_stopped self.old.vault ≡ false }
        ensures held { KeepsRecords V.holds self.old.vault self.new.vault }
        ensures found { IfOk result (λ next. FindsNext V.is_clean V.finds self.old.vault
            (option_map (λ commit. commit.items) next) self.new.vault) }
        ensures end { IfOk result (λ found. found ≡ None → V.is_at_end self.new.vault) }
    {
        let found = self.vault.next(alloc);
        self.asked = self.vault.number();
        let found = found?;
        self.turn()?;
        let Some(commit) = found else {
            return Ok(None);
        };
        self.share_item(alloc, commit.as_slice())?;
        Ok(Some(commit))
    }

    /// Turns to the current file.
    fn turn(&mut self) -> Result<(), V::Fault>
        ensures { self.new.vault ≡ self.old.vault }
    {
        self.asked = self.vault.number();
        self.fill.turn_to(self.asked);
        self.numbers.turn_to(self.asked)?;
        Ok(())
    }

    /// Begins a new file where the last one is full.
    fn make_room(&mut self) -> Result<(), V::Fault>
        requires running { V.is_stopped self.old.vault ≡ false }
        requires end { V.is_at_end self.old.vault }
        ensures held { KeepsRecords V.holds self.old.vault self.new.vault }
        ensures found { OnOk result
            (KeepsFound V.is_clean V.finds self.old.vault self.new.vault) }
        ensures running { OnOk result (V.is_stopped self.new.vault ≡ false) }
        ensures end { V.is_at_end self.new.vault }
    {
        if !self.fill.is_full() && !self.vault.is_full() {
            return Ok(());
        }
        self.asked = self.asked.saturating_add(1);
        self.vault.begin()?;
        self.turn()?;
        Ok(())
    }

    /// Puts the record behind those of the last file, with the items that it needs: that of its
    /// change, if there is one to keep, which need not stay in memory from then on.
    fn keep_new(&mut self, alloc: Global, commit: &[u8], items: &[Vec<u8>]) -> Result<(), V::Fault>
        requires running { V.is_stopped self.old.vault ≡ false }
        requires end { V.is_at_end self.old.vault }
        ensures kept { OnOk result (AddsRecord V.holds self.old.vault self.new.vault
            (kept_with commit.now items.now)) }
        ensures held { OnErr result (KeepsRecords V.holds self.old.vault self.new.vault) }
        ensures found { OnOk result
            (TakesFound V.is_clean V.finds self.old.vault commit.now self.new.vault) }
        ensures end { V.is_at_end self.new.vault }
    {
        let change = change_of(alloc, commit)?;
        self.make_room()?;
        self.note(commit, change.as_ref(), items)?;
        self.vault.append(commit, items)?;
        release_item(self.rt, alloc, self.blocks, change.as_ref(), items);
        Ok(())
    }

    /// Notes that the item of a digest is in the file that was asked last.
    fn put_place(&mut self, digest: Digest) -> Result<(), AllocError>
        ensures { self.new.vault ≡ self.old.vault }
    {
        self.lacking.take_out(&digest);
        match self.places.insert(*digest.as_bytes(), self.asked) {
            Ok(_) => Ok(()),
            Err(refused) => Err(AllocError::from(refused)),
        }
    }

    /// Notes that the file that was asked last hasn't got the item of a digest, though a record
    /// there needs it, unless another file has it.
    fn note_lacking(&mut self, digest: Digest) -> Result<(), AllocError>
        ensures { self.new.vault ≡ self.old.vault }
    {
        if self.places.contains_key(digest.as_bytes()) {
            return Ok(());
        }
        self.lacking.add(LackingItem {
            digest,
            number: self.asked,
        })
    }

    /// Counts the bytes of a record and its item, and notes in which file the item is, or that it is
    /// lacking.
    fn note(
        &mut self,
        commit: &[u8],
        change: Option<&Digest>,
        items: &[Vec<u8>],
    ) -> Result<(), V::Fault>
        ensures { self.new.vault ≡ self.old.vault }
    {
        self.fill.count(commit.len());
        let Some(digest) = change else {
            return Ok(());
        };
        let Some(item) = items.first() else {
            self.note_lacking(*digest)?;
            return Ok(());
        };
        self.fill.count(item.len());
        self.put_place(*digest)?;
        Ok(())
    }

    /// Keeps one more record: one that was found, with which no items come, or a new one. `false`
    /// where items come with one that was found.
    fn keep_next(
        &mut self,
        alloc: Global,
        commit: &[u8],
        items: &[Vec<u8>],
    ) -> Result<bool, V::Fault>
        requires running { V.is_stopped self.old.vault ≡ false }
        ensures kept { result ≡ Ok true → AddsRecord V.holds self.old.vault self.new.vault
            (kept_with commit.now items.now) }
        ensures held { result ≢ Ok true → KeepsRecords V.holds self.old.vault self.new.vault }
        ensures found { result ≡ Ok true
            → TakesFound V.is_clean V.finds self.old.vault commit.now self.new.vault }
        ensures end { V.is_at_end self.old.vault → V.is_at_end self.new.vault }
    {
        self.vault.take_up(alloc)?;
        self.turn()?;
        if !self.vault.has_next() {
            self.keep_new(alloc, commit, items)?;
            return Ok(true);
        }
        if !items.is_empty() {
            return Ok(false);
        }
        self.vault.keep_found(commit)?;
        self.fill.count_found();
        Ok(true)
    }

    /// Reads the item of a digest from the file that has it, if one does.
    fn read_item(&mut self, alloc: Global, digest: Digest) -> Result<Option<Vec<u8>>, V::Fault>
        requires running { V.is_stopped self.old.vault ≡ false }
        ensures hashes { IfOk result (λ found. IfSome found (λ b. sha256 b.items ≡ digest)) }
        ensures held { KeepsRecords V.holds self.old.vault self.new.vault }
        ensures end { V.is_at_end self.old.vault → V.is_at_end self.new.vault }
    {
        let Some(number) = self.places.get(digest.as_bytes()) else {
            return Ok(None);
        };
        self.asked = *number;
        self.vault.item(alloc, self.asked, digest)
    }

    /// Reads the record of a number, from 1, of those that stand in the book: the one that has this
    /// digest. `None` where there is no such number. Of a past file its item comes along, and the
    /// records behind it with theirs, among the shared items.
    fn read_record(
        &mut self,
        alloc: Global,
        number: u64,
        digest: Digest,
    ) -> Result<Option<Vec<u8>>, V::Fault>
        requires running { V.is_stopped self.old.vault ≡ false }
        ensures hashes { IfOk result (λ found. IfSome found (λ b. sha256 b.items ≡ digest)) }
        ensures held { KeepsRecords V.holds self.old.vault self.new.vault }
        ensures end { V.is_at_end self.old.vault → V.is_at_end self.new.vault }
    {
        let Some((file, index)) = self.numbers.find(number) else {
            return Ok(None);
        };
        self.asked = file;
        let found = self.vault.record(alloc, file, index, digest)?;
        if file != self.vault.number() {
            let ahead = self.read_ahead(alloc, index)?;
            ahead.share(self.rt, alloc, self.blocks);
        }
        Ok(found)
    }

    /// Reads the record of an index in the file that was asked last and those behind it, as many as
    /// come along, each with the item of its change, if the file has that.
    fn read_ahead(&mut self, alloc: Global, index: u32) -> Result<Ahead, V::Fault>
        requires running { V.is_stopped self.old.vault ≡ false }
        ensures held { KeepsRecords V.holds self.old.vault self.new.vault }
        ensures end { V.is_at_end self.old.vault → V.is_at_end self.new.vault }
    {
        let mut ahead = Ahead::new(alloc);
        for next in index..index.saturating_add(AHEAD + 1) {
            if ahead.is_enough() || !self.push_record(alloc, next, &mut ahead)? {
                return Ok(ahead);
            }
        }
        Ok(ahead)
    }

    /// Puts the record of an index in the file that was asked last, and the item of its change, if
    /// the file has that, behind what is read ahead. `false` where there is no such record.
    fn push_record(
        &mut self,
        alloc: Global,
        index: u32,
        ahead: &mut Ahead,
    ) -> Result<bool, V::Fault>
        requires running { V.is_stopped self.old.vault ≡ false }
        ensures held { KeepsRecords V.holds self.old.vault self.new.vault }
        ensures end { V.is_at_end self.old.vault → V.is_at_end self.new.vault }
        ensures running { OnOk result (V.is_stopped self.new.vault ≡ false) }
    {
        let Some(commit) = self.vault.record_at(alloc, self.asked, index)? else {
            return Ok(false);
        };
        let change = change_of(alloc, commit.as_slice())?;
        ahead.push(commit)?;
        let Some(digest) = change else {
            return Ok(true);
        };
        if let Some(item) = self.vault.item(alloc, self.asked, digest)? {
            ahead.push(item)?;
        }
        Ok(true)
    }
}

impl<'a, V: Vault, R: Wait> Keeper for Archive<'a, V, R> {
    ghost use Rattle.std.specs.Prelude.{⊤, true};

    ghost holds = { λ a. V.holds a.vault };

    ghost found = { λ a. V.finds a.vault };

    ghost is_at_end = { λ a. V.is_at_end a.vault };

    ghost is_clean = { λ a. V.is_clean a.vault };

    ghost may_fail = { ⊤ };

    ghost reads_back = { true };

    fn keep(&mut self, alloc: Global, commit: &[u8], items: &[Vec<u8>]) -> Result<(), NotKept> {
        if self.vault.is_halted() {
            return Err(NotKept);
        }
        match self.keep_next(alloc, commit, items) {
            Ok(true) => {
                self.numbers.count_one();
                Ok(())
            }
            Ok(false) => {
                self.vault.halt();
                Err(NotKept)
            }
            Err(fault) => Err(self.fail(fault)),
        }
    }

    fn next(&mut self, alloc: Global) -> Result<Option<Vec<u8>>, NotKept> {
        if self.vault.is_halted() {
            return Err(NotKept);
        }
        match self.read_next(alloc) {
            Ok(found) => Ok(found),
            Err(fault) => Err(self.fail(fault)),
        }
    }

    fn gives_back() -> bool {
        true
    }

    fn record(
        &mut self,
        alloc: Global,
        number: u64,
        digest: Digest,
    ) -> Result<Option<Vec<u8>>, NotKept> {
        if self.vault.is_halted() {
            return Err(NotKept);
        }
        match self.read_record(alloc, number, digest) {
            Ok(found) => Ok(found),
            Err(fault) => Err(self.fail(fault)),
        }
    }

    fn item(&mut self, alloc: Global, digest: Digest) -> Result<Option<Vec<u8>>, NotKept> {
        if self.vault.is_halted() {
            return Err(NotKept);
        }
        match self.read_item(alloc, digest) {
            Ok(found) => Ok(found),
            Err(fault) => Err(self.fail(fault)),
        }
    }

    fn stop(&mut self) {
        self.vault.halt();
    }
}
