// Copying the records of a server.
ghost use Rattle.std.specs.Prelude.{◌≡◌, [], ◌∷◌, true, false, All, IsTrue, IfOk, OnOk, OnErr};
ghost use Rattle.su_client.specs.Link.{Exchanged, MayGive, kept_or_nothing};
ghost use Rattle.su_message.specs.declared.requests.Request.TheVariants as request;
ghost use Rattle.su_shared.specs.Entry.{IsShown, contents};
ghost use Rattle.su_backup.specs.Copied.{OnlyItems, Keeps, StillKnows, StoresOne, CopiesOne, CopiesAll, CopiesSomeAndKeeps, IsLastOf, EndsAt};

use crate::faults::BackupFault;
use std::alloc::Global;
use std::io::{Read, Write};
use std::marker::Model;
use std::sync::Wait;
use su_block::{BlockSource, Checked, digest_of};
use su_bytes::Refusal;
use su_client::Client;
use su_keeper::Keeper;
use su_message::Bytes;
use su_shared::{BookName, Record, Seat, SharedBook};
use su_shared_items::SharedBlocks;
use su_version::Commit;

/// Copies a server's records into a shared book, from a seat that stored all that the book has, with
/// the items of their changes. Its model is that seat.
#[derive(Drop)]
pub struct Copier<'a, N: BookName, K: Keeper, T: Wait> {
    book: &'a SharedBook<N, K>,
    blocks: &'a SharedBlocks,
    seat: Seat<N, K>,
    rt: &'a T,
    alloc: Global,
}

impl<'a, N: BookName, K: Keeper, T: Wait> Model for Copier<'a, N, K, T> {
    ghost use Rattle.su_shared.specs.Seats.{SeatView};

    ghost Value = { SeatView };

    ghost view = { λ c. c.seat };
}

impl<'a, N: BookName, K: Keeper, T: Wait> Copier<'a, N, K, T> {
    /// Makes what copies into this book.
    pub fn new(
        rt: &'a T,
        alloc: Global,
        book: &'a SharedBook<N, K>,
        blocks: &'a SharedBlocks,
        seat: Seat<N, K>,
    ) -> Copier<'a, N, K, T>
        ensures { result ≡ seat }
    {
        Copier {
            book,
            blocks,
            seat,
            rt,
            alloc,
        }
    }

    /// Hands the seat back, with which the book is closed.
    pub fn into_seat(self) -> Seat<N, K>
        ensures { result ≡ self.entry }
    {
        self.seat
    }

    /// Sees that the server has the last record that the seat stored, under its number: as records
    /// are chained, it has those before it too. `OtherRecord` where it hasn't, `LinkFailed` where
    /// the link fails, `NoMemory`.
    pub fn check_last<R: Read + Drop, W: Write + Drop>(
        &mut self,
        client: &mut Checked<Client<R, W>>,
    ) -> Result<(), BackupFault>
        ensures same { OnOk result (IsLastOf K.may_fail self.old client.old.source.link
            client.new.source.link self.new) }
        ensures kept { self.new.kept ≡ self.old.kept }
    {
        let number = self.seat.kept().stored;
        if number == 0 {
            return Ok(());
        }
        let shown = fetch(client, number)?;
        match (self.book.published(&mut self.seat, number), shown) {
            (Some(held), Some(shown)) if is_shown::<K>(held, shown.as_slice()) => { Ok(()) }
            _ => Err(BackupFault::OtherRecord { number }),
        }
    }

    #[tactic(auto, using(crate::proofs::CopyLemmas::copies_none, crate::proofs::CopyLemmas::copies_more, crate::proofs::CopyLemmas::copies_kept))]
    /// Copies each record that the server has behind those that the seat stored, and returns how
    /// many there were: of each the item of its change is shared, unless the server has none, and
    /// then the record is stored. After a fault those that were stored stay. `LinkFailed` where the
    /// link fails, `WrongItem` where an item has another digest, `Refused` where the book takes a
    /// record not, `NotKept` where its keeper fails, each with the number of the record; `NoMemory`.
    pub fn copy_records<R: Read + Drop, W: Write + Drop>(
        &mut self,
        client: &mut Checked<Client<R, W>>,
    ) -> Result<u64, BackupFault>
        ensures copied { IfOk result (λ n. CopiesAll n client.old.source.link
            client.new.source.link self.old self.new) }
        ensures kept { OnErr result
            (CopiesSomeAndKeeps client.old.source.link self.old self.new) }
    {
        let before = self.seat.kept().stored;
        for count in before..u64::MAX {
            if !self.copy_one(client, count + 1)? {
                return Ok(count - before);
            }
        }
        // no book has so many
        Err(BackupFault::NotKept { number: u64::MAX })
    }

    /// Copies the record of this number. False where the server has none.
    fn copy_one<R: Read + Drop, W: Write + Drop>(
        &mut self,
        client: &mut Checked<Client<R, W>>,
        number: u64,
    ) -> Result<bool, BackupFault>
        ensures more { IfOk result (λ more. more ≡ true → CopiesOne number
            client.old.source.link client.new.source.link self.old self.new) }
        ensures end { IfOk result (λ more. more ≡ false →
            EndsAt number client.old.source.link client.new.source.link) }
        ensures same { IfOk result (λ more. more ≡ false → self.new ≡ self.old) }
        ensures kept { OnErr result (Keeps self.old self.new) }
    {
        let Some(bytes) = fetch(client, number)? else {
            return Ok(false);
        };
        let items = self.share_item(client, number, bytes.as_slice())?;
        self.store(number, bytes.as_slice(), &items)?;
        Ok(true)
    }

    /// Gets the item of a record's change, and shares it; nothing where the server has none.
    fn share_item<R: Read + Drop, W: Write + Drop>(
        &mut self,
        client: &mut Checked<Client<R, W>>,
        number: u64,
        bytes: &[u8],
    ) -> Result<Vec<Vec<u8>>, BackupFault>
        ensures given { IfOk result (λ items.
            All (MayGive client.old.source.link) (contents items.items)) }
        ensures items { OnlyItems client.old.source.link client.new.source.link }
        ensures seat { self.new ≡ self.old }
    {
        let digest = match Commit::decode(self.alloc, bytes) {
            Ok(commit) => commit.version().change(),
            Err(refusal) => return Err(BackupFault::taking(number, refusal)),
        };
        let item = match client.get(self.alloc, digest) {
            Ok(item) => item,
            Err(Refusal::MissingBlock) => return Ok(Vec::new(self.alloc)),
            Err(refusal) => return Err(BackupFault::asking(number, refusal)),
        };
        match self.blocks.put(self.rt, self.alloc, item.as_slice()) {
            Ok(_) => alone(self.alloc, item),
            // no client can have put what is no item
            Err(Refusal::TooBig) => Ok(Vec::new(self.alloc)),
            Err(_) => Err(BackupFault::NoMemory),
        }
    }

    /// Stores a record under this number, with these items. After a fault the seat may have the
    /// turn.
    fn store(&mut self, number: u64, bytes: &[u8], items: &Vec<Vec<u8>>) -> Result<(), BackupFault>
        ensures stored { OnOk result (StoresOne number
            (record { commit = bytes.now; items = contents items.now.items }) self.old self.new) }
        ensures kept { OnErr result (Keeps self.old self.new) }
    {
        self.take_turn(number)?;
        self.hand_in(number, bytes, items)
    }

    /// Asks for the turn, in which a record of this number is to be stored.
    fn take_turn(&mut self, number: u64) -> Result<(), BackupFault>
        ensures stored { self.new.kept.stored ≡ self.old.kept.stored }
        ensures known { StillKnows self.old self.new }
    {
        if let Err(refusal) = self.book.grant(self.rt, self.alloc, &mut self.seat) {
            return Err(BackupFault::taking(number, refusal));
        }
        Ok(())
    }

    /// Stores a record under this number, with these items, by a seat that has the turn. After a
    /// fault it may have it still.
    fn hand_in(
        &mut self,
        number: u64,
        bytes: &[u8],
        items: &Vec<Vec<u8>>,
    ) -> Result<(), BackupFault>
        ensures stored { OnOk result (StoresOne number
            (record { commit = bytes.now; items = contents items.now.items }) self.old self.new) }
        ensures kept { OnErr result (Keeps self.old self.new) }
    {
        match self
            .book
            .commit(self.rt, self.alloc, &mut self.seat, bytes, items)
        {
            Ok((stored, _)) if stored == number => Ok(()),
            Ok(_) => Err(BackupFault::NotKept { number }),
            Err(refusal) => Err(BackupFault::taking(number, refusal)),
        }
    }
}

/// Makes a list of this item alone.
fn alone(alloc: Global, item: Vec<u8>) -> Result<Vec<Vec<u8>>, BackupFault>
    ensures { IfOk result (λ items. contents items.items ≡ item.items ∷ []) }
{
    match Vec::from_array(alloc, [item]) {
        Ok(items) => Ok(items),
        Err(_) => Err(BackupFault::NoMemory),
    }
}

/// Whether these bytes are those of a record; where they aren't in its cell, they have its SHA-256.
fn is_shown<K: Keeper>(held: &Record<K>, shown: &[u8]) -> bool
    ensures { IsTrue result → IsShown K.may_fail held.now.bytes shown.now }
{
    match held.bytes() {
        Some(bytes) => bytes == shown,
        None => digest_of(shown) == held.digest(),
    }
}

/// Fetches the record of this number; none where the server has none.
fn fetch<R: Read + Drop, W: Write + Drop>(
    client: &mut Checked<Client<R, W>>,
    number: u64,
) -> Result<Option<Bytes>, BackupFault>
    ensures { IfOk result (λ bytes. Exchanged (request.Fetch number) client.old.source.link
        client.new.source.link (kept_or_nothing bytes)) }
{
    match client.source_mut().fetch(number) {
        Ok(bytes) => Ok(bytes),
        Err(refusal) => Err(BackupFault::asking(number, refusal)),
    }
}
