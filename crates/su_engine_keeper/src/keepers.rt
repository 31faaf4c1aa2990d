// A keeper over an engine.
ghost use Rattle.std.specs.Prelude.{◌≡◌, ◌∷◌, ◌++◌, ◌+◌, [], ℕ, List, Bool, true, false, map, slice_get, Contains, None, IfOk, IfSome, OnOk, OnErr, OnSome};
ghost use Rattle.std.specs.Global.{Vec};
ghost use Rattle.sha2.specs.Sha256.{sha256};
ghost use Rattle.su_keeper.specs.Kept.{KeptRecord};
ghost use Rattle.su_engine_keeper.specs.Keys.{record_key, item_key};
ghost use Rattle.su_engine_keeper.specs.Kept.{Keeps, IsAtEnd};
ghost use Rattle.su_engine.specs.Pairs.{pairs_of};

use crate::keys::{digest_of, item_key, item_pairs, record_key, record_pair};
use std::alloc::Global;
use std::collections::VecDeque;
use su_bytes::Digest;
use su_engine::{Engine, Pair, Unanswered};
use su_keeper::{Keeper, NotKept};

/// How many records are read with one request.
const PAGE: u64 = 256;

/// Keeps the records of a book in an engine, record by record under its number, each with the items
/// that come with it. It stops at the first answer that it doesn't get, or that tells of another
/// record.
#[derive(Drop)]
pub struct EngineKeeper<E: Engine> {
    engine: E,
    count: u64,
    // records behind those that were counted, as far as they were read
    found: VecDeque<Vec<u8>>,
    is_halted: bool,
}

impl<E: Engine> EngineKeeper<E> {
    /// Makes the keeper of a book that has no record yet.
    pub fn new(alloc: Global, engine: E) -> EngineKeeper<E>
        ensures holds { Keeps (λ k v. E.has result.engine k v) result.is_halted result.count
            result.found.items [] }
        ensures engine { result.engine ≡ engine }
    {
        EngineKeeper {
            engine,
            count: 0,
            found: VecDeque::new(alloc),
            is_halted: false,
        }
    }

    /// Lends the engine.
    pub fn engine(&self) -> &E
        ensures { result.now ≡ self.now.engine }
    {
        &self.engine
    }

    /// Stops.
    fn fail(&mut self) -> NotKept
        ensures engine { self.new.engine ≡ self.old.engine }
        ensures count { self.new.count ≡ self.old.count }
        ensures found { self.new.found ≡ self.old.found }
        ensures halted { self.new.is_halted ≡ true }
    {
        self.is_halted = true;
        NotKept
    }

    /// Reads what the engine holds under a key.
    fn read(&mut self, alloc: Global, key: &[u8]) -> Result<Option<Vec<u8>>, NotKept>
        ensures held { (k v : List ℕ) → E.has self.old.engine k v → E.has self.new.engine k v }
        ensures lacked { (k : List ℕ) → E.lacked self.old.engine k → E.lacked self.new.engine k }
        ensures halted { self.new.is_halted ≡ false → self.old.is_halted ≡ false }
        ensures count { self.new.count ≡ self.old.count }
        ensures ahead { self.new.found ≡ self.old.found }
    {
        match self.engine.read(alloc, key) {
            Ok(found) => Ok(found),
            Err(_) => Err(self.fail()),
        }
    }

    /// Takes up a page of records, those behind the ones that were counted. Fails where another key
    /// stands between them.
    fn take_page(&mut self, alloc: Global, pairs: &[Pair]) -> Result<(), Unanswered>
        ensures ahead { self.old.found.items ≡ [] → ((p : List ℕ × List ℕ)
            → Contains (pairs_of pairs.now) p → E.has self.old.engine p.0 p.1)
            → (i : ℕ) (r : Vec ℕ) → slice_get self.new.found.items i ≡ Some r
            → E.has self.old.engine (record_key (self.old.count + 1 + i)) r.items }
        ensures all { self.old.found.items ≡ [] → self.new.found.items ≡ [] → OnOk result
            (pairs.now ≡ []) }
        ensures engine { self.new.engine ≡ self.old.engine }
        ensures count { self.new.count ≡ self.old.count }
        ensures halted { self.new.is_halted ≡ self.old.is_halted }
    {
        let mut number = self.count;
        for pair in pairs {
            let Some(next) = number.checked_add(1) else {
                return Err(Unanswered);
            };
            let key = record_key(alloc, next)?;
            if pair.key.as_slice() != key.as_slice() {
                return Err(Unanswered);
            }
            let record = Vec::from_slice(alloc, pair.value.as_slice())?;
            self.found.push_back(record)?;
            number = next;
        }
        Ok(())
    }

    /// Reads a page of records, those behind the ones that were counted.
    fn read_page(&mut self, alloc: Global) -> Result<(), Unanswered>
        ensures ahead { (i : ℕ) (r : Vec ℕ) → slice_get self.new.found.items i ≡ Some r
            → E.has self.new.engine (record_key (self.old.count + 1 + i)) r.items }
        ensures none { OnOk result (self.new.found.items ≡ []
            → E.lacked self.new.engine (record_key (self.old.count + 1))) }
        ensures held { (k v : List ℕ) → E.has self.old.engine k v → E.has self.new.engine k v }
        ensures count { self.new.count ≡ self.old.count }
        ensures halted { self.new.is_halted ≡ self.old.is_halted }
    {
        self.found = VecDeque::new(alloc);
        let Some(next) = self.count.checked_add(1) else {
            return Err(Unanswered);
        };
        let first = record_key(alloc, next)?;
        let end = record_key(alloc, next.saturating_add(PAGE))?;
        let pairs = self
            .engine
            .read_page(alloc, first.as_slice(), end.as_slice())?;
        self.take_page(alloc, pairs.as_slice())
    }

    /// Reads the record behind those that were counted. With it come others behind, which are given
    /// without a request then.
    fn read_next(&mut self, alloc: Global) -> Result<Option<Vec<u8>>, Unanswered>
        ensures ahead { ((i : ℕ) (r : Vec ℕ) → slice_get self.old.found.items i ≡ Some r
            → E.has self.old.engine (record_key (self.old.count + 1 + i)) r.items)
            → (i : ℕ) (r : Vec ℕ) → slice_get self.new.found.items i ≡ Some r
            → E.has self.new.engine (record_key (self.old.count + 1 + i)) r.items }
        ensures none { IfOk result (λ o. o ≡ None
            → E.lacked self.new.engine (record_key (self.old.count + 1))
            × (self.new.found.items ≡ [])) }
        ensures held { (k v : List ℕ) → E.has self.old.engine k v → E.has self.new.engine k v }
        ensures count { self.new.count ≡ self.old.count }
        ensures halted { self.new.is_halted ≡ self.old.is_halted }
    {
        if let Some(record) = self.found.front() {
            return Ok(Some(Vec::from_slice(alloc, record.as_slice())?));
        }
        self.read_page(alloc)?;
        match self.found.front() {
            Some(record) => Ok(Some(Vec::from_slice(alloc, record.as_slice())?)),
            None => Ok(None),
        }
    }

    /// Lets the engine hold a record under the number behind those that were counted, with its
    /// items.
    fn put_next(&mut self, alloc: Global, commit: &[u8], items: &[Vec<u8>]) -> Option<()>
        ensures made { OnSome result (E.has self.new.engine (record_key (self.old.count + 1))
            commit.now × ((item : List ℕ) → Contains (map (λ item. item.items) items.now) item
            → E.has self.new.engine (item_key (sha256 item)) item)) }
        ensures held { (k v : List ℕ) → E.has self.old.engine k v → E.has self.new.engine k v }
        ensures lacked { (k : List ℕ) → E.lacked self.old.engine k → E.lacked self.new.engine k }
        ensures count { self.new.count ≡ self.old.count }
        ensures found { self.new.found ≡ self.old.found }
        ensures halted { self.new.is_halted ≡ self.old.is_halted }
    {
        let number = self.count.checked_add(1)?;
        let Ok(first) = record_pair(alloc, number, commit) else {
            return None;
        };
        let Ok(beside) = item_pairs(alloc, items) else {
            return None;
        };
        let Ok(true) = self.engine.put_once(alloc, &first, beside.as_slice()) else {
            return None;
        };
        Some(())
    }

    /// Keeps one more record, under the number behind those that were counted.
    fn keep_next(&mut self, alloc: Global, commit: &[u8], items: &[Vec<u8>]) -> Option<()>
        ensures kept { self.old.is_halted ≡ false → (records : List KeptRecord)
            → Keeps (λ k v. E.has self.old.engine k v) self.old.is_halted self.old.count
            self.old.found.items records
            → OnSome result (Keeps (λ k v. E.has self.new.engine k v) self.new.is_halted
            self.new.count self.new.found.items (records ++ record {
              commit = commit.now;
              items = map (λ item. item.items) items.now;
            } ∷ [])) }
        ensures held { (k v : List ℕ) → E.has self.old.engine k v → E.has self.new.engine k v }
        ensures end { IsAtEnd (λ k. E.lacked self.old.engine k) self.old.count self.old.found.items
            → IsAtEnd (λ k. E.lacked self.new.engine k) self.new.count self.new.found.items }
        ensures halted { self.new.is_halted ≡ self.old.is_halted }
    {
        let number = self.count.checked_add(1)?;
        match self.found.pop_front() {
            Some(found) => {
                if found.as_slice() != commit || !items.is_empty() {
                    return None;
                }
                self.count = number;
                return Some(());
            }
            None => {}
        }
        self.put_next(alloc, commit, items)?;
        self.count = number;
        Some(())
    }
}

impl<E: Engine> Keeper for EngineKeeper<E> {
    ghost use Rattle.std.specs.Prelude.{⊤, true};
    ghost use Rattle.su_engine_keeper.specs.Kept.{Keeps, IsAtEnd};

    ghost holds = { λ k records.
        Keeps (λ key v. E.has k.engine key v) k.is_halted k.count k.found.items records };

    // Others keep records in the engine too, so it never says that it found just these. What
    // keepers of several servers hold, the laws tell.
    ghost found = { λ _ _. ⊥ };

    ghost is_at_end = { λ k. IsAtEnd (λ key. E.lacked k.engine key) k.count k.found.items };

    ghost is_clean = { λ _. ⊤ };

    ghost may_fail = { ⊤ };

    ghost reads_back = { true };

    fn keep(&mut self, alloc: Global, commit: &[u8], items: &[Vec<u8>]) -> Result<(), NotKept> {
        if self.is_halted {
            return Err(NotKept);
        }
        match self.keep_next(alloc, commit, items) {
            Some(()) => Ok(()),
            None => Err(self.fail()),
        }
    }

    fn next(&mut self, alloc: Global) -> Result<Option<Vec<u8>>, NotKept> {
        if self.is_halted {
            return Err(NotKept);
        }
        match self.read_next(alloc) {
            Ok(next) => Ok(next),
            Err(_) => Err(self.fail()),
        }
    }

    fn gives_back() -> bool {
        true
    }

    fn record(
        &mut self,
        alloc: Global,
        number: u64,
        digest: Digest,
    ) -> Result<Option<Vec<u8>>, NotKept> {
        let Ok(key) = record_key(alloc, number) else {
            return Err(self.fail());
        };
        let found = self.read(alloc, key.as_slice())?;
        Ok(of_digest(found, &digest))
    }

    fn item(&mut self, alloc: Global, digest: Digest) -> Result<Option<Vec<u8>>, NotKept> {
        let Ok(key) = item_key(alloc, &digest) else {
            return Err(self.fail());
        };
        let found = self.read(alloc, key.as_slice())?;
        Ok(of_digest(found, &digest))
    }

    fn stop(&mut self) {
        self.is_halted = true;
    }
}

/// What was found, where it has this digest.
fn of_digest(found: Option<Vec<u8>>, digest: &Digest) -> Option<Vec<u8>>
    ensures { IfSome result (λ bytes. sha256 bytes.items ≡ digest.now) }
{
    let bytes = found?;
    if digest_of(bytes.as_slice()) == *digest {
        Some(bytes)
    } else {
        None
    }
}
