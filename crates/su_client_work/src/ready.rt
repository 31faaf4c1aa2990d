// Commits that were fetched before they are taken.
ghost use Rattle.std.specs.Prelude.{IfSome};
ghost use Rattle.su_log.specs.Record.{IsExamined};

use std::alloc::Global;
use std::collections::VecDeque;
use std::marker::Model;
use std::thread::Threads;
use su_bytes::{Digest, Refusal};
use su_log::Record;
use su_log_ahead::{PresumedKeys, examine};
use su_version::Commit;

/// How many commits are fetched before they are taken at most.
pub(crate) const MOST_READY: u64 = 256;

/// Commits that were fetched, in order, and the keys that users are presumed to have behind them.
/// (They are records of a log with no items.)
#[derive(Drop)]
pub(crate) struct Fetched {
    keys: PresumedKeys,
    records: Vec<Record>,
}

impl Model for Fetched {
    ghost use Rattle.std.specs.Prelude.{List};
    ghost use Rattle.std.specs.List.{AllByRecursion};
    ghost use Rattle.su_log.specs.Record.{IsRead};
    ghost use Rattle.su_log.specs.declared.records.Record.{Record};

    ghost Value = { List Record };

    ghost view = { λ f. f.records.items };

    ghost invariant = { λ f. AllByRecursion (λ r. IsRead r.bytes.items r.commit) f.records.items };
}

/// Commits that were fetched, of which it was found out whether they are signed, in order; and how
/// many of the list's are behind or among them.
#[derive(Drop)]
pub(crate) struct Ready {
    records: VecDeque<Record>,
    end: u64,
}

impl Model for Ready {
    ghost use Rattle.std.specs.Prelude.{List};
    ghost use Rattle.std.specs.List.{AllByRecursion};
    ghost use Rattle.su_log.specs.Record.{IsExamined};
    ghost use Rattle.su_log.specs.declared.records.Record.{Record};

    ghost Value = { List Record };

    ghost view = { λ r. r.records.items };

    ghost invariant = { λ r. AllByRecursion IsExamined r.records.items };
}

impl Fetched {
    /// Makes it of none, where users are presumed to have these keys.
    pub fn new(alloc: Global, keys: PresumedKeys) -> Fetched {
        Fetched {
            keys,
            records: Vec::new(alloc),
        }
    }

    /// Adds a commit by its bytes, and tells the digest of its item, if the bytes are a commit's.
    pub fn push(&mut self, alloc: Global, bytes: Vec<u8>) -> Result<Option<Digest>, Refusal> {
        let commit = Commit::decode(alloc, bytes.as_slice());
        let digest = match &commit {
            Ok(commit) => Some(commit.version().change()),
            Err(_) => None,
        };
        let found = Record {
            bytes,
            item: Vec::new(alloc),
            key: self.keys.presume(&commit),
            commit,
            verdict: None,
            digests: None,
        };
        self.records.push(found)?;
        Ok(digest)
    }

    /// Finds out on all cores which of them are signed. With them the list would have so many.
    pub fn examined<T: Threads + Sync>(self, rt: &T, alloc: Global, end: u64) -> Ready {
        let Fetched {
            keys: _keys,
            mut records,
        } = self;
        examine(rt, alloc, records.as_mut_slice());
        Ready {
            records: VecDeque::from_vec(records),
            end,
        }
    }
}

impl Ready {
    /// Makes it of none.
    pub fn new(alloc: Global) -> Ready {
        Ready {
            records: VecDeque::new(alloc),
            end: 0,
        }
    }

    /// Tells whether a list of so many commits has all that were fetched.
    pub fn is_taken_at(&self, held: u64) -> bool {
        self.end <= held
    }

    /// Gives the next one away.
    pub fn next(&mut self) -> Option<Record>
        ensures { IfSome result IsExamined }
    {
        self.records.pop_front()
    }
}
