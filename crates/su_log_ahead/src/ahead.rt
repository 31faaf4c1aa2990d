// Records that are read ahead of their turn, so that their signatures are checked on all cores.
ghost use Rattle.std.specs.Prelude.{◌≡◌, ◌<◌, ◌+◌, ◌↔◌, ℕ, IsTrue, List, [], Some, None, IfOk, MatchResult, length, vec_len};
ghost use Rattle.std.specs.List.{AllByRecursion};
ghost use Rattle.su_log.specs.Log.{record_bytes};
ghost use Rattle.su_log.specs.Record.{IsRead, IsExamined, BeginsWithRecord, StopsSo, spelled};
ghost use Rattle.su_log_ahead.specs.Ahead.{IsLeft, IsUsedUp, AreExaminedFrom};

use crate::presumed::PresumedKeys;
use std::alloc::{AllocError, Global};
use std::collections::VecDeque;
use std::io::Read;
use std::marker::Model;
use std::thread;
use std::thread::Threads;
use su_log::{Log, Record, Stop};

/// How many records are read ahead at most.
const MOST_RECORDS: usize = 256;

/// Once the records that were read ahead have so many bytes, no more are.
const MANY_BYTES: usize = 16_777_216;

/// A log of which records are read ahead. Of each of these the digests are known, and whether its
/// commit is signed, unless memory was refused for that.
#[derive(Drop)]
pub struct Ahead<R: Read> {
    log: Log<R>,
    /// The key that each user is presumed to have behind what was read.
    keys: PresumedKeys,
    /// What was read and not taken yet.
    records: VecDeque<Record>,
    /// What is behind these; none where that isn't read yet.
    stop: Option<Stop>,
}

impl<R: Read> Model for Ahead<R> {
    ghost use Rattle.std.specs.List.{AllByRecursion};
    ghost use Rattle.su_log.specs.Record.{IsExamined};
    ghost use Rattle.su_log_ahead.specs.Ahead.{AheadState};

    ghost Value = { AheadState };

    ghost view = { λ s. record {
      records = s.records.items;
      stop = s.stop;
      place = s.log.place;
      known = R.remaining s.log.reader;
    } };

    ghost invariant = { λ s. AllByRecursion IsExamined s.records.items };
}

impl<R: Read + Drop> Ahead<R> {
    /// Makes the log that this reader gives, of which nothing is read yet. Its first commits are
    /// examined under these keys, and those behind one that names a next key under that.
    pub fn new(alloc: Global, reader: R, keys: PresumedKeys) -> Ahead<R>
        ensures { result ≡ record {
          records = [];
          stop = None;
          place = 0;
          known = R.remaining reader;
        } }
    {
        Ahead {
            log: Log::new(reader),
            keys,
            records: VecDeque::new(alloc),
            stop: None,
        }
    }

    /// Tells whether all that was read ahead is taken, so that the next call of `next` reads ahead.
    pub fn is_used_up(&self) -> bool
        ensures { IsTrue result ↔ IsUsedUp self.now }
    {
        self.records.is_empty() && self.stop.is_none()
    }

    /// Gives away the next record, with what is known of it. Where nothing is left of what was read
    /// ahead, it reads ahead first: 256 records, or fewer once they have 16 MiB, and finds out on
    /// all cores which of their commits are signed. Fails where no record comes next: `End` at the
    /// end of the log; `Cut` with the place of a number of bytes that is cut or goes past the end;
    /// `Failed` where the log can't be read, or memory is refused.
    pub fn next<T: Threads + Sync>(&mut self, rt: &T, alloc: Global) -> Result<Record, Stop>
        ensures known { IfOk result IsExamined }
        ensures next { (place : ℕ) (input : List ℕ) → IsLeft self.old place input
            → MatchResult result (λ r. (rest : List ℕ) × BeginsWithRecord input (spelled r) rest
            × IsLeft self.new (place + length (record_bytes (spelled r))) rest)
            (λ stop. StopsSo stop place input) }
    {
        if self.is_used_up() {
            self.read_ahead(rt, alloc);
        }
        match self.records.pop_front() {
            Some(next) => Ok(next),
            None => match self.stop.take() {
                Some(stop) => Err(stop),
                None => unreachable!(),
            },
        }
    }

    /// Reads ahead, where nothing is left of what was, and finds out on all cores which of the
    /// commits are signed.
    fn read_ahead<T: Threads + Sync>(&mut self, rt: &T, alloc: Global)
        requires { IsUsedUp self.old }
        ensures some { ¬ IsUsedUp self.new }
        ensures left { (place : ℕ) (input : List ℕ) → IsLeft self.old place input
            → IsLeft self.new place input }
    {
        match read_records(alloc, &mut self.log, &mut self.keys) {
            Ok((mut records, stop)) => {
                examine(rt, alloc, records.as_mut_slice());
                self.records = VecDeque::from_vec(records);
                self.stop = stop;
            }
            Err(error) => self.stop = Some(Stop::Failed(error.into())),
        }
    }
}

/// Reads records until they are many, or have many bytes, or none comes next; and what is behind
/// them, if that is read. Of each commit it is presumed under which key it is signed.
fn read_records<R: Read + Drop>(
    alloc: Global,
    log: &mut Log<R>,
    keys: &mut PresumedKeys,
) -> Result<(Vec<Record>, Option<Stop>), AllocError>
    ensures read { IfOk result (λ b.
        AllByRecursion (λ r. IsRead r.bytes.items r.commit) b.0.items) }
    ensures some { IfOk result (λ b. b.1 ≡ None → 0 < vec_len b.0) }
    ensures left { IfOk result (λ b. (input : List ℕ) → R.remaining log.old.reader ≡ Some input
        → IsLeft (record {
          records = b.0.items;
          stop = b.1;
          place = log.new.place;
          known = R.remaining log.new.reader;
        }) log.old.place input) }
{
    let mut records = Vec::with_capacity(alloc, MOST_RECORDS)?;
    let mut bytes = 0;
    while records.len() < MOST_RECORDS && bytes < MANY_BYTES {
        match log.next_record(alloc) {
            Ok(mut next) => {
                next.key = keys.presume(&next.commit);
                bytes = next
                    .item
                    .len()
                    .saturating_add(next.bytes.len())
                    .saturating_add(bytes);
                records.push_reserved(next);
            }
            Err(stop) => return Ok((records, Some(stop))),
        }
    }
    Ok((records, None))
}

/// Finds out on all cores which of the commits are signed, each under the key that its record has, and
/// the digests of their bytes and items. Of a record without a commit, or where memory is refused, it
/// isn't known whether it is signed.
pub fn examine<T: Threads + Sync>(rt: &T, alloc: Global, records: &mut [Record])
    ensures { AreExaminedFrom records.old records.new }
{
    let threads = match thread::available_parallelism(rt) {
        Ok(threads) => threads.get(),
        Err(_) => 1,
    };
    thread::for_each_mut(rt, records, threads, &|_, next| next.examine(alloc));
}
