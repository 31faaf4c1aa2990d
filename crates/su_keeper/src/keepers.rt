// What a keeper promises.
ghost use Rattle.std.specs.Prelude.{◌≡◌, ◌∷◌, ◌++◌, Bool, List, ℕ, [], true, None, map, option_map, IfOk, IfSome, OnOk, OnErr};
ghost use Rattle.sha2.specs.Sha256.{sha256};
ghost use Rattle.su_keeper.specs.Kept.{KeptRecord, LeavesFound, first_found};

use std::alloc::Global;
use su_bytes::Digest;

/// A record couldn't be kept, or what is kept couldn't be read. What a keeper says of it, it says
/// by itself.
#[derive(Clone, Copy, Debug, PartialEq, Eq)]
pub struct NotKept;

/// Keeps the records of a book, one after another, so that they outlast the process, each with the
/// items that it needs. Those that it finds from an earlier process stand behind each other, and are
/// kept anew one by one, before others come.
pub trait Keeper: Drop {
    // It keeps these records, the first of all that it keeps, whatever becomes of the process.
    ghost holds: { Self → List KeptRecord → Type 0 };

    // Behind those that it holds it found these of an earlier process, and no others.
    ghost found: { Self → List (List ℕ) → Type 0 };

    // All that it found was kept anew.
    ghost is_at_end: { Self → Type 0 };

    // No wrong answer of what it stands on was taken as true: what it found is told only so far.
    ghost is_clean: { Self → Type 0 };

    // Whether it can fail at all is a matter of its type.
    ghost may_fail: { Type 0 };

    // Whether records can be read back from it, so that they need no place in memory.
    ghost reads_back: { Bool };

    /// Keeps one more record behind those that it holds, with the items that it needs. Where it found
    /// a record there, this has to be that one, and no items come with it. After a failure it keeps
    /// no more, and this record may be kept or not.
    fn keep(&mut self, alloc: Global, commit: &[u8], items: &[Vec<u8>]) -> Result<(), NotKept>
        ensures kept { (records : List KeptRecord) → holds self.old records → OnOk result (holds
            self.new (records ++ record {
              commit = commit.now;
              items = map (λ item. item.items) items.now;
            } ∷ [])) }
        ensures held { (records : List KeptRecord) → holds self.old records
            → OnErr result (holds self.new records) }
        ensures found { (rest : List (List ℕ)) → found self.old rest → is_clean self.new
            → OnOk result (LeavesFound found commit.now rest self.new) }
        ensures end { is_at_end self.old → is_at_end self.new }
        ensures clean { OnOk result (is_clean self.new → is_clean self.old) }
        ensures failed { OnErr result may_fail };

    /// Reads the record that it found behind those that it holds, if there is one.
    fn next(&mut self, alloc: Global) -> Result<Option<Vec<u8>>, NotKept>
        ensures held { (records : List KeptRecord) → holds self.old records
            → holds self.new records }
        ensures found { (rest : List (List ℕ)) → found self.old rest → is_clean self.new
            → IfOk result (λ next. (option_map (λ commit. commit.items) next ≡ first_found rest)
            × found self.new rest) }
        ensures end { IfOk result (λ next. next ≡ None → is_at_end self.new) }
        ensures clean { OnOk result (is_clean self.new → is_clean self.old) }
        ensures failed { OnErr result may_fail };

    /// Whether records can be read back from it, so that they need no place in memory.
    fn gives_back() -> bool
        ensures is { result ≡ reads_back }
        ensures failed { result ≡ true → may_fail };

    /// Reads the record of a number, from 1, of those that it holds: the commit that has this
    /// digest. `None` where it gives none back.
    fn record(
        &mut self,
        alloc: Global,
        number: u64,
        digest: Digest,
    ) -> Result<Option<Vec<u8>>, NotKept>
        ensures hashes { IfOk result (λ found. IfSome found (λ commit.
            sha256 commit.items ≡ digest)) }
        ensures held { (records : List KeptRecord) → holds self.old records
            → holds self.new records }
        ensures end { is_at_end self.old → is_at_end self.new }
        ensures failed { OnErr result may_fail };

    /// Reads the item of a digest, if it keeps one.
    fn item(&mut self, alloc: Global, digest: Digest) -> Result<Option<Vec<u8>>, NotKept>
        ensures hashes { IfOk result (λ found. IfSome found (λ item. sha256 item.items ≡ digest)) }
        ensures held { (records : List KeptRecord) → holds self.old records
            → holds self.new records }
        ensures end { is_at_end self.old → is_at_end self.new }
        ensures failed { OnErr result may_fail };

    /// Keeps no more from now on. The last record that was kept need not stand in the book.
    fn stop(&mut self)
        ensures held { (records : List KeptRecord) (last : KeptRecord)
            → holds self.old (records ++ last ∷ []) → holds self.new records }
        ensures end { is_at_end self.old → is_at_end self.new };
}
