// A keeper that gives records back.
ghost use Rattle.std.specs.Prelude.{◌≡◌, ◌≤◌};

use crate::books::new_commits;
use crate::clients::roster;
use std::alloc::Global;
use std::marker::Brand;
use std::process::Abort;
use std::sync::Wait;
use std::sync::ledger::Blank;
use std::test::Fail;
use su_block::digest_of;
use su_bytes::{Digest, Refusal, Roster};
use su_keeper::{Keeper, NotKept};
use su_shared::{BookName, Cells, SharedBook};

/// Has room for one record, which it gives back once.
#[derive(Drop)]
struct GivesOneBack {
    kept: Option<Vec<u8>>,
}

impl Keeper for GivesOneBack {
    ghost use Rattle.std.specs.Prelude.{◌≡◌, ⊤, [], true};

    ghost holds = { λ _ _. Unit {0} };

    ghost found = { λ _ rest. rest ≡ [] };

    ghost is_at_end = { λ _. Unit {0} };

    ghost is_clean = { λ _. Unit {0} };

    ghost may_fail = { ⊤ };

    ghost reads_back = { true };

    fn keep(&mut self, alloc: Global, commit: &[u8], _items: &[Vec<u8>]) -> Result<(), NotKept> {
        let Ok(copy) = Vec::from_slice(alloc, commit) else {
            return Err(NotKept);
        };
        self.kept = Some(copy);
        Ok(())
    }

    fn next(&mut self, _alloc: Global) -> Result<Option<Vec<u8>>, NotKept> {
        Ok(None)
    }

    fn gives_back() -> bool {
        true
    }

    fn record(
        &mut self,
        _alloc: Global,
        _number: u64,
        digest: Digest,
    ) -> Result<Option<Vec<u8>>, NotKept> {
        let Some(commit) = self.kept.take() else {
            return Ok(None);
        };
        if digest_of(commit.as_slice()) != digest {
            return Err(NotKept);
        }
        Ok(Some(commit))
    }

    fn item(&mut self, _alloc: Global, _digest: Digest) -> Result<Option<Vec<u8>>, NotKept> {
        Ok(None)
    }

    fn stop(&mut self) {}
}

#[test]
fn a_record_is_read_back(rt: HostRuntime) -> Result<(), Fail> {
    let alloc = rt.alloc();
    let commits = new_commits(alloc)?;
    let roster = roster(alloc)?;
    let cells = Cells::new(alloc, 1)?;
    read_back::<Brand, _>(&rt, alloc, cells, roster, &commits.first, Blank::new(512))
}

// The cell has no bytes of the record; the keeper has them, and then no more.
fn read_back<N: BookName, R: Wait + Abort>(
    rt: &R,
    alloc: Global,
    cells: Cells<GivesOneBack>,
    roster: Roster,
    commit: &[u8],
    blank: Blank,
) -> Result<(), Fail>
    requires cells { cells ≡ N.cells }
    requires ledger { (blank.name ≡ N.name) × (blank.parts ≡ N.parts) × (257 ≤ N.parts) }
{
    let keeper = GivesOneBack { kept: None };
    let book: SharedBook<N, GivesOneBack> = SharedBook::new(alloc, cells, roster, blank, keeper)?;
    let mut seat = book.seat(rt, alloc)?;
    let (_reply, _receipt) = book.grant(rt, alloc, &mut seat)?;
    let (number, _receipt) = book.commit(rt, alloc, &mut seat, commit, &Vec::new(alloc))?;
    let Some(found) = book.published(&mut seat, number) else {
        return Err(Fail::new("not published"));
    };
    assert!(rt; found.bytes().is_none());
    let bytes = book.record(rt, alloc, found)?;
    assert!(rt; bytes.as_slice() == commit);
    assert_eq!(rt;
        book.record(rt, alloc, found).err(),
        Some(Refusal::SourceFailed)
    );
    Ok(())
}
