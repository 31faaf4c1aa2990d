// Each call of a store has a flaw once, or memory is refused.
ghost use Rattle.std.specs.Prelude.{◌≡◌, true};

use crate::asked::reads;
use crate::desks::changes;
use crate::faults::{Fault, Mistake};
use crate::flaws::{Flaw, Flawed};
use crate::forests::operations;
use crate::meets::Meets;
use crate::parts::parts;
use crate::planned::{plans, why};
use crate::seen::Seen;
use crate::trees::trees;
use std::alloc::Global;
use su_block::{BlockSource, Checked, MemoryBlocks};
use su_bytes::{FileId, Refusal};

/// What is made over a store.
#[derive(Clone, Copy, Debug, PartialEq, Eq)]
pub(crate) enum Work {
    /// Changes of a desk.
    Changes,
    /// Questions to a desk.
    Reads,
    /// Plans on a desk.
    Plans,
    /// What stands in the way of an undo.
    Why,
    /// Operations on a forest.
    Operations,
    /// Trees by themselves.
    Trees,
    /// Parts of a forest by themselves.
    Parts,
}

/// All of these.
const WORKS: [Work; 7] = [
    Work::Changes,
    Work::Reads,
    Work::Plans,
    Work::Why,
    Work::Operations,
    Work::Trees,
    Work::Parts,
];

/// More calls than one of these makes.
const MOST_CALLS: u64 = 2_000;

/// Does one of these over a source, of which one call fails. Tells whether none has failed.
fn is_over<S: BlockSource + Drop>(
    alloc: Global,
    work: Work,
    source: S,
    refusal: Refusal,
) -> Result<bool, Fault>
    requires { S.is_checked ≡ true }
{
    // names the types for the prover (docs/ARCHITECTURE.md, "Forms the kit wants")
    let _none: (Option<FileId>, Option<Refusal>) = (None, None);
    let mut meets = Meets::once(refusal);
    let failures = done(alloc, work, source, &mut meets)?;
    meets.is_over(failures)
}

fn done<S: BlockSource + Drop>(
    alloc: Global,
    work: Work,
    source: S,
    meets: &mut Meets,
) -> Result<u64, Fault>
    requires { S.is_checked ≡ true }
{
    match work {
        Work::Changes => changes(alloc, source, meets),
        Work::Reads => reads(alloc, source, meets),
        Work::Plans => plans(alloc, source, meets),
        Work::Why => why(alloc, source, meets),
        Work::Operations => operations(alloc, source, meets),
        Work::Trees => trees(alloc, source, meets),
        Work::Parts => parts(alloc, source, meets),
    }
}

/// Does one of these over a whole store; a call that memory is refused for is made once more.
pub(crate) fn without_memory(alloc: Global, work: Work, seen: &mut Seen) -> Result<(), Fault> {
    // names the types for the prover (docs/ARCHITECTURE.md, "Forms the kit wants")
    let _none: (Option<FileId>, Option<Refusal>) = (None, None);
    let mut meets = Meets::once(Refusal::NoMemory);
    let source = Checked::new(MemoryBlocks::new(alloc));
    done(alloc, work, source, &mut meets)?;
    if meets.seen() == Seen::Call {
        *seen = Seen::Call;
    }
    Ok(())
}

/// Does all of these over a store of which one call has a flaw, for one after the other, until there
/// is no such call.
pub(crate) fn where_a_store_has(alloc: Global, flaw: Flaw) -> Result<(), Fault> {
    // names the types for the prover (docs/ARCHITECTURE.md, "Forms the kit wants")
    let _none: (Option<FileId>, Option<Refusal>) = (None, None);
    for work in WORKS {
        where_it_has(alloc, flaw, work)?;
    }
    Ok(())
}

fn where_it_has(alloc: Global, flaw: Flaw, work: Work) -> Result<(), Fault> {
    // names the types for the prover (docs/ARCHITECTURE.md, "Forms the kit wants")
    let _none: (Option<FileId>, Option<Refusal>) = (None, None);
    for at in 1..MOST_CALLS {
        let mut flawed = Flawed::new(alloc, flaw);
        let _before = flawed.set(at);
        if is_over(alloc, work, Checked::new(flawed), flaw.refusal())? {
            return has_called(at);
        }
    }
    Err(Fault::Wrong(Mistake::Calls))
}

// That there were calls before the one of that number, which isn't made.
fn has_called(at: u64) -> Result<(), Fault> {
    if 10 < at {
        Ok(())
    } else {
        Err(Fault::Wrong(Mistake::Calls))
    }
}
