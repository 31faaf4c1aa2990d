// A view over a source of which one call fails.
use crate::clients::{Client, client_over, create, write};
use crate::faults::{Fault, Mistake, check};
use std::alloc::Global;
use su_block::{BlockSource, Checked, MemoryBlocks};
use su_bytes::{FileId, Principal, Refusal};
use su_fail_once::FailOnce;
use su_op::Change;
use su_view::ViewRefusal;

/// The source of these views.
type Failing = Checked<FailOnce<MemoryBlocks>>;

/// More calls than the row makes.
const MOST_CALLS: u64 = 1_000;

/// Makes three commits and the undo of the third over a source of which one call fails, for one after
/// the other, until there is no such call.
pub(crate) fn where_a_source_fails(alloc: Global) -> Result<(), Fault> {
    for at in 1..MOST_CALLS {
        let source = Checked::new(FailOnce::new(MemoryBlocks::new(alloc), at));
        let mut zero = client_over(alloc, 0, source)?;
        three_and_an_undo(alloc, &mut zero)?;
        if zero.view.source_mut().failures() == 0 {
            return check(4 < at, Mistake::Calls);
        }
    }
    Err(Fault::Wrong(Mistake::Calls))
}

fn three_and_an_undo(alloc: Global, zero: &mut Client<Failing>) -> Result<(), Fault> {
    check(commit(zero, create(alloc, b"a", 2)?)? == 1, Mistake::Commit)?;
    check(
        commit(zero, write(alloc, 2, b"hello")?)? == 2,
        Mistake::Commit,
    )?;
    check(commit(zero, create(alloc, b"b", 3)?)? == 3, Mistake::Commit)?;
    check(commit(zero, Change::Undo(3))? == 4, Mistake::Commit)?;
    let live = zero.view.live()?;
    check(live.as_slice() == [1, 2].as_slice(), Mistake::Live)
}

// Commits a change; a call that the source fails is made once more.
fn commit(zero: &mut Client<Failing>, change: Change) -> Result<u64, Fault> {
    // names the types for the prover (docs/ARCHITECTURE.md, "Forms the kit wants")
    let _none: (Option<Principal>, Option<FileId>) = (None, None);
    let head = zero.view.head();
    let made = match zero.make(change.clone()?) {
        Err(ViewRefusal::Plain(Refusal::SourceFailed)) => {
            check(zero.view.head() == head, Mistake::Changed)?;
            zero.make(change)?
        }
        made => made?,
    };
    match zero.view.accept_own(&made) {
        Err(ViewRefusal::Plain(Refusal::SourceFailed)) => {
            check(zero.view.head() == head, Mistake::Changed)?;
            Ok(zero.view.accept_own(&made)?)
        }
        taken => Ok(taken?),
    }
}
