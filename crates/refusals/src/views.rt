// Each call of a view whose tree lies on its source, where the source has a flaw or memory is refused.
use crate::asking::reads;
use crate::clients::{Client, Items};
use crate::commits::five_commits;
use crate::faults::{Fault, Mistake, check};
use crate::flaws::Flaw;
use crate::seen::{Seen, again};
use crate::taking::{begin_anew, takes, with_three};
use crate::trying::{Source, Trial, Trying, is_same, new_trial, set};
use std::alloc::Global;
use su_bytes::{FileId, Refusal};

/// More calls than the source of a view is asked for in a row.
const MOST_CALLS: u64 = 1_000;

// Lets each call of its source have the flaw once, while all that can be asked of a tree is asked.
fn each_while_reading(
    alloc: Global,
    of: &Client<Items>,
    flaw: Flaw,
    how: &Trying,
) -> Result<(), Fault> {
    // names the types for the prover (docs/ARCHITECTURE.md, "Forms the kit wants")
    let _none: (Option<FileId>, Option<Refusal>) = (None, None);
    let mut zero = with_three(alloc, of, flaw)?;
    let trial = new_trial(alloc, &mut zero, how)?;
    for at in 1..MOST_CALLS {
        let mut seen = Seen::none();
        set(&mut zero, at);
        reads(alloc, &mut zero, &trial, &mut seen)?;
        if set(&mut zero, 0) != 0 {
            check(seen == Seen::Nothing && 8 < at, Mistake::Calls)?;
            return reloads(alloc, &mut zero, of, &trial, &mut seen);
        }
        check(seen == Seen::Call, Mistake::Calls)?;
    }
    Err(Fault::Wrong(Mistake::Calls))
}

// Lets each call of its source have the flaw once, while commits are taken and one is made.
fn each_while_taking(
    alloc: Global,
    of: &Client<Items>,
    flaw: Flaw,
    how: &Trying,
) -> Result<(), Fault> {
    let mut zero = with_three(alloc, of, flaw)?;
    for at in 1..MOST_CALLS {
        let mut seen = Seen::none();
        begin_anew(alloc, &mut zero, of, flaw)?;
        set(&mut zero, at);
        takes(alloc, &mut zero, of, how, &mut seen)?;
        if set(&mut zero, 0) != 0 {
            return check(seen == Seen::Nothing && 8 < at, Mistake::Calls);
        }
        check(seen == Seen::Call, Mistake::Calls)?;
    }
    Err(Fault::Wrong(Mistake::Calls))
}

// Makes the tree anew in memory: then all is read without the source. Once the entries are left,
// there is none of them, and the tree isn't made anew.
fn reloads(
    alloc: Global,
    zero: &mut Client<Source>,
    of: &Client<Items>,
    trial: &Trial,
    seen: &mut Seen,
) -> Result<(), Fault> {
    again!(seen, is_same(alloc, zero, trial)?, zero.view.reload())?;
    set(zero, 1);
    check(
        zero.reading(alloc)?.as_slice() == trial.reading.as_slice(),
        Mistake::Reading,
    )?;
    check(set(zero, 0) == 1, Mistake::Calls)?;
    check(zero.view.entry(3) == of.view.entry(3), Mistake::Commit)?;
    zero.view.leave_entries();
    check(zero.view.entry(3).is_none(), Mistake::Commit)?;
    let told = again!(seen, is_same(alloc, zero, trial)?, zero.view.reload());
    check(told.err() == Some(Refusal::MissingBlock), Mistake::Reading)?;
    check(is_same(alloc, zero, trial)?, Mistake::Changed)
}

/// Lets each call of a view's source have the flaw once, of a view that has left all of its tree
/// there: behind a refusal the view shows what it showed, whether that is read or not, and the call
/// once more answers as it should.
pub(crate) fn where_a_source_has(alloc: Global, flaw: Flaw) -> Result<(), Fault> {
    // names the types for the prover (docs/ARCHITECTURE.md, "Forms the kit wants")
    let _none: (Option<FileId>, Option<Refusal>) = (None, None);
    let of = five_commits(alloc, &mut Seen::none())?;
    for is_read in [false, true] {
        let how = Trying {
            flaw: flaw.refusal(),
            is_read,
        };
        each_while_reading(alloc, &of, flaw, &how)?;
        each_while_taking(alloc, &of, flaw, &how)?;
    }
    Ok(())
}

/// Makes the same calls over a source without a flaw.
pub(crate) fn where_memory_is_refused(alloc: Global, seen: &mut Seen) -> Result<(), Fault> {
    // names the types for the prover (docs/ARCHITECTURE.md, "Forms the kit wants")
    let _none: (Option<FileId>, Option<Refusal>) = (None, None);
    let of = five_commits(alloc, seen)?;
    let mut zero = with_three(alloc, &of, Flaw::Fails)?;
    let how = Trying {
        flaw: Refusal::NoMemory,
        is_read: true,
    };
    let trial = new_trial(alloc, &mut zero, &how)?;
    reads(alloc, &mut zero, &trial, seen)?;
    takes(alloc, &mut zero, &of, &how, seen)?;
    let trial = new_trial(alloc, &mut zero, &how)?;
    reloads(alloc, &mut zero, &of, &trial, seen)
}
