// How the calls of a view are tried whose tree lies on its source.
use crate::clients::Client;
use crate::faults::Fault;
use crate::flaws::Flawed;
use crate::seen::{Seen, asked_again};
use std::alloc::Global;
use su_block::Checked;
use su_bytes::{Digest, Refusal};

/// The source of these views.
pub(crate) type Source = Checked<Flawed>;

/// How a view's calls are tried: how one is refused that meets the flaw of its source, and whether all
/// that the view shows is read behind a refusal.
#[derive(Clone, Copy, Debug, PartialEq, Eq)]
pub(crate) struct Trying {
    pub(crate) flaw: Refusal,
    pub(crate) is_read: bool,
}

/// How calls are tried, and what the view showed before.
#[derive(Drop)]
pub(crate) struct Trial {
    pub(crate) flaw: Refusal,
    pub(crate) is_read: bool,
    pub(crate) head: (u64, Digest),
    pub(crate) reading: Vec<u8>,
}

/// Lets the call of that number of a client's source have the flaw, and none where it is 0. Returns what
/// that number was.
pub(crate) fn set(zero: &mut Client<Source>, at: u64) -> u64 {
    zero.view.source_mut().source_mut().set(at)
}

// Reads all that it shows, all of which is left on the source again then. No flaw is met.
fn reading_aside(alloc: Global, zero: &mut Client<Source>) -> Result<Vec<u8>, Fault> {
    let at = set(zero, 0);
    let reading = zero.reading(alloc)?;
    zero.view.shed()?;
    zero.view.leave_kept()?;
    set(zero, at);
    Ok(reading)
}

/// Reads what the view shows before calls of which one may be refused.
pub(crate) fn new_trial(
    alloc: Global,
    zero: &mut Client<Source>,
    how: &Trying,
) -> Result<Trial, Fault> {
    let reading = reading_aside(alloc, zero)?;
    Ok(Trial {
        flaw: how.flaw,
        is_read: how.is_read,
        head: zero.view.head(),
        reading,
    })
}

/// Tells whether the view shows what it showed before.
pub(crate) fn is_same(
    alloc: Global,
    zero: &mut Client<Source>,
    trial: &Trial,
) -> Result<bool, Fault> {
    if zero.view.head() != trial.head {
        return Ok(false);
    }
    if !trial.is_read {
        return Ok(true);
    }
    Ok(reading_aside(alloc, zero)?.as_slice() == trial.reading.as_slice())
}

/// Leaves all of the tree, and what is kept of live operations, on the source.
pub(crate) fn leave(
    alloc: Global,
    zero: &mut Client<Source>,
    trial: &Trial,
    seen: &mut Seen,
) -> Result<(), Fault> {
    asked_again!(
        seen,
        trial.flaw,
        is_same(alloc, zero, trial)?,
        zero.view.shed()
    )?;
    asked_again!(
        seen,
        trial.flaw,
        is_same(alloc, zero, trial)?,
        zero.view.leave_kept()
    )?;
    Ok(())
}

/// Leaves all of the tree that a commit has made on the source.
pub(crate) fn leave_new(
    alloc: Global,
    zero: &mut Client<Source>,
    how: &Trying,
    seen: &mut Seen,
) -> Result<(), Fault> {
    let trial = Trial {
        flaw: how.flaw,
        is_read: false,
        head: zero.view.head(),
        reading: Vec::new(alloc),
    };
    leave(alloc, zero, &trial, seen)
}
