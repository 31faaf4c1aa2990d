// The whole log is checked again.
use std::io::Write;
use std::thread::Threads;
use su_audit::{Ending, Fault, Watcher, run_audit};
use su_folder::StateFolder;
use su_people_session::Trouble;

/// Nobody watches.
#[derive(Drop)]
struct Nobody;

impl Watcher for Nobody {
    fn taken(&mut self, _count: u64) {}

    fn ended(&mut self) {}
}

/// Checks the whole log of the state folder again, on all cores, and prints what an audit prints.
/// The server isn't asked. Refuses a state folder or a log that can't be used; `Partly` where the
/// log has what may not be, which the audit prints; `Unwritten` where it can't print; `NoMemory`.
pub fn verify<T: Threads + Sync, W: Write>(
    rt: &HostRuntime,
    host: &T,
    given: Option<&str>,
    writer: &mut W,
) -> Result<(), Trouble> {
    let alloc = rt.alloc();
    let directory = su_folder::find(rt, given)?;
    let folder = StateFolder::open(rt, directory.as_str())?;
    let roster = folder.team().roster(alloc)?;
    match run_audit(host, alloc, folder.read_log()?, writer, roster, &mut Nobody) {
        Ending::Taken => Ok(()),
        Ending::Refused => Err(Trouble::Partly),
        Ending::Failed(Fault::Reading(reason)) => Err(Trouble::UnreadLog(reason)),
        Ending::Failed(Fault::Writing(reason)) => Err(Trouble::Unwritten(reason)),
        Ending::Failed(_) => Err(Trouble::NoMemory),
    }
}
