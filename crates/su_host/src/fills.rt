// The items that a copy lacks.
use crate::faults::tell_fault;
use crate::guards::Filling;
use crate::links::Link;
use su_block::{BlockSource, Checked};
use su_bytes::Refusal;
use thiserror::Error;

/// Why an item that a copy lacks isn't kept, though the server may have it.
#[derive(Clone, Copy, Debug, PartialEq, Eq, Error)]
enum FillFault {
    #[error("out of memory")]
    NoMemory,
    #[error("the link to the server failed where an item was asked for that the copy lacks")]
    LinkFailed,
    #[error("the server gave another item than one that was asked for, which the copy lacks")]
    WrongItem,
    #[error("an item could not be kept that the copy lacks")]
    NotKept,
}

/// Asks the server for each item that records of a copy need and the copy lacks, and keeps those that
/// it has. Returns how many the copy lacks then. `None` after a fault, which standard error tells: of
/// the link, of an item of the server, of the folder, of memory.
pub(crate) fn fill<F: Filling>(
    rt: &HostRuntime,
    client: &mut Checked<Link>,
    files: &mut F,
) -> Option<usize> {
    // those before this one are lacking at the server too
    let mut index = 0usize;
    for _ in 0..files.lacking() {
        match fill_one(rt, client, files, index) {
            Ok(true) => {}
            Ok(false) => index = index.saturating_add(1),
            Err(fault) => {
                tell_fault(rt, fault);
                return None;
            }
        }
    }
    Some(files.lacking())
}

/// Asks for one of the items, counted from 0, and keeps it; then another one has its place. False
/// where it is lacking as before, as the server hasn't got it.
fn fill_one<F: Filling>(
    rt: &HostRuntime,
    client: &mut Checked<Link>,
    files: &mut F,
    index: usize,
) -> Result<bool, FillFault> {
    let Some(digest) = files.lacking_item(index) else {
        return Ok(false);
    };
    let before = files.lacking();
    let item = match client.get(rt.alloc(), digest) {
        Ok(item) => item,
        Err(Refusal::MissingBlock) => return Ok(false),
        Err(Refusal::NoMemory) => return Err(FillFault::NoMemory),
        Err(Refusal::WrongBlock) => return Err(FillFault::WrongItem),
        Err(_) => return Err(FillFault::LinkFailed),
    };
    if !files.fill(rt.alloc(), index, item.as_slice()) {
        return Err(FillFault::NotKept);
    }
    Ok(files.lacking() < before)
}
