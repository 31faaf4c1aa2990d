// Entering operations into an index under the marks of what they read, and taking them out.
ghost use Rattle.std.specs.Prelude.{◌≡◌, ◌<◌, ◌≤◌, ℕ, false, true, IfNone, IfSome, OnOk, OnErr};
ghost use Rattle.su_kept_areas.specs.Marks.{has_mark, read_marks};
ghost use Rattle.su_live.specs.Readers.{has_reader, Enters, EntersAbove, HasSame, IsEnteredBy, IsMissing, Leaves, LeavesBut, PutsAbove};

use crate::readers::Reader;
use std::alloc::AllocError;
use std::collections::BTreeSet;
use su_kept_areas::KeptFootprint;

/// Enters the operation of that number, which is entered under no mark, under each of what the
/// footprint reads. Where there is no room for it, nothing changes.
pub(crate) fn enter(
    readers: &mut BTreeSet<Reader>,
    footprint: &KeptFootprint,
    number: u32,
) -> Result<(), AllocError>
    requires { IsMissing number readers.old }
    ensures ok { OnOk result (Enters number footprint.now readers.old readers.new) }
    ensures err { OnErr result (HasSame readers.old readers.new) }
{
    let mut marks = footprint.read_marks();
    while let Some(mark) = marks.pass() {
        match readers.insert(Reader { mark, number }) {
            Ok(_) => {}
            Err(_) => {
                leave(readers, footprint, number);
                return Err(AllocError);
            }
        }
    }
    Ok(())
}

/// Enters the operation of that number, which is entered under no mark, under each of what the
/// footprint reads, if it is above `scanned`. Where there is no room for it, nothing changes.
pub(crate) fn enter_above(
    readers: &mut BTreeSet<Reader>,
    footprint: &KeptFootprint,
    number: u32,
    scanned: u64,
) -> Result<(), AllocError>
    requires { IsMissing number readers.old }
    ensures ok { OnOk result (EntersAbove scanned number footprint.now readers.old readers.new) }
    ensures err { OnErr result (HasSame readers.old readers.new) }
{
    if u64::from(number) <= scanned {
        return Ok(());
    }
    enter(readers, footprint, number)
}

/// Enters the operation of that number under each mark of what the footprint reads, in the place of
/// those of another footprint, if it is above `scanned`. Where there is no room for it, nothing
/// changes.
pub(crate) fn put_above(
    readers: &mut BTreeSet<Reader>,
    footprint: &KeptFootprint,
    number: u32,
    other: &KeptFootprint,
    scanned: u64,
) -> Result<(), AllocError>
    requires { scanned < number → IsEnteredBy number other.now readers.old }
    ensures ok { OnOk result
        (PutsAbove scanned number footprint.now other.now readers.old readers.new) }
    ensures err { OnErr result (HasSame readers.old readers.new) }
{
    if u64::from(number) <= scanned {
        return Ok(());
    }
    match enter_beside(readers, footprint, number, other) {
        Ok(()) => {}
        Err(_) => return Err(AllocError),
    }
    leave_but(readers, other, number, footprint);
    Ok(())
}

/// Takes the operation of that number out from under each mark of what the footprint reads. Takes no
/// memory.
pub(crate) fn leave(readers: &mut BTreeSet<Reader>, footprint: &KeptFootprint, number: u32)
    ensures { Leaves number footprint.now readers.old readers.new }
{
    let mut marks = footprint.read_marks();
    while let Some(mark) = marks.pass() {
        readers.remove(&Reader { mark, number });
    }
}

/// Enters the operation of that number under each mark of what the footprint reads, which is entered
/// just under those of another footprint. Where there is no room for it, nothing changes.
pub(crate) fn enter_beside(
    readers: &mut BTreeSet<Reader>,
    footprint: &KeptFootprint,
    number: u32,
    other: &KeptFootprint,
) -> Result<(), AllocError>
    requires { IsEnteredBy number other.now readers.old }
    ensures ok { OnOk result (Enters number footprint.now readers.old readers.new) }
    ensures err { OnErr result (HasSame readers.old readers.new) }
{
    let mut marks = footprint.read_marks();
    while let Some(mark) = marks.pass() {
        let reader = Reader { mark, number };
        match readers.insert(reader) {
            Ok(_) => {}
            Err(_) => {
                leave_but(readers, footprint, number, other);
                return Err(AllocError);
            }
        }
    }
    Ok(())
}

/// Takes the operation of that number out from under each mark of what the footprint reads, but those
/// that another footprint has too. Takes no memory.
pub(crate) fn leave_but(
    readers: &mut BTreeSet<Reader>,
    footprint: &KeptFootprint,
    number: u32,
    other: &KeptFootprint,
)
    ensures { LeavesBut number footprint.now other.now readers.old readers.new }
{
    let mut marks = footprint.read_marks();
    while let Some(mark) = marks.pass() {
        let reader = Reader { mark, number };
        if !has_mark(other, mark) {
            readers.remove(&reader);
        }
    }
}

/// Tells whether it is a mark of what the footprint reads. Takes no memory.
fn has_mark(footprint: &KeptFootprint, mark: u32) -> bool
    ensures { result ≡ has_mark (read_marks footprint.now.reads.items) mark }
{
    let mut marks = footprint.read_marks();
    while let Some(other) = marks.pass() {
        if mark == other {
            return true;
        }
    }
    false
}

/// Returns the last operation, of those up to that number, that is entered under the mark.
pub(crate) fn last_up_to(readers: &BTreeSet<Reader>, mark: u32, number: u32) -> Option<u32>
    ensures within { IfSome result (λ n. n ≤ number) }
    ensures found { IfSome result (λ n. has_reader readers.now mark n ≡ true) }
    ensures last { IfSome result (λ n. (q : ℕ) → n < q → q ≤ number
        → has_reader readers.now mark q ≡ false) }
    ensures none { IfNone result ((q : ℕ) → q ≤ number → has_reader readers.now mark q ≡ false) }
{
    match readers.range(..=Reader { mark, number }).next_back() {
        Some(last) => {
            if last.mark == mark {
                Some(last.number)
            } else {
                None
            }
        }
        None => None,
    }
}
