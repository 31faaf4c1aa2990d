// Which entries are undone, and by which.
ghost use Rattle.std.specs.Prelude.{◌≡◌, ◌-◌, IfOk, Some, set, cond, nat_eq};
ghost use Rattle.su_history.specs.Line.{AreUndoers};

use std::alloc::{AllocError, Global};
use su_desk::KeptEntry;

/// Returns of each entry, in order, the number of the one that undid it.
pub(crate) fn undoers(alloc: Global, entries: &[KeptEntry]) -> Result<Vec<Option<u64>>, AllocError>
    ensures { IfOk result (λ undoers. AreUndoers entries.now undoers.items) }
{
    let mut undoers: Vec<Option<u64>> = vec![in alloc; None; entries.len()]?;
    for index in (0..entries.len()).rev() {
        if let Some(number) = entries[index].undone() {
            note(&mut undoers, number, index as u64 + 1);
        }
    }
    Ok(undoers)
}

/// Notes by which entry that one is undone, where there is that one.
fn note(undoers: &mut [Option<u64>], number: u64, by: u64)
    ensures { undoers.new ≡ cond (nat_eq number 0) undoers.old
        (set undoers.old (number - 1) (Some by)) }
{
    if let Some(index) = number.checked_sub(1) {
        if index < undoers.len() as u64 {
            undoers[index as usize] = Some(by);
        }
    }
}
