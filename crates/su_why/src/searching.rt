// What has to be undone before an operation of a list can be.
ghost use Rattle.std.specs.Prelude.{◌≡◌, ◌⊎◌, ◌<◌, Some, map, IfOk, IfErr};
ghost use Rattle.su_bytes.specs.declared.refusals.Refusal.TheVariants.{MissingBlock, NoMemory};
ghost use Rattle.su_desk.specs.Answer.{Good, live_refusal};
ghost use Rattle.su_desk.specs.Trial.{nothing_ready};
ghost use Rattle.su_legal.specs.Legal.{history};
ghost use Rattle.su_part_tree.specs.Loading.{IsLoadRefusal};
ghost use Rattle.su_reasons.specs.Reasons.{AreReasons};
ghost use Rattle.su_view.specs.Viewed.{IsClear};
ghost use Rattle.su_why.specs.Quiet.{IsQuiet};

use crate::entries::entries_of;
use std::alloc::{AllocError, Global};
use su_block::{BlockSource, MemoryBlocks};
use su_bytes::{FileId, Refusal, Roster, User};
use su_desk::Entry;
use su_reasons::reasons;
use su_stored_desk::TrialDesk;
use su_view::View;

/// Finds the operations of a view's list that have to be undone before that one can be, in an order
/// in which they can be: `su_reasons::reasons` of the history that the list tells, which is gone
/// through once more on a desk of its own. `roster` is the view's. `NoOperation`, `NotOperation`,
/// `AlreadyUndone` where the number isn't that of a live operation; `MissingBlock` where the view has
/// left an item of its list; `NoMemory`. (Also what refuses a change of the list, as can be once the
/// view's source has mixed items up.)
pub fn reasons_in<S: BlockSource + Drop>(
    alloc: Global,
    roster: Roster,
    view: &View<S>,
    number: u64,
) -> Result<Vec<u64>, Refusal>
    requires { roster ≡ view.now.holding.roster }
    ensures reasons { let v = view.now.holding in IfOk result (λ numbers.
        AreReasons v.roster (history v.held) number numbers.items) }
    ensures refused { let v = view.now.holding in IsClear S.may_give view.now
        → IfErr result (λ e. (e ≡ NoMemory)
        ⊎ ((e ≡ MissingBlock) × (0 < v.itemless))
        ⊎ (live_refusal (history v.held) number ≡ Some e)) }
{
    // names the type for the prover (docs/ARCHITECTURE.md, "Forms the kit wants")
    let _file: Option<FileId> = None;
    let _head = view.head();
    let entries = entries_of(alloc, view)?;
    let authors = authors_of(alloc, entries.as_slice())?;
    let mut desk = desk_after(alloc, roster, entries)?;
    match reasons(alloc, &mut desk, authors.as_slice(), number) {
        Ok(numbers) => Ok(numbers),
        Err(refusal) => Err(without_loads(refusal)),
    }
}

/// Tells a refusal of a desk all of which is loaded: a load that is refused as want of memory. (It
/// can't come, as nothing was left on the desk's store; but no clause of the desk says so.)
fn without_loads(refusal: Refusal) -> Refusal
    ensures load { IsLoadRefusal refusal → result ≡ NoMemory }
    ensures told { (result ≡ NoMemory) ⊎ (result ≡ refusal) }
{
    match refusal {
        Refusal::MissingBlock
        | Refusal::WrongBlock
        | Refusal::SourceFailed
        | Refusal::Malformed(_) => Refusal::NoMemory,
        refusal => refusal,
    }
}

/// Returns the authors of entries.
fn authors_of(alloc: Global, entries: &[Entry]) -> Result<Vec<User>, AllocError>
    ensures { IfOk result (λ authors. authors.items ≡ map (λ e. e.author) entries.now) }
{
    let mut authors = Vec::new(alloc);
    for entry in entries {
        authors.push(entry.author)?;
    }
    Ok(authors)
}

/// Makes the desk of a history, all of it loaded, over a store that has nothing. Fails only with
/// `NoMemory` where the history is good, else with what refuses a change.
fn desk_after(
    alloc: Global,
    roster: Roster,
    entries: Vec<Entry>,
) -> Result<TrialDesk<MemoryBlocks>, Refusal>
    ensures state { IfOk result (λ desk.
        desk.state ≡ nothing_ready (record { roster = roster; history = entries.items })) }
    ensures quiet { IfOk result IsQuiet }
    ensures refused { Good roster entries.items → IfErr result (λ e. e ≡ NoMemory) }
{
    // names the type for the prover (docs/ARCHITECTURE.md, "Forms the kit wants")
    let _file: Option<FileId> = None;
    let mut desk = TrialDesk::new(alloc, roster, MemoryBlocks::new(alloc))?;
    for entry in entries {
        let Entry {
            author,
            format,
            change,
        } = entry;
        if let Err(refusal) = desk.apply_as(format, author, change) {
            return Err(without_loads(refusal));
        }
    }
    Ok(desk)
}
