// Which of the operations that have to be undone before another are a user's own.
ghost use Rattle.std.specs.Prelude.{◌≡◌, ◌≢◌, ◌⊎◌, ◌<◌, Some, Contains, IfOk, IfErr, IfSome, IfNone};
ghost use Rattle.su_bytes.specs.declared.refusals.Refusal.TheVariants.{MissingBlock, NoMemory};
ghost use Rattle.su_desk.specs.Answer.{live_refusal};
ghost use Rattle.su_legal.specs.Legal.{history};
ghost use Rattle.su_view.specs.Viewed.{IsClear};
ghost use Rattle.su_why.specs.Own.{AreMadeBy, IsOfNone, IsToldTo, author_at};

use crate::searching::reasons_in;
use std::alloc::Global;
use su_block::BlockSource;
use su_bytes::{FileId, Refusal, Roster, User};
use su_desk::{KeptEntry, entry_at};
use su_view::View;

/// Whether a user alone can undo an operation with all that has to be undone before it.
#[derive(Drop)]
pub enum OwnReasons {
    /// Yes: all of them, in an order in which they can be undone, that operation last.
    Own(Vec<u64>),
    /// No: of them that operation is another user's.
    Another { number: u64, author: User },
}

/// Finds all that has to be undone so that an operation of a view's list is, and whether each is the
/// view's user's own. `roster` is the view's. The refusals of `reasons_in`; and `NoOperation` with a
/// number that no entry of the list has. (No clause of `reasons_in` says that each has one.)
pub fn own_reasons_in<S: BlockSource + Drop>(
    alloc: Global,
    roster: Roster,
    view: &View<S>,
    number: u64,
) -> Result<OwnReasons, Refusal>
    requires { roster ≡ view.now.holding.roster }
    ensures told { let v = view.now.holding in IfOk result
        (IsToldTo v.roster (history v.held) v.user number) }
    ensures refused { let v = view.now.holding in IsClear S.may_give view.now
        → IfErr result (λ e. (e ≡ NoMemory)
        ⊎ ((e ≡ MissingBlock) × (0 < v.itemless))
        ⊎ (live_refusal (history v.held) number ≡ Some e)
        ⊎ IsOfNone (history v.held) e) }
{
    // names the type for the prover (docs/ARCHITECTURE.md, "Forms the kit wants")
    let _file: Option<FileId> = None;
    let mut all = reasons_in(alloc, roster, view, number)?;
    all.push(number)?;
    match first_of_others(view.history(), view.user(), all.as_slice())? {
        Some((number, author)) => Ok(OwnReasons::Another { number, author }),
        None => Ok(OwnReasons::Own(all)),
    }
}

/// Returns the first of some operations that isn't a user's own, with who made it. `NoOperation` with
/// the first number that no entry has.
pub fn first_of_others(
    entries: &[KeptEntry],
    user: User,
    numbers: &[u64],
) -> Result<Option<(u64, User)>, Refusal>
    ensures own { IfOk result (λ other. IfNone other
        (AreMadeBy entries.now user numbers.now)) }
    ensures among { IfOk result (λ other. IfSome other (λ o. Contains numbers.now o.0)) }
    ensures made { IfOk result (λ other. IfSome other (λ o.
        author_at entries.now o.0 ≡ Some o.1)) }
    ensures other { IfOk result (λ other. IfSome other (λ o. o.1 ≢ user)) }
    ensures refused { IfErr result (IsOfNone entries.now) }
{
    // names the type for the prover (docs/ARCHITECTURE.md, "Forms the kit wants")
    let _file: Option<FileId> = None;
    for number in numbers {
        let Some(entry) = entry_at(entries, *number) else {
            return Err(Refusal::NoOperation(*number));
        };
        let author = entry.author();
        if author != user {
            return Ok(Some((*number, author)));
        }
    }
    Ok(None)
}
