// The entries that the commits of a list make.
ghost use Rattle.std.specs.Prelude.{◌≡◌, ◌⊎◌, ◌<◌, Some, length, slice_get, IfOk, IfErr};
ghost use Rattle.su_bytes.specs.declared.refusals.Refusal.TheVariants.{MissingBlock, NoMemory};
ghost use Rattle.su_legal.specs.Legal.{history};

use std::alloc::Global;
use su_block::BlockSource;
use su_bytes::{FileId, Refusal};
use su_change::decode;
use su_desk::Entry;
use su_version::Commit;
use su_view::View;

/// Returns the entries that the commits of a view's list make, in order: who made which change, in
/// which format. `MissingBlock` where the view has left one of their items; `NoMemory`.
pub fn entries_of<S: BlockSource + Drop>(
    alloc: Global,
    view: &View<S>,
) -> Result<Vec<Entry>, Refusal>
    ensures value { IfOk result (λ entries.
        entries.items ≡ history view.now.holding.held) }
    ensures refused { IfErr result (λ e. (e ≡ NoMemory)
        ⊎ ((e ≡ MissingBlock) × (0 < view.now.holding.itemless))) }
{
    // names the type for the prover (docs/ARCHITECTURE.md, "Forms the kit wants")
    let _file: Option<FileId> = None;
    let (count, _) = view.head();
    let mut entries = Vec::new(alloc);
    for before in 0..count {
        let entry = entry_behind(alloc, view, before)?;
        entries.push(entry)?;
    }
    Ok(entries)
}

/// Returns the entry that the commit behind so many makes. `MissingBlock` where the view has left its
/// item; `NoMemory`.
fn entry_behind<S: BlockSource + Drop>(
    alloc: Global,
    view: &View<S>,
    before: u64,
) -> Result<Entry, Refusal>
    requires { before < length view.now.holding.held }
    ensures value { IfOk result (λ entry.
        slice_get (history view.now.holding.held) before ≡ Some entry) }
    ensures refused { IfErr result (λ e. (e ≡ NoMemory)
        ⊎ ((e ≡ MissingBlock) × (0 < view.now.holding.itemless))) }
{
    // names the type for the prover (docs/ARCHITECTURE.md, "Forms the kit wants")
    let _file: Option<FileId> = None;
    let _head = view.head();
    let Some((bytes, item)) = view.entry(before + 1) else {
        return Err(Refusal::MissingBlock);
    };
    let commit = Commit::decode(alloc, bytes)?;
    let change = decode(alloc, item)?;
    let version = commit.version();
    Ok(Entry {
        author: version.author(),
        format: version.format(),
        change,
    })
}
