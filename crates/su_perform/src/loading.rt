// What operations need is loaded.
ghost use Rattle.std.specs.Prelude.{◌≡◌, List, true, IfOk, IfErr, OnOk};
ghost use Rattle.su_bytes.specs.declared.refusals.Refusal.TheVariants.{NoMemory};
ghost use Rattle.su_table.specs.Tree.{Tree};
ghost use Rattle.su_asked.specs.Asked.{asked};
ghost use Rattle.su_part.specs.Bytes.{NoneClash};
ghost use Rattle.su_part_forest.specs.Forest.{Stands};
ghost use Rattle.su_part_forest.specs.Loading.{HashedFor, LoadsForest};
ghost use Rattle.su_perform.specs.Loaded.{HasArea, HasAreas, end_of, wanted_for};

use std::alloc::Global;
use su_asked::{asked_first, asked_then};
use su_block::BlockSource;
use su_bytes::{Refusal, User};
use su_op::{Area, BlockRun, Op, Part};
use su_part::Wanted;
use su_part_forest::PartForest;

/// Loads what stands in areas. Refused with `MissingBlock`, `WrongBlock` or `SourceFailed` where the
/// source fails, with `NoMemory` where memory is wanting, and with `Malformed(0)` where an item
/// spells nothing that belongs there; then the forest stands for what it stood for, and a part of
/// what stands in the areas may be loaded.
pub fn fetch<S: BlockSource>(
    forest: &mut PartForest,
    areas: &[Area],
    source: &mut S,
) -> Result<(), Refusal>
    requires { S.is_checked ≡ true }
    ensures loads { LoadsForest S.may_give S.failed S.follows forest.old forest.new
        source.old source.new result }
    ensures has { (T : Tree) → Stands forest.old T → NoneClash (HashedFor T) (S.may_give source.old)
        → OnOk result (HasAreas T forest.new areas.now) }
{
    for area in areas {
        fetch_area(forest, area, source)?;
    }
    Ok(())
}

/// Loads what stands in an area. Refused as `fetch` is.
fn fetch_area<S: BlockSource>(
    forest: &mut PartForest,
    area: &Area,
    source: &mut S,
) -> Result<(), Refusal>
    requires { S.is_checked ≡ true }
    ensures loads { LoadsForest S.may_give S.failed S.follows forest.old forest.new
        source.old source.new result }
    ensures has { (T : Tree) → Stands forest.old T → NoneClash (HashedFor T) (S.may_give source.old)
        → OnOk result (HasArea T forest.new area.now) }
{
    match area {
        Area::Pointer(file) => forest.fetch_pointer(*file, source),
        Area::Inode(place, part) => {
            let wanted = wanted_for(part)?;
            forest.fetch(*place, &wanted, source)
        }
    }
}

/// Returns what is wanted of an inode for a part of its cells. Fails only with `NoMemory`.
fn wanted_for(part: &Part) -> Result<Wanted, Refusal>
    ensures value { IfOk result (λ wanted. wanted ≡ wanted_for part.now) }
    ensures refused { IfErr result (λ e. e ≡ NoMemory) }
{
    match part {
        Part::Name(name) => Ok(Wanted::Name(name.clone()?)),
        Part::Blocks(run) => Ok(Wanted::Blocks {
            first: run.first,
            until: end_of(run),
        }),
        Part::Kind | Part::Links | Part::Size | Part::Whole => Ok(Wanted::Nothing),
    }
}

/// Returns the number behind the last block of a run, or the greatest of all numbers.
fn end_of(run: &BlockRun) -> u32
    ensures { result ≡ end_of run.now }
{
    run.first.saturating_add(run.more).saturating_add(1)
}

/// Loads what the check of an operation by `author` asks for. Refused as `fetch` is.
pub(crate) fn load_asked<S: BlockSource>(
    alloc: Global,
    forest: &mut PartForest,
    author: User,
    op: &Op,
    source: &mut S,
) -> Result<(), Refusal>
    requires { S.is_checked ≡ true }
    ensures loads { LoadsForest S.may_give S.failed S.follows forest.old forest.new
        source.old source.new result }
    ensures has { (T : Tree) → Stands forest.old T → NoneClash (HashedFor T) (S.may_give source.old)
        → OnOk result (HasAreas T forest.new (asked T author op.now)) }
{
    let first = asked_first(alloc, author, op)?;
    fetch(forest, first.as_slice(), source)?;
    let then = asked_then(alloc, author, op, forest)?;
    fetch(forest, then.as_slice(), source)
}
