// What is kept of areas whatever stands there: of a standing inode, in place of its kind, all of
// it.
ghost use Rattle.std.specs.Prelude.{◌≡◌, ◌⊎◌, true, IfOk, IfErr};
ghost use Rattle.su_op.specs.declared.areas.Part.TheVariants.{Kind as KindPart};
ghost use Rattle.su_op.specs.declared.areas.Area.TheVariants.{Inode as InodeArea};
ghost use Rattle.su_op.specs.Area.{has, in_area};
ghost use Rattle.su_table.specs.Cell.{Cell};
ghost use Rattle.su_table.specs.Tree.{Tree};
ghost use Rattle.su_part_forest.specs.Forest.{Stands};
ghost use Rattle.su_perform.specs.Loaded.{HasArea, HasAreas};
ghost use Rattle.su_inverse.specs.Kept.{CanKeep};
ghost use Rattle.su_inverse.specs.Whole.{made_whole, KindsChangeWhole};
ghost use Rattle.su_part_inverse.specs.Kept.{inverse_areas, IsKeptOf};
ghost use Rattle.su_bytes.specs.declared.refusals.Refusal.TheVariants.{MissingBlock, NoMemory};

use crate::inverses::{Inverse, build};
use std::alloc::Global;
use su_bytes::{Place, Refusal};
use su_op::{Area, Part};
use su_part_forest::PartForest;

/// Keeps the value of every cell of the areas, whatever stands there: where the kind of a standing
/// inode is among them, all of that inode. Where whatever writes the kind of an inode writes all of
/// it, or makes it, that is no cell more. Refused as `build` is.
pub fn build_whole(alloc: Global, forest: &PartForest, areas: &[Area]) -> Result<Inverse, Refusal>
    ensures covers { IfOk result (λ inverse.
        (c : Cell) → has areas.now c ≡ true → has (inverse_areas inverse) c ≡ true) }
    ensures exact { (T : Tree) → Stands forest.now T → KindsChangeWhole T areas.now
        → IfOk result (λ inverse. (c : Cell) → has (inverse_areas inverse) c ≡ has areas.now c) }
    ensures kept { (T : Tree) → Stands forest.now T
        → IfOk result (λ inverse. IsKeptOf inverse T) }
    ensures refused { IfErr result (λ e. (e ≡ NoMemory) ⊎ (e ≡ MissingBlock)) }
    ensures loaded { (T : Tree) → Stands forest.now T → HasAreas T forest.now areas.now
        → IfErr result (λ e. e ≡ NoMemory) }
{
    let mut wider = Vec::with_capacity(alloc, areas.len())?;
    for area in areas {
        let whole = whole_area(forest, area)?;
        wider.push(whole)?;
    }
    build(alloc, forest, wider.as_slice())
}

/// Returns the area; but all of the inode, where the area is the kind of a standing one. Refused as
/// `build` is.
fn whole_area(forest: &PartForest, area: &Area) -> Result<Area, Refusal>
    ensures covers { IfOk result (λ wider.
        (c : Cell) → in_area area.now c ≡ true → in_area wider c ≡ true) }
    ensures value { (T : Tree) → Stands forest.now T
        → IfOk result (λ wider. wider ≡ made_whole T area.now) }
    ensures can_keep { (T : Tree) → Stands forest.now T → IfOk result (CanKeep T) }
    ensures refused { IfErr result (λ e. (e ≡ NoMemory) ⊎ (e ≡ MissingBlock)) }
    ensures loaded { (T : Tree) → Stands forest.now T → HasArea T forest.now area.now
        → IfErr result (λ e. e ≡ NoMemory) }
{
    match area {
        Area::Inode(place, part) => match part {
            Part::Kind => whole_kind(forest, place),
            _ => Ok(area.clone()?),
        },
        Area::Pointer(_) => Ok(area.clone()?),
    }
}

/// Returns the kind of what stands at a place; but all of it, where something stands there. Refused
/// as `build` is.
fn whole_kind(forest: &PartForest, place: &Place) -> Result<Area, Refusal>
    ensures covers { IfOk result (λ wider. (c : Cell)
        → in_area (InodeArea place.now KindPart) c ≡ true → in_area wider c ≡ true) }
    ensures value { (T : Tree) → Stands forest.now T
        → IfOk result (λ wider. wider ≡ made_whole T (InodeArea place.now KindPart)) }
    ensures can_keep { (T : Tree) → Stands forest.now T → IfOk result (CanKeep T) }
    ensures refused { IfErr result (λ e. (e ≡ NoMemory) ⊎ (e ≡ MissingBlock)) }
    ensures loaded { (T : Tree) → Stands forest.now T
        → HasArea T forest.now (InodeArea place.now KindPart)
        → IfErr result (λ e. e ≡ NoMemory) }
{
    if !forest.has_inode(*place) {
        return Err(Refusal::MissingBlock);
    }
    if forest.is_free(*place) {
        Ok(Area::Inode(*place, Part::Kind))
    } else {
        Ok(Area::Inode(*place, Part::Whole))
    }
}
