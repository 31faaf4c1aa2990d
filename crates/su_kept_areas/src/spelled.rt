// Lists of areas in bytes.
ghost use Rattle.std.specs.Prelude.{◌≡◌, List, length, IfOk, IfErr};
ghost use Rattle.std.specs.List.{list_any};
ghost use Rattle.su_op.specs.Area.{meet, overlaps};
ghost use Rattle.su_op.specs.declared.areas.Area.{Area as Area_};
ghost use Rattle.su_kept_areas.specs.Lent.{area_of};
ghost use Rattle.su_kept_areas.specs.Pointer.{carries};
ghost use Rattle.su_kept_areas.specs.Sided.{SpellSome, Spells};
ghost use Rattle.su_kept_areas.specs.Spelling.{areas_bytes};
ghost use Rattle.su_kept_areas.specs.declared.marks.Side.TheVariants.{Read, Written};
ghost use Rattle.su_bytes.specs.declared.refusals.Refusal.TheVariants.{NoMemory};

use crate::areas::size;
use crate::lent::LentArea;
use crate::marks::Side;
use crate::sided::split_first;
use std::alloc::Global;
use su_bytes::{FileId, Group, Refusal};
use su_op::Area;

/// Returns how many bytes the areas are spelled in. `NoMemory` where no memory has so many.
pub(crate) fn size_of_all(areas: &[Area]) -> Result<usize, Refusal>
    ensures value { IfOk result (λ size. size ≡ length (areas_bytes areas.now)) }
    ensures refused { IfErr result (λ e. e ≡ NoMemory) }
{
    // names the type for the prover (docs/ARCHITECTURE.md, "Forms the kit wants")
    let _file: Option<FileId> = None;
    let mut sum: usize = 0;
    for area in areas {
        sum = sum.checked_add(size(area)).ok_or(Refusal::NoMemory)?;
    }
    Ok(sum)
}

/// Reads all areas of that side that are spelled here. Fails only with `NoMemory`.
pub(crate) fn take_areas(alloc: Global, bytes: &[u8], side: Side) -> Result<Vec<Area>, Refusal>
    requires { SpellSome side bytes.now }
    ensures value { (w : List Area_) → Spells side bytes.now w
        → IfOk result (λ areas. areas.items ≡ w) }
    ensures refused { IfErr result (λ e. e ≡ NoMemory) }
{
    let mut areas = Vec::new(alloc);
    let mut left = bytes;
    while !left.is_empty() {
        let (first, behind) = split_first(left, side);
        let area = first.to_area(alloc)?;
        areas.push(area)?;
        left = behind;
    }
    Ok(areas)
}

/// Tells whether an area that is read of the first overlaps one that is written of the second.
/// Takes no memory.
pub(crate) fn meet(bytes: &[u8], others: &[u8]) -> bool
    requires first { SpellSome Read bytes.now }
    requires second { SpellSome Written others.now }
    ensures { (u w : List Area_) → Spells Read bytes.now u → Spells Written others.now w
        → result ≡ meet u w }
{
    let mut left = bytes;
    while !left.is_empty() {
        let (first, behind) = split_first(left, Side::Read);
        if overlaps_one(&first, others) {
            return true;
        }
        left = behind;
    }
    false
}

/// Tells whether the area overlaps one of these that are written. Takes no memory.
fn overlaps_one(area: &LentArea<'_>, others: &[u8]) -> bool
    requires { SpellSome Written others.now }
    ensures { (w : List Area_) → Spells Written others.now w
        → result ≡ list_any (overlaps (area_of area.now)) w }
{
    let mut left = others;
    while !left.is_empty() {
        let (first, behind) = split_first(left, Side::Written);
        if area.overlaps(&first) {
            return true;
        }
        left = behind;
    }
    false
}

/// Tells whether one of the areas that are written is the pointer of a file of that group. Takes
/// no memory.
pub(crate) fn carries(bytes: &[u8], group: Group) -> bool
    requires { SpellSome Written bytes.now }
    ensures { (w : List Area_) → Spells Written bytes.now w → result ≡ carries group w }
{
    let mut left = bytes;
    while !left.is_empty() {
        let (first, behind) = split_first(left, Side::Written);
        if first.is_pointer_of(group) {
            return true;
        }
        left = behind;
    }
    false
}
