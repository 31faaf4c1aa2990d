// Areas that are read where they are spelled.
ghost use Rattle.std.specs.Prelude.{◌≡◌, true, IfOk, IfErr};
ghost use Rattle.su_op.specs.Area.{overlaps, parts_overlap};
ghost use Rattle.su_kept_areas.specs.Lent.{area_of, part_of};
ghost use Rattle.su_kept_areas.specs.Pointer.{is_pointer_of};
ghost use Rattle.su_kept_areas.specs.Spelling.{IsArea, IsPart};
ghost use Rattle.su_bytes.specs.declared.refusals.Refusal.TheVariants.{NoMemory};

use std::alloc::Global;
use su_bytes::{Group, GroupFile, Name, Place, Refusal};
use su_op::{Area, BlockRun, Part};

/// Cells of one inode. A name is lent by the bytes that spell it.
#[derive(Clone, Copy)]
pub(crate) enum LentPart<'a> {
    Kind,
    Links,
    Size,
    Whole,
    Blocks(BlockRun),
    Name(&'a [u8]),
}

/// An area whose name, if it has one, is lent by the bytes that spell it.
#[derive(Clone, Copy)]
pub(crate) enum LentArea<'a> {
    Inode(Place, LentPart<'a>),
    Pointer(GroupFile),
}

impl LentPart<'_> {
    /// Tells whether the two share a cell, where they are parts of one inode.
    fn overlaps(&self, other: &LentPart<'_>) -> bool
        ensures { result ≡ parts_overlap (part_of self.now) (part_of other.now) }
    {
        match (self, other) {
            (LentPart::Whole, _) | (_, LentPart::Whole) => true,
            (LentPart::Kind, LentPart::Kind) => true,
            (LentPart::Links, LentPart::Links) => true,
            (LentPart::Size, LentPart::Size) => true,
            (LentPart::Blocks(run), LentPart::Blocks(other)) => {
                run.first as u64 <= other.last() && other.first as u64 <= run.last()
            }
            (LentPart::Name(name), LentPart::Name(other)) => name == other,
            _ => false,
        }
    }

    /// Returns the part with a name of its own. Fails only with `NoMemory`, where it is one that a
    /// program can hold.
    fn to_part(&self, alloc: Global) -> Result<Part, Refusal>
        ensures value { IfOk result (λ part. part ≡ part_of self.now) }
        ensures refused { IsPart (part_of self.now) → IfErr result (λ e. e ≡ NoMemory) }
    {
        match self {
            LentPart::Kind => Ok(Part::Kind),
            LentPart::Links => Ok(Part::Links),
            LentPart::Size => Ok(Part::Size),
            LentPart::Whole => Ok(Part::Whole),
            LentPart::Blocks(run) => Ok(Part::Blocks(*run)),
            LentPart::Name(name) => {
                let name = Name::new(alloc, name)?;
                Ok(Part::Name(name))
            }
        }
    }
}

impl LentArea<'_> {
    /// Tells whether the two share a cell. Takes no memory.
    pub(crate) fn overlaps(&self, other: &LentArea<'_>) -> bool
        ensures { result ≡ overlaps (area_of self.now) (area_of other.now) }
    {
        match (self, other) {
            (LentArea::Inode(place, part), LentArea::Inode(other_place, other_part)) => {
                place == other_place && part.overlaps(other_part)
            }
            (LentArea::Pointer(file), LentArea::Pointer(other_file)) => file == other_file,
            _ => false,
        }
    }

    /// Tells whether it is the pointer of a file of that group.
    pub(crate) fn is_pointer_of(&self, group: Group) -> bool
        ensures { result ≡ is_pointer_of group (area_of self.now) }
    {
        match self {
            LentArea::Inode(..) => false,
            LentArea::Pointer(file) => file.0 == group,
        }
    }

    /// Returns the area with a name of its own. Fails only with `NoMemory`, where it is one that a
    /// program can hold.
    pub(crate) fn to_area(&self, alloc: Global) -> Result<Area, Refusal>
        ensures value { IfOk result (λ area. area ≡ area_of self.now) }
        ensures refused { IsArea (area_of self.now) → IfErr result (λ e. e ≡ NoMemory) }
    {
        match self {
            LentArea::Inode(place, part) => {
                let part = part.to_part(alloc)?;
                Ok(Area::Inode(*place, part))
            }
            LentArea::Pointer(file) => Ok(Area::Pointer(*file)),
        }
    }
}
