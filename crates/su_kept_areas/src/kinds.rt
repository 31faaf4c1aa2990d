// The kinds of areas, by the byte that each has in front.
ghost use Rattle.std.specs.Prelude.{◌≡◌, ◌<◌, IfSome, IfNone};
ghost use Rattle.su_kept_areas.specs.Spelling.{kind_number, kind_of, part_kind};
ghost use Rattle.su_kept_areas.specs.declared.kinds.AreaKind.{AreaKind as AreaKind_};

use su_op::{Area, Part};

/// Which cells of an inode.
#[derive(Clone, Copy, Debug, PartialEq, Eq)]
pub(crate) enum PartKind {
    Kind,
    Links,
    Size,
    Whole,
    Blocks,
    Name,
}

/// Cells of an inode, or the pointer of a group file.
#[derive(Clone, Copy, Debug, PartialEq, Eq)]
pub(crate) enum AreaKind {
    Pointer,
    Inode(PartKind),
}

impl PartKind {
    /// Returns the kind of a part.
    fn of(part: &Part) -> PartKind
        ensures { result ≡ part_kind part.now }
    {
        match part {
            Part::Kind => PartKind::Kind,
            Part::Links => PartKind::Links,
            Part::Size => PartKind::Size,
            Part::Name(_) => PartKind::Name,
            Part::Blocks(_) => PartKind::Blocks,
            Part::Whole => PartKind::Whole,
        }
    }
}

impl AreaKind {
    /// Returns the kind of an area.
    pub(crate) fn of(area: &Area) -> AreaKind
        ensures { result ≡ kind_of area.now }
    {
        match area {
            Area::Inode(_, part) => AreaKind::Inode(PartKind::of(part)),
            Area::Pointer(_) => AreaKind::Pointer,
        }
    }

    /// Returns the byte that tells it.
    pub(crate) fn number(self) -> u8
        ensures value { result ≡ kind_number self }
        ensures few { result < 8 }
    {
        match self {
            AreaKind::Pointer => 0,
            AreaKind::Inode(PartKind::Kind) => 1,
            AreaKind::Inode(PartKind::Links) => 2,
            AreaKind::Inode(PartKind::Size) => 3,
            AreaKind::Inode(PartKind::Whole) => 4,
            AreaKind::Inode(PartKind::Blocks) => 5,
            AreaKind::Inode(PartKind::Name) => 6,
        }
    }

    /// Returns the kind that the byte tells, if it tells one.
    pub(crate) fn of_number(number: u8) -> Option<AreaKind>
        ensures found { IfSome result (λ kind. kind_number kind ≡ number) }
        ensures none { IfNone result ((kind : AreaKind_) → kind_number kind ≡ number → ⊥) }
    {
        match number {
            0 => Some(AreaKind::Pointer),
            1 => Some(AreaKind::Inode(PartKind::Kind)),
            2 => Some(AreaKind::Inode(PartKind::Links)),
            3 => Some(AreaKind::Inode(PartKind::Size)),
            4 => Some(AreaKind::Inode(PartKind::Whole)),
            5 => Some(AreaKind::Inode(PartKind::Blocks)),
            6 => Some(AreaKind::Inode(PartKind::Name)),
            _ => None,
        }
    }
}
