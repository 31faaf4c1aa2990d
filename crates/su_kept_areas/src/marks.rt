// Marks of areas, by which those are looked up that read a cell.
ghost use Rattle.std.specs.Prelude.{◌≡◌, ◌+◌, ◌<◌, length, slice_index};
ghost use Rattle.su_bytes.specs.Place.{Place as Place_};
ghost use Rattle.su_kept_areas.specs.Lent.{area_of, part_of};
ghost use Rattle.su_kept_areas.specs.Marks.{block_mark, cells_number, first_mark, is_broad, mark_at, marks, mixed, name_mark, other_marks, own_marks};

use crate::lent::{LentArea, LentPart};
use su_bytes::Place;

/// How many blocks a run has at most of which each has a mark of its own.
const FEW_BLOCKS: u32 = 32;

/// By what a mark is multiplied before a word is added.
const FACTOR: u32 = 2_654_435_761;

/// Which cells a mark stands for.
#[derive(Clone, Copy)]
pub(crate) enum Cells {
    Kind,
    Links,
    Size,
    Name,
    Block,
    /// All of an inode, or a longer run of its blocks.
    Broad,
    /// Cells of an inode, whichever.
    Any,
    Pointer,
}

/// Whether the areas were read or written.
#[derive(Clone, Copy)]
pub(crate) enum Side {
    Read,
    Written,
}

impl Cells {
    /// Returns the number that tells it.
    fn number(self) -> u32
        ensures { result ≡ cells_number self }
    {
        match self {
            Cells::Kind => 1,
            Cells::Links => 2,
            Cells::Size => 3,
            Cells::Name => 4,
            Cells::Block => 5,
            Cells::Broad => 6,
            Cells::Any => 7,
            Cells::Pointer => 8,
        }
    }

    /// Returns the mark of such cells, of a user or a group, at a number of its table.
    fn mark(self, owner: u8, number: u32) -> u32
        ensures { result ≡ mark_at self (owner, number) }
    {
        mixed(mixed(self.number(), u32::from(owner)), number)
    }

    /// Returns the mark of such cells of what stands at that place.
    fn mark_at(self, place: &Place) -> u32
        ensures { result ≡ mark_at self place.now }
    {
        self.mark(place.0.number(), place.1.number())
    }
}

/// Adds a word to a mark.
fn mixed(mark: u32, word: u32) -> u32
    ensures { result ≡ mixed mark word }
{
    mark.wrapping_mul(FACTOR).wrapping_add(word)
}

/// Returns the mark of a name of the directory at that place.
fn name_mark(place: &Place, name: &[u8]) -> u32
    ensures { result ≡ name_mark place.now name.now }
{
    name.iter().fold(
        Cells::Name.mark_at(place),
        |mark, byte| mixed(mark, u32::from(*byte)),
    )
}

/// Returns the mark of the block that stands so many behind the first, of the file at that place.
fn block_mark(place: &Place, first: u32, index: u32) -> u32
    ensures { result ≡ block_mark place.now (first + index) }
{
    mixed(Cells::Block.mark_at(place), first.wrapping_add(index))
}

impl LentPart<'_> {
    /// Tells whether it is all of an inode, or a longer run of its blocks.
    fn is_broad(&self) -> bool
        ensures { result ≡ is_broad (part_of self.now) }
    {
        match self {
            LentPart::Whole => true,
            LentPart::Blocks(run) => run.more >= FEW_BLOCKS,
            LentPart::Kind | LentPart::Links | LentPart::Size | LentPart::Name(_) => false,
        }
    }

    /// Returns how many marks it has itself.
    fn own_count(&self) -> u32
        ensures value { (p : Place_) → result ≡ length (own_marks p (part_of self.now)) }
        ensures few { result < 33 }
    {
        match self {
            LentPart::Blocks(run) => {
                if run.more < FEW_BLOCKS {
                    run.more + 1
                } else {
                    1
                }
            }
            LentPart::Kind
            | LentPart::Links
            | LentPart::Size
            | LentPart::Name(_)
            | LentPart::Whole => 1,
        }
    }

    /// Returns the mark at that index among those that it has itself.
    fn own_mark(&self, place: &Place, index: u32) -> u32
        requires { index < length (own_marks place.now (part_of self.now)) }
        ensures { result ≡ slice_index (own_marks place.now (part_of self.now)) index }
    {
        match self {
            LentPart::Kind => Cells::Kind.mark_at(place),
            LentPart::Links => Cells::Links.mark_at(place),
            LentPart::Size => Cells::Size.mark_at(place),
            LentPart::Name(name) => name_mark(place, name),
            LentPart::Blocks(run) => {
                if run.more < FEW_BLOCKS {
                    block_mark(place, run.first, index)
                } else {
                    Cells::Broad.mark_at(place)
                }
            }
            LentPart::Whole => Cells::Broad.mark_at(place),
        }
    }

    /// Returns the first mark of its side.
    fn first_mark(&self, side: Side, place: &Place) -> u32
        ensures { result ≡ first_mark side place.now (part_of self.now) }
    {
        match side {
            Side::Read => Cells::Any.mark_at(place),
            Side::Written => {
                if self.is_broad() {
                    Cells::Any.mark_at(place)
                } else {
                    Cells::Broad.mark_at(place)
                }
            }
        }
    }

    /// Returns how many other marks its side has.
    fn other_count(&self, side: Side) -> u32
        ensures value { (p : Place_) → result ≡ length (other_marks side p (part_of self.now)) }
        ensures few { result < 33 }
    {
        match side {
            Side::Read => self.own_count(),
            Side::Written => { if self.is_broad() { 0 } else { self.own_count() } }
        }
    }
}

impl LentArea<'_> {
    /// Returns how many marks its side has.
    pub(crate) fn mark_count(&self, side: Side) -> u32
        ensures value { result ≡ length (marks side (area_of self.now)) }
        ensures some { 0 < result }
    {
        match self {
            LentArea::Inode(_, part) => 1 + part.other_count(side),
            LentArea::Pointer(_) => 1,
        }
    }

    /// Returns the mark at that index among those of its side.
    pub(crate) fn mark(&self, side: Side, index: u32) -> u32
        requires { index < length (marks side (area_of self.now)) }
        ensures { result ≡ slice_index (marks side (area_of self.now)) index }
    {
        match self {
            LentArea::Inode(place, part) => {
                if index == 0 {
                    part.first_mark(side, place)
                } else {
                    part.own_mark(place, index - 1)
                }
            }
            LentArea::Pointer((group, number)) => {
                Cells::Pointer.mark(group.number(), number.number())
            }
        }
    }
}
