// Areas: the sets of cells that operations read and write.
ghost use Rattle.std.specs.Prelude.{◌≡◌, ◌+◌, ◌↔◌, true};
ghost use Rattle.su_op.specs.Area.{overlaps, parts_overlap, runs_overlap, ShareACell};

use su_bytes::{GroupFile, Name, Place};

/// A run of a file's blocks of 4,096 bytes: the first one, and how many follow it. So no run is
/// empty.
#[derive(Clone, Copy, Debug, PartialEq, Eq)]
pub struct BlockRun {
    pub first: u32,
    pub more: u32,
}

/// Cells of one inode.
#[derive(Clone, Debug, PartialEq, Eq, Drop)]
pub enum Part {
    /// What it is, and the file id that it was made for.
    Kind,
    Links,
    Size,
    /// Where the name leads.
    Name(Name),
    Blocks(BlockRun),
    /// All of its cells.
    Whole,
}

/// A set of cells that stand together.
#[derive(Clone, Debug, PartialEq, Eq, Drop)]
pub enum Area {
    /// Cells of what stands at that number of the user's i-table.
    Inode(Place, Part),
    /// The pointer of a group file.
    Pointer(GroupFile),
}

impl BlockRun {
    /// Returns the last block.
    pub fn last(self) -> u64
        ensures { result ≡ self.first + self.more }
    {
        self.first as u64 + self.more as u64
    }

    /// Tells whether a block is in both.
    fn overlaps(self, other: BlockRun) -> bool
        ensures { result ≡ runs_overlap self other }
    {
        self.first as u64 <= other.last() && other.first as u64 <= self.last()
    }
}

impl Part {
    /// Tells whether the two share a cell, where they are parts of one inode.
    fn overlaps(&self, other: &Part) -> bool
        ensures { result ≡ parts_overlap self.now other.now }
    {
        match (self, other) {
            (Part::Whole, _) | (_, Part::Whole) => true,
            (Part::Kind, Part::Kind) => true,
            (Part::Links, Part::Links) => true,
            (Part::Size, Part::Size) => true,
            (Part::Name(name), Part::Name(other)) => name == other,
            (Part::Blocks(run), Part::Blocks(other)) => run.overlaps(*other),
            _ => false,
        }
    }
}

impl Area {
    /// Tells whether the two share a cell. Takes no memory.
    pub fn overlaps(&self, other: &Area) -> bool
        ensures value { result ≡ overlaps self.now other.now }
        ensures exact { (result ≡ true) ↔ ShareACell self.now other.now }
    {
        match (self, other) {
            (Area::Inode(place, part), Area::Inode(other_place, other_part)) => {
                place == other_place && part.overlaps(other_part)
            }
            (Area::Pointer(file), Area::Pointer(other_file)) => file == other_file,
            _ => false,
        }
    }
}
