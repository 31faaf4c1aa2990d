// What an operation reads and writes.
ghost use Rattle.std.specs.Prelude.{◌≡◌, ◌++◌, IfOk, IfErr, OnOk};
ghost use Rattle.su_op.specs.Area.{blocks_between};
ghost use Rattle.su_op.specs.Rule.{pointer_areas, file_areas};
ghost use Rattle.su_bytes.specs.declared.refusals.Refusal.TheVariants.{NoMemory};

use crate::areas::{Area, BlockRun, Part};
use std::alloc::Global;
use su_bytes::{FileId, Place, Refusal};
use su_node::BLOCK_SIZE;

/// The cells that an accepted operation reads, and those that it writes. What is written is also
/// read.
#[derive(Debug, Drop)]
pub struct Footprint {
    pub reads: Vec<Area>,
    pub writes: Vec<Area>,
}

impl Footprint {
    /// Makes one of what is read besides, and what is written. Fails only with `NoMemory`.
    pub fn new(besides: Vec<Area>, writes: Vec<Area>) -> Result<Footprint, Refusal>
        ensures reads { IfOk result (λ footprint.
            footprint.reads.items ≡ besides.items ++ writes.items) }
        ensures writes { IfOk result (λ footprint. footprint.writes.items ≡ writes.items) }
        ensures refused { IfErr result (λ e. e ≡ NoMemory) }
    {
        let mut reads = besides;
        let mut written = writes.clone()?;
        reads.append(&mut written)?;
        Ok(Footprint { reads, writes })
    }
}

/// Adds the pointer of a group file; a user's file has none. Fails only with `NoMemory`.
pub fn push_pointer(areas: &mut Vec<Area>, file: FileId) -> Result<(), Refusal>
    ensures ok { OnOk result (areas.new.items ≡ areas.old.items ++ pointer_areas file) }
    ensures refused { IfErr result (λ e. e ≡ NoMemory) }
{
    match file {
        FileId::User(..) => Ok(()),
        FileId::Group(group, number) => {
            areas.push(Area::Pointer((group, number)))?;
            Ok(())
        }
    }
}

/// Adds the cells that show that the file's body stands at `place`. Fails only with `NoMemory`.
pub fn push_file(areas: &mut Vec<Area>, file: FileId, place: Place) -> Result<(), Refusal>
    ensures ok { OnOk result (areas.new.items ≡ areas.old.items ++ file_areas file place) }
    ensures refused { IfErr result (λ e. e ≡ NoMemory) }
{
    areas.push(Area::Inode(place, Part::Kind))?;
    push_pointer(areas, file)
}

/// Returns the blocks that have the bytes from an offset up to an end.
pub fn blocks_between(off: u32, end_: u32) -> BlockRun
    ensures { result ≡ blocks_between off end_ }
{
    let first = off / BLOCK_SIZE as u32;
    let last = end_.saturating_sub(1) / BLOCK_SIZE as u32;
    BlockRun {
        first,
        more: last.saturating_sub(first),
    }
}
