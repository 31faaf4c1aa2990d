// Footprints as a desk keeps them.
ghost use Rattle.std.specs.Prelude.{◌≡◌, ◌≢◌, ◌+◌, true, false, [], length, IfOk, IfErr, OnOk};
ghost use Rattle.su_op.specs.Area.{meet};
ghost use Rattle.su_kept_areas.specs.Kept.{BeginWith, IsPut, IsSpelledAs, StandAmong};
ghost use Rattle.su_kept_areas.specs.Pointer.{carries};
ghost use Rattle.su_kept_areas.specs.Sided.{Spells};
ghost use Rattle.su_kept_areas.specs.Spelling.{areas_bytes};
ghost use Rattle.su_kept_areas.specs.declared.marks.Side.TheVariants.{Read, Written};
ghost use Rattle.su_bytes.specs.declared.refusals.Refusal.TheVariants.{NoMemory};

use crate::marks::Side;
use crate::sided::{Sides, from_side, put_sided};
use crate::spelled::{carries, meet, size_of_all, take_areas};
use http_server::Log;
use std::alloc::{AllocError, Global};
use std::marker::Model;
use su_bytes::{Group, Refusal};
use su_format::Writer;
use su_op::{Area, Footprint};

/// A footprint as a desk keeps it: its areas in bytes. Its model is the footprint.
#[derive(Drop)]
pub struct KeptFootprint {
    /// The areas that are read or written, each with its sides.
    bytes: Vec<u8>,
    /// The footprint alone, which proofs read. (`Log` is the kit's list that no memory holds.)
    whole: Log<Footprint, ()>,
}

impl Model for KeptFootprint {
    ghost use Rattle.su_op.specs.declared.footprints.Footprint.{Footprint as TheFootprint};

    ghost Value = { TheFootprint };

    ghost use Rattle.su_kept_areas.specs.Kept.{IsKeptAs, first_in, nothing_in};

    ghost view = { λ k. first_in (nothing_in k.bytes) k.whole.items };

    ghost invariant = { λ k.
        IsKeptAs k.bytes.items (first_in (nothing_in k.bytes) k.whole.items) };
}

impl KeptFootprint {
    /// Keeps a footprint. Fails only with `NoMemory`.
    pub fn new(alloc: Global, footprint: &Footprint) -> Result<KeptFootprint, Refusal>
        ensures value { IfOk result (λ kept. kept ≡ footprint.now) }
        ensures refused { IfErr result (λ e. e ≡ NoMemory) }
    {
        let whole = Log::new().and(footprint, &());
        let bytes = spell(alloc, &footprint.reads, &footprint.writes)?;
        Ok(KeptFootprint { bytes, whole })
    }

    /// Returns what it keeps. Fails only with `NoMemory`.
    pub fn footprint(&self, alloc: Global) -> Result<Footprint, Refusal>
        ensures reads { IfOk result (λ f. f.reads.items ≡ self.now.reads.items) }
        ensures writes { IfOk result (λ f. f.writes.items ≡ self.now.writes.items) }
        ensures refused { IfErr result (λ e. e ≡ NoMemory) }
    {
        let reads = take_areas(alloc, self.bytes_read(), Side::Read)?;
        let writes = take_areas(alloc, self.bytes_written(), Side::Written)?;
        Ok(Footprint { reads, writes })
    }

    /// Returns the areas that are written. Fails only with `NoMemory`.
    pub fn writes(&self, alloc: Global) -> Result<Vec<Area>, Refusal>
        ensures value { IfOk result (λ areas. areas.items ≡ self.now.writes.items) }
        ensures refused { IfErr result (λ e. e ≡ NoMemory) }
    {
        take_areas(alloc, self.bytes_written(), Side::Written)
    }

    /// Tells whether it reads a cell that the other one writes. Takes no memory.
    pub fn reads_what_is_written_by(&self, other: &KeptFootprint) -> bool
        ensures { result ≡ meet self.now.reads.items other.now.writes.items }
    {
        meet(self.bytes_read(), other.bytes_written())
    }

    /// Tells whether a pointer of that group is among what is written. Takes no memory.
    pub fn writes_group(&self, group: Group) -> bool
        ensures { result ≡ carries group self.now.writes.items }
    {
        carries(self.bytes_written(), group)
    }

    /// Lends the bytes that spell what is read.
    pub(crate) fn bytes_read(&self) -> &[u8]
        ensures { Spells Read result.now self.now.reads.items }
    {
        from_side(&self.bytes, Side::Read)
    }

    /// Lends the bytes that spell what is written.
    pub(crate) fn bytes_written(&self) -> &[u8]
        ensures { Spells Written result.now self.now.writes.items }
    {
        from_side(&self.bytes, Side::Written)
    }
}

/// Spells what is read and what is written, in just as much room: what is written stands where it
/// is read, as far as it is read in the same order. Fails only with `NoMemory`.
fn spell(alloc: Global, reads: &[Area], writes: &[Area]) -> Result<Vec<u8>, Refusal>
    ensures value { IfOk result (λ bytes. IsSpelledAs bytes.items reads.now writes.now) }
    ensures few { IfOk result (λ bytes. StandAmong writes.now reads.now
        → length bytes.items ≡ length (areas_bytes reads.now)) }
    ensures refused { IfErr result (λ e. e ≡ NoMemory) }
{
    let read = size_of_all(reads)?;
    let written = size_of_all(unread(reads, writes))?;
    let mut writer = Writer::with_room(alloc, read.saturating_add(written))?;
    put_both(&mut writer, reads, writes)?;
    Ok(writer.finish())
}

/// Returns the areas that are written, from the first one on that isn't among those that are read,
/// in the same order.
fn unread<'a>(reads: &[Area], writes: &'a [Area]) -> &'a [Area]
    ensures { StandAmong writes.now reads.now → result.now ≡ [] }
{
    let mut left = writes;
    for area in reads {
        if is_next(area, left) {
            left = &left[1..];
        }
    }
    left
}

/// Tells whether the area is the first of those.
fn is_next(area: &Area, areas: &[Area]) -> bool
    ensures found { result ≡ true → BeginWith area.now areas.now }
    ensures none { result ≡ false → BeginWith area.now areas.now → ⊥ }
{
    !areas.is_empty() && is_same(&areas[0], area)
}

/// Tells whether the two are the same area.
fn is_same(area: &Area, other: &Area) -> bool
    ensures same { result ≡ true → area.now ≡ other.now }
    ensures other { result ≡ false → area.now ≢ other.now }
{
    area == other
}

/// Writes what is read, each area with its sides, and behind it what is written besides. Fails
/// where there is no room.
fn put_both(writer: &mut Writer, reads: &[Area], writes: &[Area]) -> Result<(), AllocError>
    ensures put { OnOk result (IsPut writer.old writer.new reads.now writes.now) }
    ensures few { OnOk result (StandAmong writes.now reads.now
        → length writer.new ≡ length writer.old + length (areas_bytes reads.now)) }
{
    let mut left = writes;
    for area in reads {
        if is_next(area, left) {
            put_sided(writer, Sides::Both, area)?;
            left = &left[1..];
        } else {
            put_sided(writer, Sides::Read, area)?;
        }
    }
    put_written(writer, left)
}

/// Writes areas that are written alone. Fails where there is no room.
fn put_written(writer: &mut Writer, areas: &[Area]) -> Result<(), AllocError>
    ensures { OnOk result (IsPut writer.old writer.new [] areas.now) }
{
    for area in areas {
        put_sided(writer, Sides::Written, area)?;
    }
    Ok(())
}
