// Writing the item of a change.
ghost use Rattle.std.specs.Prelude.{◌≡◌, ◌≤◌, ◌⊎◌, ◌∷◌, ◌++◌, length, IfErr, IfOk, OnOk};
ghost use Rattle.su_bytes.specs.declared.refusals.Refusal.TheVariants.{BadNumber, NoMemory, TooBig};
ghost use Rattle.su_op.specs.declared.operations.Change.TheVariants.{Do};
ghost use Rattle.su_format.specs.Part.{u64_bytes};
ghost use Rattle.su_change.specs.Item.{HasSpelling, HasItem, IsChange, IsTooLong, change_digest, item_bytes, tagged_bytes};

use crate::decoder::{FIRST_BYTE, LONGEST_ITEM};
use crate::{batch, operation, rekey};
use sha2::Sha256;
use std::alloc::{AllocError, Global};
use su_bytes::{Digest, Refusal};
use su_format::Writer;
use su_op::{Batch, Change};

/// Returns the item of a change, at most 70,000 bytes, which `decode` reads back. `BadNumber` where
/// it can't be spelled: a write of no bytes, or of more than `LARGEST_WRITE`, or more than 256
/// operations; `TooBig` where the item of several operations would be longer than 70,000 bytes;
/// `NoMemory` where there is no room for it.
pub fn encode(alloc: Global, change: &Change) -> Result<Vec<u8>, Refusal>
    ensures value { IfOk result (λ bytes.
        IsChange change.now × HasItem change.now × (bytes.items ≡ item_bytes change.now)) }
    ensures size { IfOk result (λ bytes.
        (1 ≤ length bytes.items) × (length bytes.items ≤ 70_000)) }
    ensures refused { IfErr result (λ e.
        ((e ≡ BadNumber) × (HasSpelling change.now → ⊥))
        ⊎ ((e ≡ TooBig) × IsTooLong change.now)
        ⊎ ((e ≡ NoMemory) × HasItem change.now)) }
{
    let size = item_size(change)?;
    match written(alloc, change, size) {
        Ok(writer) => Ok(writer.finish()),
        Err(_) => Err(Refusal::NoMemory),
    }
}

/// Returns the SHA-256 of the item of a change, by which a commit names it. It is refused as
/// `encode` says.
pub fn digest(alloc: Global, change: &Change) -> Result<Digest, Refusal>
    ensures value { IfOk result (λ digest.
        IsChange change.now × HasItem change.now × (digest ≡ change_digest change.now)) }
    ensures refused { IfErr result (λ e.
        ((e ≡ BadNumber) × (HasSpelling change.now → ⊥))
        ⊎ ((e ≡ TooBig) × IsTooLong change.now)
        ⊎ ((e ≡ NoMemory) × HasItem change.now)) }
{
    let bytes = encode(alloc, change)?;
    Ok(Digest::new(<Sha256 as sha2::Digest>::digest(bytes.as_slice())))
}

/// Returns how many bytes the item of a change has. `BadNumber` and `TooBig` as `encode` says.
#[tactic(auto, unfolding(crate::specs::Item::item_bytes))]
fn item_size(change: &Change) -> Result<usize, Refusal>
    ensures item { IfOk result (λ size. HasItem change.now) }
    ensures size { IfOk result (λ size. size ≡ length (item_bytes change.now)) }
    ensures refused { IfErr result (λ e.
        ((e ≡ BadNumber) × (HasSpelling change.now → ⊥)) ⊎ ((e ≡ TooBig) × IsTooLong change.now)) }
{
    match change {
        Change::Do(batch) => batch_item_size(batch),
        Change::Undo(_) => Ok(10),
        Change::Rekey(key) => Ok(1 + rekey::size(key)),
    }
}

/// Returns how many bytes the item of these operations has: behind the first byte stands an
/// operation alone; before several stand the number of the kind, and two bytes with how many there
/// are. It is refused as `encode` says.
#[tactic(auto, unfolding(crate::specs::Item::item_bytes))]
fn batch_item_size(batch: &Batch) -> Result<usize, Refusal>
    ensures item { IfOk result (λ size. HasItem (Do batch.now)) }
    ensures size { IfOk result (λ size. size ≡ length (item_bytes (Do batch.now))) }
    ensures refused { IfErr result (λ e.
        ((e ≡ BadNumber) × (HasSpelling (Do batch.now) → ⊥))
        ⊎ ((e ≡ TooBig) × IsTooLong (Do batch.now))) }
{
    let operations = batch::size(batch)?;
    if batch.count() == 1 {
        return Ok(1 + operations);
    }
    let size = 4 + operations;
    if size > LONGEST_ITEM {
        return Err(Refusal::TooBig);
    }
    Ok(size)
}

/// Returns a writer that has the item, with room for so many bytes at first. Fails only where there
/// is no room.
#[tactic(auto, unfolding(crate::specs::Item::item_bytes))]
fn written(alloc: Global, change: &Change, room: usize) -> Result<Writer, AllocError>
    requires { HasItem change.now }
    ensures { IfOk result (λ writer.
        IsChange change.now × (writer ≡ item_bytes change.now)) }
{
    let mut writer = Writer::with_room(alloc, room)?;
    writer.put_bytes(FIRST_BYTE)?;
    write_tagged(&mut writer, change)?;
    Ok(writer)
}

/// Writes the number of its kind, and its fields. Fails only where there is no room.
fn write_tagged(writer: &mut Writer, change: &Change) -> Result<(), AllocError>
    requires { HasItem change.now }
    ensures { OnOk result
        (IsChange change.now × (writer.new ≡ writer.old ++ tagged_bytes change.now)) }
{
    match change {
        Change::Undo(undone) => write_undo(writer, 0, *undone),
        Change::Do(batch) => write_batch(writer, batch),
        Change::Rekey(key) => rekey::write(writer, 9, key),
    }
}

/// Writes the number of the kind, and the number of the operation that is undone. Fails only where
/// there is no room.
fn write_undo(writer: &mut Writer, number: u8, undone: u64) -> Result<(), AllocError>
    ensures { OnOk result (writer.new ≡ writer.old ++ (number ∷ u64_bytes undone)) }
{
    writer.put_u8(number)?;
    writer.put_u64(undone)
}

/// Writes an operation alone with the number of its kind, or several with that of a batch. Fails
/// only where there is no room.
fn write_batch(writer: &mut Writer, batch: &Batch) -> Result<(), AllocError>
    requires { HasItem (Do batch.now) }
    ensures { OnOk result (IsChange (Do batch.now)
        × (writer.new ≡ writer.old ++ tagged_bytes (Do batch.now))) }
{
    match batch.only() {
        Some(operation) => operation::write(writer, operation),
        None => batch::write(writer, 10, batch),
    }
}
