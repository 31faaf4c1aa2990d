// Replies, in bytes.
ghost use Rattle.std.specs.Prelude.{◌≡◌, ◌⊎◌, ◌++◌, ◌∷◌, Ok, Err, IfOk, IfSome, IfNone, OnOk};
ghost use Rattle.su_bytes.specs.declared.refusals.Refusal.TheVariants.{NoMemory};
ghost use Rattle.su_bytes.specs.Refusal.{refusal_number};
ghost use Rattle.su_format.specs.Reading.{Takes};
ghost use Rattle.su_format.specs.Part.{u64_bytes};
ghost use Rattle.su_message.specs.LastNumbers.{AreLast, users_bytes};
ghost use Rattle.su_message.specs.declared.replies.Reply.{Reply as Reply_};
ghost use Rattle.su_message.specs.declared.replies.Reply.TheVariants as reply;
ghost use Rattle.su_message.specs.Tagged.{HasNoKind, ReadsTagged, fields_of};
ghost use Rattle.su_message.specs.Reply.{IsReply, granted_fields, item_fields, kept_fields, put_done_fields, refused_argument, refused_fields, reply_bytes, reply_kinds, stored_fields};

use crate::byte_strings::Bytes;
use crate::digests::put_digest;
use crate::last_numbers::LastNumbers;
use std::alloc::{AllocError, Global};
use su_bytes::{Digest, FileId, Refusal};
use su_format::{Reader, Writer};

/// What a server replies.
#[derive(Drop)]
pub enum Reply {
    /// The turn is granted: how many records there are, and the last of each user.
    Granted(u64, LastNumbers),
    /// The commit is stored, as the record of this number.
    Stored(u64),
    /// The turn is given back.
    Given,
    /// The bytes of the record.
    Kept(Bytes),
    /// There is no such record.
    Nothing,
    /// The item is held; its digest.
    PutDone(Digest),
    /// The item.
    Item(Bytes),
    /// The request is refused: the number of the refusal, and its argument.
    Refused(u8, u64),
}

impl Reply {
    /// The reply that tells of a refusal. Of arguments there is room for one number: the place of
    /// `Malformed`, the seat of `Busy`, the number of `WrongPrev`; of others it is 0.
    pub fn refused(refusal: &Refusal) -> Reply
        ensures { result ≡ reply.Refused (refusal_number refusal.now) (refused_argument refusal.now) }
    {
        let argument = match refusal {
            Refusal::Malformed(place) => *place,
            Refusal::Busy(seat) => u64::from(*seat),
            Refusal::WrongPrev(number) => *number,
            _ => 0,
        };
        Reply::Refused(refusal.number(), argument)
    }

    /// Returns the message that spells the reply. Fails where there is no memory.
    pub fn encode(&self, alloc: Global) -> Result<Vec<u8>, AllocError>
        ensures { IfOk result (λ bytes.
            IsReply self.now × (bytes.items ≡ reply_bytes self.now)) }
    {
        let mut writer = Writer::with_room(alloc, self.room())?;
        self.write(&mut writer)?;
        Ok(writer.finish())
    }

    /// Bytes of room that are taken at first, so that few messages move.
    fn room(&self) -> usize {
        match self {
            Reply::Kept(bytes) => bytes.as_slice().len().saturating_add(1),
            Reply::Item(bytes) => bytes.as_slice().len().saturating_add(1),
            _ => 64,
        }
    }

    /// Writes the number of its kind, and its fields.
    fn write(&self, writer: &mut Writer) -> Result<(), AllocError>
        ensures { OnOk result
            (IsReply self.now × (writer.new ≡ writer.old ++ reply_bytes self.now)) }
    {
        match self {
            Reply::Granted(count, last) => {
                writer.put_u8(0x81)?;
                write_granted(writer, *count, last)
            }
            Reply::Stored(number) => {
                writer.put_u8(0x82)?;
                writer.put_u64(*number)
            }
            Reply::Given => writer.put_u8(0x83),
            Reply::Kept(bytes) => {
                writer.put_u8(0x84)?;
                writer.put_bytes(bytes.as_slice())
            }
            Reply::Nothing => writer.put_u8(0x85),
            Reply::PutDone(digest) => {
                writer.put_u8(0x86)?;
                put_digest(writer, digest)
            }
            Reply::Item(bytes) => {
                writer.put_u8(0x87)?;
                writer.put_bytes(bytes.as_slice())
            }
            Reply::Refused(number, argument) => {
                writer.put_u8(0xff)?;
                write_refused(writer, *number, *argument)
            }
        }
    }

    /// Returns the reply that a message spells. `UnknownTag` where its first byte is the number
    /// of no kind; `Malformed` with the place of the first part that isn't there, or of the first byte
    /// that is left over; `NoMemory`.
    pub fn decode(alloc: Global, message: &[u8]) -> Result<Reply, Refusal>
        // What is read is spelled so.
        ensures found { IfOk result (λ r. IsReply r × (message.now ≡ reply_bytes r)) }
        // What is spelled so is read.
        ensures only { (r : Reply_) → IsReply r → message.now ≡ reply_bytes r
            → (result ≡ Ok r) ⊎ (result ≡ Err NoMemory) }
        // What is refused has no such part at that place.
        ensures reads { ReadsTagged reply_kinds message.now result }
    {
        read(alloc, message)
    }
}

fn write_granted(writer: &mut Writer, count: u64, last: &LastNumbers) -> Result<(), AllocError>
    ensures { OnOk result
        (AreLast last.now
        × (writer.new ≡ writer.old ++ (u64_bytes count ++ users_bytes last.now))) }
{
    writer.put_u64(count)?;
    last.write(writer)
}

fn write_refused(writer: &mut Writer, number: u8, argument: u64) -> Result<(), AllocError>
    ensures { OnOk result (writer.new ≡ writer.old ++ (number ∷ u64_bytes argument)) }
{
    writer.put_u8(number)?;
    writer.put_u64(argument)
}

/// Reads the number of a kind, and the fields of that kind, to the end.
fn read(alloc: Global, message: &[u8]) -> Result<Reply, Refusal>
    ensures { ReadsTagged reply_kinds message.now result }
{
    let mut reader = Reader::new(message);
    let first = reader.take_bytes(1)?;
    let Some(read) = read_fields(alloc, &mut reader, first[0]) else {
        return Err(Refusal::UnknownTag);
    };
    let reply = read?;
    reader.finish()?;
    Ok(reply)
}

/// Reads the fields of the kind that has the number. `None` where none has it.
fn read_fields(alloc: Global, reader: &mut Reader<'_>, number: u8) -> Option<Result<Reply, Refusal>>
    ensures found { IfSome result (λ read.
        Takes (fields_of reply_kinds number) reader.old read reader.new) }
    ensures none { IfNone result (HasNoKind reply_kinds number) }
{
    match number {
        0x81 => Some(read_granted(alloc, reader)),
        0x82 => Some(read_stored(reader)),
        0x83 => Some(Ok(Reply::Given)),
        0x84 => Some(read_kept(alloc, reader)),
        0x85 => Some(Ok(Reply::Nothing)),
        0x86 => Some(read_put_done(reader)),
        0x87 => Some(read_item(alloc, reader)),
        0xff => Some(read_refused(reader)),
        _ => None,
    }
}

fn read_granted(alloc: Global, reader: &mut Reader<'_>) -> Result<Reply, Refusal>
    ensures { Takes granted_fields reader.old result reader.new }
{
    // names the type for the prover (docs/ARCHITECTURE.md, "Forms the kit wants")
    let _file: Option<FileId> = None;
    let count = reader.take_u64()?;
    let last = LastNumbers::read(alloc, reader)?;
    Ok(Reply::Granted(count, last))
}

fn read_stored(reader: &mut Reader<'_>) -> Result<Reply, Refusal>
    ensures { Takes stored_fields reader.old result reader.new }
{
    // names the type for the prover (docs/ARCHITECTURE.md, "Forms the kit wants")
    let _file: Option<FileId> = None;
    let number = reader.take_u64()?;
    Ok(Reply::Stored(number))
}

fn read_kept(alloc: Global, reader: &mut Reader<'_>) -> Result<Reply, Refusal>
    ensures { Takes kept_fields reader.old result reader.new }
{
    // names the type for the prover (docs/ARCHITECTURE.md, "Forms the kit wants")
    let _file: Option<FileId> = None;
    let bytes = Bytes::copy_of(alloc, reader.take_rest())?;
    Ok(Reply::Kept(bytes))
}

fn read_put_done(reader: &mut Reader<'_>) -> Result<Reply, Refusal>
    ensures { Takes put_done_fields reader.old result reader.new }
{
    // names the type for the prover (docs/ARCHITECTURE.md, "Forms the kit wants")
    let _file: Option<FileId> = None;
    let digest = reader.take_digest()?;
    Ok(Reply::PutDone(digest))
}

fn read_item(alloc: Global, reader: &mut Reader<'_>) -> Result<Reply, Refusal>
    ensures { Takes item_fields reader.old result reader.new }
{
    // names the type for the prover (docs/ARCHITECTURE.md, "Forms the kit wants")
    let _file: Option<FileId> = None;
    let bytes = Bytes::copy_of(alloc, reader.take_rest())?;
    Ok(Reply::Item(bytes))
}

fn read_refused(reader: &mut Reader<'_>) -> Result<Reply, Refusal>
    ensures { Takes refused_fields reader.old result reader.new }
{
    // names the type for the prover (docs/ARCHITECTURE.md, "Forms the kit wants")
    let _file: Option<FileId> = None;
    let number = reader.take_u8()?;
    let argument = reader.take_u64()?;
    Ok(Reply::Refused(number, argument))
}
