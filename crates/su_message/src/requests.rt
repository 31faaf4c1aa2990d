// Requests, in bytes.
ghost use Rattle.std.specs.Prelude.{◌≡◌, ◌⊎◌, ◌++◌, Ok, Err, IfOk, IfSome, IfNone, OnOk};
ghost use Rattle.su_bytes.specs.declared.refusals.Refusal.TheVariants.{NoMemory};
ghost use Rattle.su_format.specs.Reading.{Takes};
ghost use Rattle.su_message.specs.declared.requests.Request.{Request as Request_};
ghost use Rattle.su_message.specs.Tagged.{HasNoKind, ReadsTagged, fields_of};
ghost use Rattle.su_message.specs.Request.{IsRequest, commit_fields, fetch_fields, get_fields, put_fields, request_bytes, request_kinds};

use crate::byte_strings::Bytes;
use crate::digests::put_digest;
use std::alloc::{AllocError, Global};
use su_bytes::{Digest, FileId, Refusal};
use su_format::{Reader, Writer};

/// What a client asks of a server.
#[derive(Drop)]
pub enum Request {
    /// The turn.
    Grant,
    /// That the commit that these bytes spell is stored. Whether they spell one, the book says.
    Commit(Bytes),
    /// To give the turn back.
    Give,
    /// The record of this number.
    Fetch(u64),
    /// That this item is held.
    Put(Bytes),
    /// The item of this digest.
    Get(Digest),
}

impl Request {
    /// Returns the message that spells the request. Fails where there is no memory.
    pub fn encode(&self, alloc: Global) -> Result<Vec<u8>, AllocError>
        ensures { IfOk result (λ bytes.
            IsRequest self.now × (bytes.items ≡ request_bytes self.now)) }
    {
        let mut writer = Writer::with_room(alloc, self.room())?;
        self.write(&mut writer)?;
        Ok(writer.finish())
    }

    /// Bytes of room that are taken at first, so that no message moves.
    fn room(&self) -> usize {
        match self {
            Request::Commit(bytes) => bytes.as_slice().len().saturating_add(1),
            Request::Put(bytes) => bytes.as_slice().len().saturating_add(1),
            _ => 33,
        }
    }

    /// Writes the number of its kind, and its fields.
    fn write(&self, writer: &mut Writer) -> Result<(), AllocError>
        ensures { OnOk result
            (IsRequest self.now × (writer.new ≡ writer.old ++ request_bytes self.now)) }
    {
        match self {
            Request::Grant => writer.put_u8(1),
            Request::Commit(bytes) => {
                writer.put_u8(2)?;
                writer.put_bytes(bytes.as_slice())
            }
            Request::Give => writer.put_u8(3),
            Request::Fetch(number) => {
                writer.put_u8(4)?;
                writer.put_u64(*number)
            }
            Request::Put(bytes) => {
                writer.put_u8(5)?;
                writer.put_bytes(bytes.as_slice())
            }
            Request::Get(digest) => {
                writer.put_u8(6)?;
                put_digest(writer, digest)
            }
        }
    }

    /// Returns the request that a message spells. `UnknownTag` where its first byte is the number
    /// of no kind; `Malformed` with the place of the first part that isn't there, or of the first byte
    /// that is left over; `NoMemory`.
    pub fn decode(alloc: Global, message: &[u8]) -> Result<Request, Refusal>
        // What is read is spelled so.
        ensures found { IfOk result (λ q. IsRequest q × (message.now ≡ request_bytes q)) }
        // What is spelled so is read.
        ensures only { (q : Request_) → IsRequest q → message.now ≡ request_bytes q
            → (result ≡ Ok q) ⊎ (result ≡ Err NoMemory) }
        // What is refused has no such part at that place.
        ensures reads { ReadsTagged request_kinds message.now result }
    {
        read(alloc, message)
    }
}

/// Reads the number of a kind, and the fields of that kind, to the end.
fn read(alloc: Global, message: &[u8]) -> Result<Request, Refusal>
    ensures { ReadsTagged request_kinds message.now result }
{
    let mut reader = Reader::new(message);
    let first = reader.take_bytes(1)?;
    let Some(read) = read_fields(alloc, &mut reader, first[0]) else {
        return Err(Refusal::UnknownTag);
    };
    let request = read?;
    reader.finish()?;
    Ok(request)
}

/// Reads the fields of the kind that has the number. `None` where none has it.
fn read_fields(
    alloc: Global,
    reader: &mut Reader<'_>,
    number: u8,
) -> Option<Result<Request, Refusal>>
    ensures found { IfSome result (λ read.
        Takes (fields_of request_kinds number) reader.old read reader.new) }
    ensures none { IfNone result (HasNoKind request_kinds number) }
{
    match number {
        1 => Some(Ok(Request::Grant)),
        2 => Some(read_commit(alloc, reader)),
        3 => Some(Ok(Request::Give)),
        4 => Some(read_fetch(reader)),
        5 => Some(read_put(alloc, reader)),
        6 => Some(read_get(reader)),
        _ => None,
    }
}

fn read_commit(alloc: Global, reader: &mut Reader<'_>) -> Result<Request, Refusal>
    ensures { Takes commit_fields reader.old result reader.new }
{
    // names the type for the prover (docs/ARCHITECTURE.md, "Forms the kit wants")
    let _file: Option<FileId> = None;
    let bytes = Bytes::copy_of(alloc, reader.take_rest())?;
    Ok(Request::Commit(bytes))
}

fn read_fetch(reader: &mut Reader<'_>) -> Result<Request, Refusal>
    ensures { Takes fetch_fields reader.old result reader.new }
{
    // names the type for the prover (docs/ARCHITECTURE.md, "Forms the kit wants")
    let _file: Option<FileId> = None;
    let number = reader.take_u64()?;
    Ok(Request::Fetch(number))
}

fn read_put(alloc: Global, reader: &mut Reader<'_>) -> Result<Request, Refusal>
    ensures { Takes put_fields reader.old result reader.new }
{
    // names the type for the prover (docs/ARCHITECTURE.md, "Forms the kit wants")
    let _file: Option<FileId> = None;
    let bytes = Bytes::copy_of(alloc, reader.take_rest())?;
    Ok(Request::Put(bytes))
}

fn read_get(reader: &mut Reader<'_>) -> Result<Request, Refusal>
    ensures { Takes get_fields reader.old result reader.new }
{
    // names the type for the prover (docs/ARCHITECTURE.md, "Forms the kit wants")
    let _file: Option<FileId> = None;
    let digest = reader.take_digest()?;
    Ok(Request::Get(digest))
}
