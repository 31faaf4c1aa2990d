// Version structures.
ghost use Rattle.std.specs.Prelude.{◌≡◌, ◌≤◌, ◌<◌, ◌↔◌, ◌⊎◌, IsTrue, ◌++◌, ◌∷◌, [], ℕ, Bool, length, true, Ok, Err, IfOk, IfErr, IfSome, IfNone, OnOk};
ghost use Rattle.std.specs.List.{flat_map};
ghost use Rattle.su_format.specs.Reading.{Took, Refuses, Takes, Decodes};
ghost use Rattle.su_format.specs.Part.{u8_bytes, u64_bytes};
ghost use Rattle.su_version.specs.Version.{Version as VersionParts, IsVersion, first_bytes, key_bytes, flag_bytes, body_bytes, version_bytes, format_part, group_bytes, group_above, carried_format, groups_format, vector_size_part, vector_format, flag_part, key_behind, key_format, body_format, version_format};
ghost use Rattle.su_bytes.specs.declared.formats.Format.{Format as CommitFormat};
ghost use Rattle.su_bytes.specs.declared.refusals.Refusal.TheVariants.{NoMemory};

use std::alloc::{AllocError, Global};
use std::marker::Model;
use su_bytes::{Digest, FileId, Format, Group, KEY_LENGTH, Refusal, User};
use su_format::{Reader, Writer};
use su_vector::{HasVector, Vector};

/// Returns the first bytes of a version structure of that format.
fn first_bytes(format: Format) -> &'static [u8]
    ensures { result.now ≡ first_bytes format }
{
    match format {
        Format::V1 => b"SV01",
        Format::V2 => b"SV02",
        Format::V3 => b"SV03",
        Format::V4 => b"SV04",
    }
}

/// Returns the format of version structures that begin with these four bytes, if there is one.
pub fn format_of(bytes: &[u8]) -> Option<Format>
    ensures found { IfSome result (λ format. first_bytes format ≡ bytes.now) }
    ensures none { IfNone result ((format : CommitFormat) → first_bytes format ≡ bytes.now → ⊥) }
{
    if bytes == first_bytes(Format::V1) {
        return Some(Format::V1);
    }
    if bytes == first_bytes(Format::V2) {
        return Some(Format::V2);
    }
    if bytes == first_bytes(Format::V3) {
        return Some(Format::V3);
    }
    if bytes == first_bytes(Format::V4) {
        return Some(Format::V4);
    }
    None
}

/// What a user signs for a change: its format, whose it is, the digest of the commit before, the
/// digest of the change, the author's i-handle after it, the groups whose tables it writes with
/// their i-handles, the version vector, and the author's next key, if it names one.
#[derive(Drop)]
pub struct VersionStructure {
    format: Format,
    author: User,
    prev: Digest,
    change: Digest,
    handle: Digest,
    groups: Vec<(Group, Digest)>,
    vector: Vector,
    next_key: Option<[u8; KEY_LENGTH]>,
}

impl Model for VersionStructure {
    ghost use Rattle.su_version.specs.Version.{Version, IsVersion};

    ghost Value = { Version };

    ghost view = { λ v. record {
      format = v.format;
      author = v.author;
      prev = v.prev;
      change = v.change;
      handle = v.handle;
      groups = v.groups.items;
      vector = v.vector;
      next_key = v.next_key;
    } };

    ghost invariant = { λ v. IsVersion (record {
      format = v.format;
      author = v.author;
      prev = v.prev;
      change = v.change;
      handle = v.handle;
      groups = v.groups.items;
      vector = v.vector;
      next_key = v.next_key;
    }) };
}

impl VersionStructure {
    /// Makes a version structure of these parts. The groups ascend; the vector has 2 to 80 numbers;
    /// there is a next key in the third format alone.
    pub fn new(
        format: Format,
        author: User,
        prev: Digest,
        change: Digest,
        handle: Digest,
        groups: Vec<(Group, Digest)>,
        vector: Vector,
        next_key: Option<[u8; KEY_LENGTH]>,
    ) -> VersionStructure
        requires { IsVersion (record {
          format = format;
          author = author;
          prev = prev;
          change = change;
          handle = handle;
          groups = groups.items;
          vector = vector;
          next_key = next_key;
        }) }
        ensures { result ≡ record {
          format = format;
          author = author;
          prev = prev;
          change = change;
          handle = handle;
          groups = groups.items;
          vector = vector;
          next_key = next_key;
        } }
    {
        VersionStructure {
            format,
            author,
            prev,
            change,
            handle,
            groups,
            vector,
            next_key,
        }
    }

    /// Returns the format.
    pub fn format(&self) -> Format
        ensures { result ≡ self.now.format }
    {
        self.format
    }

    /// Returns the author.
    pub fn author(&self) -> User
        ensures value { result ≡ self.now.author }
        // What holds of each version structure.
        ensures version { IsVersion self.now }
    {
        self.author
    }

    /// Returns the digest of the commit before; in the first one, that of the roster.
    pub fn prev(&self) -> Digest
        ensures { result ≡ self.now.prev }
    {
        self.prev
    }

    /// Returns the digest of the change.
    pub fn change(&self) -> Digest
        ensures { result ≡ self.now.change }
    {
        self.change
    }

    /// Returns the author's i-handle after the change.
    pub fn handle(&self) -> Digest
        ensures { result ≡ self.now.handle }
    {
        self.handle
    }

    /// Returns the groups that it carries, ascending, with their i-handles after the change.
    pub fn groups(&self) -> &[(Group, Digest)]
        ensures { result.now ≡ self.now.groups }
    {
        self.groups.as_slice()
    }

    /// Lends the version vector.
    pub fn vector(&self) -> &Vector
        ensures { result.now ≡ self.now.vector }
    {
        &self.vector
    }

    /// Returns the key under which the author signs from the next commit on, if it names one.
    pub fn next_key(&self) -> Option<[u8; KEY_LENGTH]>
        ensures { result ≡ self.now.next_key }
    {
        self.next_key
    }

    /// Returns the bytes, over which the signature is made. Fails only with `NoMemory`.
    pub fn encode(&self, alloc: Global) -> Result<Vec<u8>, Refusal>
        ensures value { IfOk result (λ bytes. bytes.items ≡ version_bytes self.now) }
        ensures refused { IfErr result (λ e. e ≡ NoMemory) }
    {
        let mut writer = Writer::with_room(alloc, self.encoded_length())?;
        self.write(&mut writer)?;
        Ok(writer.finish())
    }

    // How many bytes it is spelled in.
    pub(crate) fn encoded_length(&self) -> usize
        ensures { result ≤ 9215 }
    {
        let parts = 103 + 33 * self.groups.len() + 8 * self.vector.numbers().len();
        parts + key_size(self.format, &self.next_key)
    }

    /// Writes the bytes.
    #[tactic(auto, unfolding(crate::specs::Version::version_bytes))]
    pub(crate) fn write(&self, writer: &mut Writer) -> Result<(), AllocError>
        ensures { OnOk result (writer.new ≡ writer.old ++ version_bytes self.now) }
    {
        writer.put_bytes(first_bytes(self.format))?;
        self.write_body(writer)
    }

    // Writes the bytes behind the first ones.
    fn write_body(&self, writer: &mut Writer) -> Result<(), AllocError>
        ensures { OnOk result (writer.new ≡ writer.old ++ body_bytes self.now) }
    {
        writer.put_user(self.author)?;
        writer.put_digest(&self.prev)?;
        writer.put_digest(&self.change)?;
        writer.put_digest(&self.handle)?;
        write_groups(writer, self.groups.as_slice())?;
        write_vector(writer, self.vector.numbers())?;
        write_key(writer, self.format, &self.next_key)
    }

    /// Returns the version structure that the bytes spell. `Malformed` where they are none's, with
    /// the place of the first byte of the part that isn't there, or of the first byte that is left
    /// over; `NoMemory` where there is no room for it.
    pub fn decode(alloc: Global, bytes: &[u8]) -> Result<VersionStructure, Refusal>
        // What is read is spelled so.
        ensures found { IfOk result (λ v. IsVersion v × (bytes.now ≡ version_bytes v)) }
        // What is spelled so is read.
        ensures only { (v : VersionParts) → IsVersion v → bytes.now ≡ version_bytes v
            → (result ≡ Ok v) ⊎ (result ≡ Err NoMemory) }
        // What is refused has no such part at that place.
        ensures decodes { Decodes version_format bytes.now result }
    {
        let mut reader = Reader::new(bytes);
        let version = VersionStructure::read(alloc, &mut reader)?;
        reader.finish()?;
        Ok(version)
    }

    /// Reads a version structure.
    pub(crate) fn read(alloc: Global, reader: &mut Reader<'_>) -> Result<VersionStructure, Refusal>
        ensures { Takes version_format reader.old result reader.new }
    {
        // names the type for the prover (docs/ARCHITECTURE.md, "Forms the kit wants")
        let _file: Option<FileId> = None;
        let format = read_format(reader)?;
        VersionStructure::read_body(alloc, reader, format)
    }

    // Reads what stands behind the first bytes of a version structure in that format.
    fn read_body(
        alloc: Global,
        reader: &mut Reader<'_>,
        format: Format,
    ) -> Result<VersionStructure, Refusal>
        ensures { Takes (body_format format) reader.old result reader.new }
    {
        // names the type for the prover (docs/ARCHITECTURE.md, "Forms the kit wants")
        let _file: Option<FileId> = None;
        let author = reader.take_user()?;
        let prev = reader.take_digest()?;
        let change = reader.take_digest()?;
        let handle = reader.take_digest()?;
        let groups = read_groups(alloc, reader)?;
        let vector = read_vector(alloc, reader)?;
        let next_key = read_key(reader, format)?;
        Ok(VersionStructure {
            format,
            author,
            prev,
            change,
            handle,
            groups,
            vector,
            next_key,
        })
    }
}

impl HasVector for VersionStructure {
    ghost vector_of = { λ v. v.vector };

    fn vector(&self) -> &Vector {
        self.vector()
    }
}

// How many groups there are, and each with its i-handle.
fn write_groups(writer: &mut Writer, groups: &[(Group, Digest)]) -> Result<(), AllocError>
    requires { length groups.now < 256 }
    ensures { OnOk result
        (writer.new ≡ writer.old ++ length groups.now ∷ flat_map group_bytes groups.now) }
{
    writer.put_u8(groups.len() as u8)?;
    for (group, handle) in groups {
        writer.put_group(*group)?;
        writer.put_digest(handle)?;
    }
    Ok(())
}

// How many numbers there are, and these.
fn write_vector(writer: &mut Writer, numbers: &[u64]) -> Result<(), AllocError>
    requires { length numbers.now < 256 }
    ensures { OnOk result
        (writer.new ≡ writer.old ++ length numbers.now ∷ flat_map u64_bytes numbers.now) }
{
    writer.put_u8(numbers.len() as u8)?;
    for number in numbers {
        writer.put_u64(*number)?;
    }
    Ok(())
}

// How many bytes a next key takes in that format.
fn key_size(format: Format, key: &Option<[u8; KEY_LENGTH]>) -> usize
    ensures { result ≤ 57 }
{
    match (format, key) {
        (Format::V1 | Format::V2, _) => 0,
        (Format::V3 | Format::V4, None) => 1,
        (Format::V3 | Format::V4, Some(_)) => 1 + KEY_LENGTH,
    }
}

// From the third format on whether there is a next key, and this.
fn write_key(
    writer: &mut Writer,
    format: Format,
    key: &Option<[u8; KEY_LENGTH]>,
) -> Result<(), AllocError>
    ensures { OnOk result (writer.new ≡ writer.old ++ key_bytes format key.now) }
{
    match (format, key) {
        (Format::V1 | Format::V2, _) => Ok(()),
        (Format::V3 | Format::V4, None) => writer.put_u8(0),
        (Format::V3 | Format::V4, Some(key)) => {
            writer.put_u8(1)?;
            writer.put_bytes(key)
        }
    }
}

// The format that the first bytes name.
fn read_format(reader: &mut Reader<'_>) -> Result<Format, Refusal>
    ensures { Takes format_part reader.old result reader.new }
{
    let malformed = Refusal::Malformed(reader.place());
    let Ok(bytes) = reader.take_bytes(4) else {
        return Err(malformed);
    };
    let Some(format) = format_of(bytes) else {
        return Err(malformed);
    };
    Ok(format)
}

// A group that is not below this number.
fn read_group_above(reader: &mut Reader<'_>, least: u8) -> Result<Group, Refusal>
    ensures { Takes (group_above least) reader.old result reader.new }
{
    let malformed = Refusal::Malformed(reader.place());
    let Ok(group) = reader.take_group() else {
        return Err(malformed);
    };
    if group.number() < least {
        return Err(malformed);
    }
    Ok(group)
}

// A group that is not below this number, and its i-handle.
fn read_carried(reader: &mut Reader<'_>, least: u8) -> Result<(Group, Digest), Refusal>
    ensures { Takes (carried_format least) reader.old result reader.new }
{
    // names the type for the prover (docs/ARCHITECTURE.md, "Forms the kit wants")
    let _file: Option<FileId> = None;
    let group = read_group_above(reader, least)?;
    let handle = reader.take_digest()?;
    Ok((group, handle))
}

// Groups in ascending order, with their i-handles.
fn read_groups(alloc: Global, reader: &mut Reader<'_>) -> Result<Vec<(Group, Digest)>, Refusal>
    ensures found { IfOk result (λ groups.
        Took groups_format reader.old groups.items reader.new) }
    ensures refused { IfErr result (λ e. Refuses groups_format reader.old e) }
{
    // names the type for the prover (docs/ARCHITECTURE.md, "Forms the kit wants")
    let _file: Option<FileId> = None;
    let count = reader.take_u8()?;
    let mut groups = Vec::new(alloc);
    let mut least = 0;
    for _ in 0..count {
        let (group, handle) = read_carried(reader, least)?;
        groups.push((group, handle))?;
        least = group.number() + 1;
    }
    Ok(groups)
}

fn is_vector_size(size: u8) -> bool
    ensures { IsTrue result ↔ (2 ≤ size) × (size ≤ 80) }
{
    (2..=80).contains(&size)
}

// How many numbers a vector has: 2 to 80.
fn read_vector_size(reader: &mut Reader<'_>) -> Result<u8, Refusal>
    ensures { Takes vector_size_part reader.old result reader.new }
{
    let malformed = Refusal::Malformed(reader.place());
    let Ok(size) = reader.take_u8() else {
        return Err(malformed);
    };
    if !is_vector_size(size) {
        return Err(malformed);
    }
    Ok(size)
}

// The numbers of a vector.
fn read_vector(alloc: Global, reader: &mut Reader<'_>) -> Result<Vector, Refusal>
    ensures { Takes vector_format reader.old result reader.new }
{
    // names the type for the prover (docs/ARCHITECTURE.md, "Forms the kit wants")
    let _file: Option<FileId> = None;
    let size = read_vector_size(reader)?;
    let mut numbers = Vec::new(alloc);
    for _ in 0..size {
        numbers.push(reader.take_u64()?)?;
    }
    Ok(Vector::new(numbers))
}

// The flag of that number, if there is one.
fn flag_of(number: u8) -> Option<bool>
    ensures found { IfSome result (λ flag. flag_bytes flag ≡ number ∷ []) }
    ensures none { IfNone result ((flag : Bool) → flag_bytes flag ≡ number ∷ [] → ⊥) }
{
    match number {
        0 => Some(false),
        1 => Some(true),
        _ => None,
    }
}

// Whether a key comes: 0 or 1.
fn read_flag(reader: &mut Reader<'_>) -> Result<bool, Refusal>
    ensures { Takes flag_part reader.old result reader.new }
{
    let malformed = Refusal::Malformed(reader.place());
    let Ok(number) = reader.take_u8() else {
        return Err(malformed);
    };
    let Some(flag) = flag_of(number) else {
        return Err(malformed);
    };
    Ok(flag)
}

// The key, if one comes.
fn read_key_behind(reader: &mut Reader<'_>, flag: bool) -> Result<Option<[u8; KEY_LENGTH]>, Refusal>
    ensures { Takes (key_behind flag) reader.old result reader.new }
{
    // names the type for the prover (docs/ARCHITECTURE.md, "Forms the kit wants")
    let _file: Option<FileId> = None;
    if !flag {
        return Ok(None);
    }
    let bytes = reader.take_bytes(KEY_LENGTH)?;
    let mut key = [0u8; KEY_LENGTH];
    key.copy_from_slice(bytes);
    Ok(Some(key))
}

// The next key in that format.
fn read_key(reader: &mut Reader<'_>, format: Format) -> Result<Option<[u8; KEY_LENGTH]>, Refusal>
    ensures { Takes (key_format format) reader.old result reader.new }
{
    // names the type for the prover (docs/ARCHITECTURE.md, "Forms the kit wants")
    let _file: Option<FileId> = None;
    match format {
        Format::V1 | Format::V2 => Ok(None),
        Format::V3 | Format::V4 => {
            let flag = read_flag(reader)?;
            read_key_behind(reader, flag)
        }
    }
}
