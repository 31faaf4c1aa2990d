// Bytes are written part by part.
ghost use Rattle.std.specs.Prelude.{◌≡◌, ◌++◌, IfOk, OnOk, OnErr, [], true};
ghost use Rattle.su_bytes.specs.Principal.{is_user, is_group, is_principal};
ghost use Rattle.su_bytes.specs.FileId.{is_inum, is_file_id, file_id_bytes};
ghost use Rattle.su_bytes.specs.Name.{is_name};
ghost use Rattle.su_format.specs.Part.{u8_bytes, u16_bytes, u32_bytes, u64_bytes, principal_bytes, name_bytes, kind_bytes};

use std::alloc::{AllocError, Global};
use std::marker::Model;
use su_bytes::{Digest, FileId, Group, Inum, Kind, Name, Principal, User};

/// Writes values one behind another. Its model is the bytes that it has. Each `put` fails only
/// where there is no room, and then nothing is added. What it is passed is a value that a reader
/// takes (`meant`).
#[derive(Debug, Drop)]
pub struct Writer {
    bytes: Vec<u8>,
}

impl Model for Writer {
    ghost use Rattle.std.specs.Prelude.{ℕ, List};

    ghost Value = { List ℕ };

    ghost view = { λ w. w.bytes.items };
}

impl Writer {
    /// Makes a writer with room for that many bytes. Fails where there is none.
    pub fn with_room(alloc: Global, bytes: usize) -> Result<Writer, AllocError>
        ensures value { IfOk result (λ w. w ≡ []) }
    {
        let bytes = Vec::with_capacity(alloc, bytes)?;
        Ok(Writer { bytes })
    }

    /// Returns what was written.
    pub fn finish(self) -> Vec<u8>
        ensures { result.items ≡ self }
    {
        self.bytes
    }

    /// Writes these bytes, without their number.
    pub fn put_bytes(&mut self, bytes: &[u8]) -> Result<(), AllocError>
        ensures ok { OnOk result (self.new ≡ self.old ++ bytes.now) }
        ensures err { OnErr result (self.new ≡ self.old) }
    {
        self.bytes.extend_from_slice(bytes)?;
        Ok(())
    }

    /// Writes a number as one byte.
    pub fn put_u8(&mut self, number: u8) -> Result<(), AllocError>
        ensures ok { OnOk result (self.new ≡ self.old ++ u8_bytes number) }
        ensures err { OnErr result (self.new ≡ self.old) }
    {
        self.put_bytes(&[number])
    }

    /// Writes a number as two bytes.
    pub fn put_u16(&mut self, number: u16) -> Result<(), AllocError>
        ensures ok { OnOk result (self.new ≡ self.old ++ u16_bytes number) }
        ensures err { OnErr result (self.new ≡ self.old) }
    {
        self.put_bytes(&number.to_be_bytes())
    }

    /// Writes a number as four bytes.
    pub fn put_u32(&mut self, number: u32) -> Result<(), AllocError>
        ensures ok { OnOk result (self.new ≡ self.old ++ u32_bytes number) }
        ensures err { OnErr result (self.new ≡ self.old) }
    {
        self.put_bytes(&number.to_be_bytes())
    }

    /// Writes a number as eight bytes.
    pub fn put_u64(&mut self, number: u64) -> Result<(), AllocError>
        ensures ok { OnOk result (self.new ≡ self.old ++ u64_bytes number) }
        ensures err { OnErr result (self.new ≡ self.old) }
    {
        self.put_bytes(&number.to_be_bytes())
    }

    /// Writes the 32 bytes of a digest.
    pub fn put_digest(&mut self, digest: &Digest) -> Result<(), AllocError>
        ensures ok { OnOk result (self.new ≡ self.old ++ digest.now) }
        ensures err { OnErr result (self.new ≡ self.old) }
    {
        self.put_bytes(digest.as_bytes())
    }

    /// Writes a user's number as one byte.
    pub fn put_user(&mut self, user: User) -> Result<(), AllocError>
        ensures ok { OnOk result (self.new ≡ self.old ++ u8_bytes user) }
        ensures err { OnErr result (self.new ≡ self.old) }
        ensures meant { is_user user ≡ true }
    {
        self.put_u8(user.number())
    }

    /// Writes a group's number as one byte.
    pub fn put_group(&mut self, group: Group) -> Result<(), AllocError>
        ensures ok { OnOk result (self.new ≡ self.old ++ u8_bytes group) }
        ensures err { OnErr result (self.new ≡ self.old) }
        ensures meant { is_group group ≡ true }
    {
        self.put_u8(group.number())
    }

    /// Writes a number of an i-table as four bytes.
    pub fn put_inum(&mut self, inum: Inum) -> Result<(), AllocError>
        ensures ok { OnOk result (self.new ≡ self.old ++ u32_bytes inum) }
        ensures err { OnErr result (self.new ≡ self.old) }
        ensures meant { is_inum inum ≡ true }
    {
        self.put_u32(inum.number())
    }

    /// Writes a user or a group as two bytes.
    pub fn put_principal(&mut self, principal: Principal) -> Result<(), AllocError>
        ensures ok { OnOk result (self.new ≡ self.old ++ principal_bytes principal) }
        ensures err { OnErr result (self.new ≡ self.old) }
        ensures meant { is_principal principal ≡ true }
    {
        let bytes = match principal {
            Principal::User(user) => [0, user.number()],
            Principal::Group(group) => [1, group.number()],
        };
        self.put_bytes(&bytes)
    }

    /// Writes a file id as six bytes.
    pub fn put_file_id(&mut self, file: FileId) -> Result<(), AllocError>
        ensures ok { OnOk result (self.new ≡ self.old ++ file_id_bytes file) }
        ensures err { OnErr result (self.new ≡ self.old) }
        ensures meant { is_file_id file ≡ true }
    {
        let (kind, principal, number) = match file {
            FileId::User(user, number) => (0, user.number(), number.number()),
            FileId::Group(group, number) => (1, group.number(), number.number()),
        };
        let [a, b, c, d] = number.to_be_bytes();
        self.put_bytes(&[kind, principal, a, b, c, d])
    }

    /// Writes a name: how many bytes it has, and these.
    pub fn put_name(&mut self, name: &Name) -> Result<(), AllocError>
        ensures ok { OnOk result (self.new ≡ self.old ++ name_bytes name.now) }
        ensures err { OnErr result (self.new ≡ self.old) }
        ensures meant { is_name name.now ≡ true }
    {
        let bytes = name.as_bytes();
        let end = 1 + bytes.len();
        let mut part = [0u8; 256];
        part[0] = bytes.len() as u8;
        part[1..end].copy_from_slice(bytes);
        self.put_bytes(&part[..end])
    }

    /// Writes a kind as one byte.
    pub fn put_kind(&mut self, kind: Kind) -> Result<(), AllocError>
        ensures ok { OnOk result (self.new ≡ self.old ++ kind_bytes kind) }
        ensures err { OnErr result (self.new ≡ self.old) }
    {
        self.put_u8(match kind {
            Kind::File => 0,
            Kind::Dir => 1,
        })
    }
}
