// Commits.
ghost use Rattle.std.specs.Prelude.{◌≡◌, ◌≤◌, ◌⊎◌, ◌++◌, ◌↔◌, IsTrue, length, Ok, Err, IfOk, IfErr, OnOk};
ghost use Rattle.su_format.specs.Reading.{Takes, Decodes};
ghost use Rattle.su_lms.specs.Signature.{leaf_of};
ghost use Rattle.su_version.specs.Commit.{IsCommit, commit_bytes, commit_digest, commit_format, signature_size_part};
ghost use Rattle.su_version.specs.Commit.{Commit as CommitParts};
ghost use Rattle.su_bytes.specs.declared.refusals.Refusal.TheVariants.{NoMemory};

use crate::versions::VersionStructure;
use sha2::Sha256;
use std::alloc::{AllocError, Global};
use std::marker::Model;
use su_bytes::{Digest, FileId, Refusal};
use su_format::{Reader, Writer};
use su_vector::{HasVector, Vector};

/// The most bytes of a signature.
pub const LONGEST_SIGNATURE: usize = 9_324;

/// A version structure with the signature over its bytes. Its model is these two.
#[derive(Drop)]
pub struct Commit {
    version: VersionStructure,
    signature: Vec<u8>,
}

impl Model for Commit {
    ghost use Rattle.su_version.specs.Commit.{Commit, IsCommit};

    ghost Value = { Commit };

    ghost view = { λ c. record { version = c.version; signature = c.signature.items } };

    ghost invariant = { λ c.
        IsCommit (record { version = c.version; signature = c.signature.items }) };
}

impl Commit {
    /// Makes a commit of a version structure and a signature of 1 to 9,324 bytes. Whether it is
    /// one over the version structure isn't looked at.
    pub fn new(version: VersionStructure, signature: Vec<u8>) -> Commit
        requires some_bytes { 1 ≤ length signature.items }
        requires few_bytes { length signature.items ≤ LONGEST_SIGNATURE }
        ensures { result ≡ record { version = version; signature = signature.items } }
    {
        let _author = version.author();
        Commit { version, signature }
    }

    /// Lends the version structure.
    pub fn version(&self) -> &VersionStructure
        ensures value { result.now ≡ self.now.version }
        ensures commit { IsCommit self.now }
    {
        &self.version
    }

    /// Returns the signature.
    pub fn signature(&self) -> &[u8]
        ensures { result.now ≡ self.now.signature }
    {
        self.signature.as_slice()
    }

    /// Returns the number of the leaf by which it was signed, as the signature has it.
    pub fn leaf(&self) -> u32
        requires { 4 ≤ length self.now.signature }
        ensures { result ≡ leaf_of self.now.signature }
    {
        leaf_of(self.signature())
    }

    /// Gives the version structure away, without the signature.
    pub fn into_version(self) -> VersionStructure
        ensures { result ≡ self.version }
    {
        self.version
    }

    /// Returns the bytes: those of the version structure, the length of the signature, and the
    /// signature. Fails only with `NoMemory`.
    pub fn encode(&self, alloc: Global) -> Result<Vec<u8>, Refusal>
        ensures value { IfOk result (λ bytes. bytes.items ≡ commit_bytes self.now) }
        ensures refused { IfErr result (λ e. e ≡ NoMemory) }
    {
        let room = self.version.encoded_length() + 4 + self.signature.len();
        let mut writer = Writer::with_room(alloc, room)?;
        self.write(&mut writer)?;
        Ok(writer.finish())
    }

    fn write(&self, writer: &mut Writer) -> Result<(), AllocError>
        ensures { OnOk result (writer.new ≡ writer.old ++ commit_bytes self.now) }
    {
        let signature = self.signature.as_slice();
        self.version.write(writer)?;
        writer.put_u32(signature.len() as u32)?;
        writer.put_bytes(signature)
    }

    /// Returns the SHA-256 of its bytes, by which the next commit names it. Fails only with
    /// `NoMemory`.
    pub fn digest(&self, alloc: Global) -> Result<Digest, Refusal>
        ensures value { IfOk result (λ digest. digest ≡ commit_digest self.now) }
        ensures refused { IfErr result (λ e. e ≡ NoMemory) }
    {
        let bytes = self.encode(alloc)?;
        Ok(Digest::new(<Sha256 as sha2::Digest>::digest(bytes.as_slice())))
    }

    /// Returns the commit that the bytes spell. `Malformed` where they are no commit's, with the
    /// place of the first byte of the part that isn't there, or of the first byte that is left
    /// over; `NoMemory` where there is no room for it.
    pub fn decode(alloc: Global, bytes: &[u8]) -> Result<Commit, Refusal>
        // What is read is spelled so.
        ensures found { IfOk result (λ c. IsCommit c × (bytes.now ≡ commit_bytes c)) }
        // What is spelled so is read.
        ensures only { (c : CommitParts) → IsCommit c → bytes.now ≡ commit_bytes c
            → (result ≡ Ok c) ⊎ (result ≡ Err NoMemory) }
        // What is refused has no such part at that place.
        ensures decodes { Decodes commit_format bytes.now result }
    {
        let mut reader = Reader::new(bytes);
        let commit = Commit::read(alloc, &mut reader)?;
        reader.finish()?;
        Ok(commit)
    }

    fn read(alloc: Global, reader: &mut Reader<'_>) -> Result<Commit, Refusal>
        ensures { Takes commit_format reader.old result reader.new }
    {
        // names the type for the prover (docs/ARCHITECTURE.md, "Forms the kit wants")
        let _file: Option<FileId> = None;
        let version = VersionStructure::read(alloc, reader)?;
        let size = read_signature_size(reader)?;
        let bytes = reader.take_bytes(size as usize)?;
        let signature = Vec::from_slice(alloc, bytes)?;
        Ok(Commit { version, signature })
    }
}

impl HasVector for Commit {
    ghost vector_of = { λ c. c.version.vector };

    fn vector(&self) -> &Vector {
        self.version.vector()
    }
}

/// Returns the number of the leaf by which a signature was made.
fn leaf_of(signature: &[u8]) -> u32
    requires { 4 ≤ length signature.now }
    ensures { result ≡ leaf_of signature.now }
{
    let mut bytes = [0u8; 4];
    bytes.copy_from_slice(&signature[..4]);
    u32::from_be_bytes(bytes)
}

fn is_signature_size(size: u32) -> bool
    ensures { IsTrue result ↔ (1 ≤ size) × (size ≤ LONGEST_SIGNATURE) }
{
    1 <= size && size as usize <= LONGEST_SIGNATURE
}

// How many bytes a signature has: 1 to 9,324.
fn read_signature_size(reader: &mut Reader<'_>) -> Result<u32, Refusal>
    ensures { Takes signature_size_part reader.old result reader.new }
{
    let malformed = Refusal::Malformed(reader.place());
    let Ok(size) = reader.take_u32() else {
        return Err(malformed);
    };
    if !is_signature_size(size) {
        return Err(malformed);
    }
    Ok(size)
}
