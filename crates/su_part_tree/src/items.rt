// What an item spells.
ghost use Rattle.std.specs.Prelude.{◌≡◌, ◌≢◌, ◌≤◌, ℕ, ◌∷◌, ◌++◌, Bool, List, length, IsTrue, OnOk, IfOk, MatchOption};
ghost use Rattle.std.specs.Int.{w32, to_be_bytes};
ghost use Rattle.su_bytes.specs.FileId.{is_file_id, file_id_bytes};
ghost use Rattle.su_bytes.specs.declared.file_ids.FileId.{FileId as File};
ghost use Rattle.su_bytes.specs.Place.{is_place};
ghost use Rattle.su_tree.specs.Value.{place_bytes};
ghost use Rattle.su_part_tree.specs.Spelling.{IsRead};

use crate::loads::digest_at;
use std::alloc::{AllocError, Global};
use su_bytes::{Digest, FileId, Group, Inum, Name, Place, Refusal, User};
use su_tree::{TreeKey, TreeValue};

/// A node of a tree, as an item spells it.
#[derive(Drop)]
pub enum Item<K: Drop, V: Drop> {
    Nothing,
    Pair(K, V),
    Sides(u16, Digest, Digest),
}

/// A key that can be read from its bytes, and spelled by them.
pub trait ReadKey: TreeKey + Drop {
    /// The key that has just these bytes, if there is one.
    fn read(alloc: Global, bytes: &[u8]) -> Result<Option<Self>, AllocError>
        ensures { IfOk result (λ o. IsRead Self.is_key Self.bytes bytes.now o) };

    /// Appends its bytes to an item. Fails where memory is wanting.
    fn spell(&self, item: &mut Vec<u8>) -> Result<(), AllocError>
        ensures { OnOk result (item.new.items ≡ item.old.items ++ Self.bytes self.now) };
}

/// A value that can be read from its bytes, and spelled by them.
pub trait ReadValue: TreeValue + Drop {
    /// The value that has just these bytes, if there is one.
    fn read(alloc: Global, bytes: &[u8]) -> Result<Option<Self>, AllocError>
        ensures { IfOk result (λ o. IsRead Self.is_value Self.bytes bytes.now o) };

    /// Appends its bytes, at most 4,096 of them, to an item. Fails where memory is wanting.
    fn spell(&self, item: &mut Vec<u8>) -> Result<(), AllocError>
        ensures spelled { OnOk result (item.new.items ≡ item.old.items ++ Self.bytes self.now) }
        ensures short { OnOk result (length (Self.bytes self.now) ≤ 4096) };
}

impl ReadKey for u32 {
    fn read(_alloc: Global, bytes: &[u8]) -> Result<Option<u32>, AllocError> {
        if bytes.len() != 4 {
            return Ok(None);
        }
        let mut word = [0u8; 4];
        word.copy_from_slice(&bytes[0..4]);
        Ok(Some(u32::from_be_bytes(word)))
    }

    fn spell(&self, item: &mut Vec<u8>) -> Result<(), AllocError> {
        item.extend_from_slice(&self.to_be_bytes())
    }
}

impl ReadValue for Digest {
    fn read(_alloc: Global, bytes: &[u8]) -> Result<Option<Digest>, AllocError> {
        if bytes.len() != 32 {
            return Ok(None);
        }
        Ok(Some(digest_at(bytes, 0)))
    }

    fn spell(&self, item: &mut Vec<u8>) -> Result<(), AllocError> {
        let bytes: &[u8] = self.as_bytes();
        item.extend_from_slice(bytes)
    }
}

impl ReadKey for Name {
    fn read(alloc: Global, bytes: &[u8]) -> Result<Option<Name>, AllocError> {
        match Name::new(alloc, bytes) {
            Ok(name) => Ok(Some(name)),
            Err(Refusal::BadName) => Ok(None),
            Err(_) => Err(AllocError),
        }
    }

    fn spell(&self, item: &mut Vec<u8>) -> Result<(), AllocError> {
        item.extend_from_slice(self.as_bytes())
    }
}

impl ReadValue for FileId {
    fn read(_alloc: Global, bytes: &[u8]) -> Result<Option<FileId>, AllocError> {
        match bytes {
            [kind, number, a, b, c, d] => {
                let inum = u32::from_be_bytes([*a, *b, *c, *d]);
                Ok(file_id_of(*kind, *number, inum))
            }
            _ => Ok(None),
        }
    }

    fn spell(&self, item: &mut Vec<u8>) -> Result<(), AllocError> {
        let (head, number) = match self {
            FileId::User(user, number) => ([0, user.number()], number.number()),
            FileId::Group(group, number) => ([1, group.number()], number.number()),
        };
        item.extend_from_slice(&head)?;
        item.extend_from_slice(&number.to_be_bytes())
    }
}

/// The file id of that kind, user or group, and number, if there is one.
fn file_id_of(kind: u8, number: u8, inum: u32) -> Option<FileId>
    ensures { MatchOption result
        ((f : File) → IsTrue (is_file_id f)
        → file_id_bytes f ≢ kind ∷ number ∷ to_be_bytes w32 inum)
        (λ f. IsTrue (is_file_id f)
        × (file_id_bytes f ≡ kind ∷ number ∷ to_be_bytes w32 inum)) }
{
    let Ok(inum) = Inum::new(u64::from(inum)) else {
        return None;
    };
    match kind {
        0 => match User::new(u64::from(number)) {
            Ok(user) => Some(FileId::User(user, inum)),
            Err(_) => None,
        },
        1 => match Group::new(u64::from(number)) {
            Ok(group) => Some(FileId::Group(group, inum)),
            Err(_) => None,
        },
        _ => None,
    }
}

impl ReadValue for Place {
    fn read(_alloc: Global, bytes: &[u8]) -> Result<Option<Place>, AllocError> {
        match bytes {
            [user, a, b, c, d] => {
                let inum = u32::from_be_bytes([*a, *b, *c, *d]);
                Ok(place_of(*user, inum))
            }
            _ => Ok(None),
        }
    }

    fn spell(&self, item: &mut Vec<u8>) -> Result<(), AllocError> {
        let (user, number) = *self;
        item.extend_from_slice(&[user.number()])?;
        item.extend_from_slice(&number.number().to_be_bytes())
    }
}

/// The place of that user and number, if there is one.
fn place_of(user: u8, inum: u32) -> Option<Place>
    ensures { MatchOption result
        ((p : ℕ × ℕ) → IsTrue (is_place p) → place_bytes p ≢ user ∷ to_be_bytes w32 inum)
        (λ p. IsTrue (is_place p) × (place_bytes p ≡ user ∷ to_be_bytes w32 inum)) }
{
    let Ok(inum) = Inum::new(u64::from(inum)) else {
        return None;
    };
    match User::new(u64::from(user)) {
        Ok(user) => Some((user, inum)),
        Err(_) => None,
    }
}
