// A commit follows the chain that it names, and only once.

use crate::clients::{push_counted, signer};
use std::alloc::{AllocError, Global};
use std::test::Fail;
use su_bytes::{Digest, FileId, Format, KEY_LENGTH, Refusal, Roster, User};
use su_lms::PublicKey;
use su_used_keys::UsedKeys;
use su_vector::Vector;
use su_version::{Commit, Tip};

const HEAD: [u8; 32] = [1; 32];

/// A commit, and the roster of its author and of a user whose key is none.
struct Signed {
    roster: Roster,
    commit: Commit,
}

impl Drop for Signed {
    // (By hand, so that a caller's proof needs no case for each part of a commit.)
    fn drop(self) {
        let Signed {
            roster: _roster,
            commit: _commit,
        } = self;
    }
}

// The bytes of user 0's version structure after HEAD, which carries group 1.
fn version_bytes(alloc: Global) -> Result<Vec<u8>, AllocError> {
    let mut bytes = Vec::from_slice(alloc, b"SV01\x00")?;
    bytes.extend_from_slice(&HEAD)?;
    bytes.extend_from_slice(&[2; 32])?;
    bytes.extend_from_slice(&[3; 32])?;
    bytes.extend_from_slice(b"\x01\x01")?;
    bytes.extend_from_slice(&[4; 32])?;
    bytes.push(4)?;
    for number in [1u64, 0, 0, 1] {
        bytes.extend_from_slice(&number.to_be_bytes())?;
    }
    Ok(bytes)
}

// The key of user 0, and the bytes of a commit by its first leaf.
fn signed_bytes(alloc: Global) -> Result<(PublicKey, Vec<u8>), Refusal> {
    let mut bytes = version_bytes(alloc)?;
    let mut signer = signer(alloc, 0)?;
    let signature = signer.sign(&bytes)?;
    push_counted(&mut bytes, &signature)?;
    Ok((signer.public(), bytes))
}

fn first_commit(alloc: Global) -> Result<Signed, Refusal> {
    let (key, bytes) = signed_bytes(alloc)?;
    Ok(Signed {
        roster: Roster::of_keys(alloc, &[*key.as_bytes(), [0; KEY_LENGTH]])?,
        commit: Commit::decode(alloc, &bytes)?,
    })
}

// The key of a user, if there is such a user.
fn key_of(roster: &Roster, user: User) -> Result<Option<PublicKey>, Refusal> {
    // names the type for the prover (docs/ARCHITECTURE.md, "Forms the kit wants")
    let _file: Option<FileId> = None;
    match roster.key(user) {
        None => Ok(None),
        Some(bytes) => Ok(Some(PublicKey::parse(bytes)?)),
    }
}

impl Signed {
    fn author(&self) -> User {
        self.commit.version().author()
    }

    /// Checks it as the commit behind HEAD, one of that format, where its author signed last by this
    /// leaf.
    fn check(&self, alloc: Global, format: Format, leaf: Option<u32>) -> Result<(), Refusal> {
        // names the type for the prover (docs/ARCHITECTURE.md, "Forms the kit wants")
        let _file: Option<FileId> = None;
        let key = key_of(&self.roster, self.commit.version().author())?;
        let zeros = Vector::new(vec![in alloc; 0; 4]?);
        let used = UsedKeys::of_roster(alloc, &self.roster)?;
        let tip = Tip::new(0, Digest::new(HEAD), format, &zeros, key, leaf, &used);
        tip.check(alloc, &self.roster, &self.commit)
    }
}

#[test]
fn a_commit_follows_once(rt: HostRuntime) -> Result<(), Fail> {
    let signed = first_commit(rt.alloc())?;
    assert_eq!(rt; signed.author(), User::FIRST);
    let alloc = rt.alloc();
    assert_eq!(rt; signed.check(alloc, Format::V1, None), Ok(()));
    assert_eq!(rt;
        signed.check(alloc, Format::V1, Some(0)),
        Err(Refusal::KeyReuse)
    );
    assert_eq!(rt;
        signed.check(alloc, Format::V2, None),
        Err(Refusal::OldFormat)
    );
    Ok(())
}
