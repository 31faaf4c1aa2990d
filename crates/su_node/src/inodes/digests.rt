// The digest of an inode.
ghost use Rattle.std.specs.Prelude.{◌≡◌};
ghost use Rattle.su_node.specs.Digest.{content_digest, inode_digest, kind_byte};

use super::{Inode, Stored};
use sha2::{Digest as _, Sha256};
use su_bytes::{Digest, Kind};
use su_tree::TreeValue;

impl Inode {
    /// Returns the digest of the inode. It makes one hash.
    pub fn digest(&self) -> Digest
        ensures { result ≡ inode_digest self.now }
    {
        let mut hasher = Sha256::new();
        hasher.update([3]);
        self.home.feed(&mut hasher);
        hasher.update([byte_of_kind(self.kind()), self.links]);
        hasher.update(self.size().to_be_bytes());
        hasher.update(self.content_digest().as_bytes());
        Digest::new(hasher.finalize())
    }

    fn content_digest(&self) -> Digest
        ensures { result ≡ content_digest self.now.content }
    {
        match &self.content {
            Stored::Bytes(bytes) => bytes.digest(),
            Stored::Names(names) => names.digest(),
        }
    }
}

fn byte_of_kind(kind: Kind) -> u8
    ensures { result ≡ kind_byte kind }
{
    match kind {
        Kind::File => 0,
        Kind::Dir => 1,
    }
}
