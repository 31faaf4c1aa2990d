// Items and their digests.
ghost use Rattle.std.specs.Prelude.{◌≡◌};
ghost use Rattle.sha2.specs.Sha256.{sha256};
ghost use Rattle.su_block.specs.Item.{is_item};

use sha2::Sha256;
use su_bytes::Digest;

/// The most bytes of an item.
pub const LONGEST_ITEM: usize = 70_000;

/// Whether the bytes may be stored: 1 to 70,000 of them.
pub fn is_item(bytes: &[u8]) -> bool
    ensures { result ≡ is_item bytes.now }
{
    1 <= bytes.len() && bytes.len() <= LONGEST_ITEM
}

/// Returns the digest under which an item is stored: its SHA-256.
pub fn digest_of(bytes: &[u8]) -> Digest
    ensures { result ≡ sha256 bytes.now }
{
    Digest::new(<Sha256 as sha2::Digest>::digest(bytes))
}
