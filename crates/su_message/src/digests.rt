// Digests among the fields of messages.
ghost use Rattle.std.specs.Prelude.{◌≡◌, ◌++◌, length, OnOk};

use std::alloc::AllocError;
use su_bytes::Digest;
use su_format::Writer;

/// Writes a digest.
pub(crate) fn put_digest(writer: &mut Writer, digest: &Digest) -> Result<(), AllocError>
    ensures written { OnOk result (writer.new ≡ writer.old ++ digest.now) }
    ensures meant { length digest.now ≡ 32 }
{
    // its length (docs/ARCHITECTURE.md, "Forms the kit wants")
    let _bytes: &[u8] = digest.as_bytes();
    writer.put_digest(digest)
}
