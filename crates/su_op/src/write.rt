// Bytes are written to a file.
ghost use Rattle.std.specs.Prelude.{◌≡◌};

use std::alloc::{AllocError, Global};
use std::marker::Model;
use su_bytes::FileId;

/// Writes bytes to a file; where they begin past its end, the gap is filled with zeros.
#[derive(Debug, Drop)]
pub struct Write {
    pub file: FileId,
    /// Where in the file the bytes begin.
    pub off: u32,
    /// What is written, 1 to 65,536 bytes.
    pub bytes: Vec<u8>,
}

impl Model for Write {
    ghost use Rattle.su_op.specs.Writing.{Writing};

    ghost Value = { Writing };

    ghost view = { λ w. record { file = w.file; off = w.off; bytes = w.bytes.items } };
}

impl Clone for Write {
    ghost is_clone = { λ write copy. copy ≡ write };

    fn clone(&self) -> Result<Write, AllocError> {
        let bytes = Vec::from_slice(*self.bytes.allocator(), self.bytes.as_slice())?;
        Ok(Write {
            file: self.file,
            off: self.off,
            bytes,
        })
    }
}
