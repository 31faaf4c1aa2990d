// The pieces of a file's new contents that are written over the old ones.
ghost use Rattle.std.specs.Prelude.{◌≡◌, ◌+◌, ◌-◌, ◌*◌, ◌<◌, ◌≤◌, ℕ, [], true, false, length, slice_get, IfOk, MatchOption};
ghost use Rattle.std.specs.List.{Any};
ghost use Rattle.su_pieces.specs.Piece.{ArePieces, HasByte, IsPiece, differs, put_over};

use crate::blocks::{end_of_run, first_differing};
use std::alloc::{AllocError, Global};
use su_node::BLOCK_SIZE;

/// A run of bytes of a file's new contents.
#[derive(Clone, Copy, Debug)]
pub struct Piece {
    /// Where in the file it begins.
    pub off: usize,
    /// How many bytes it has.
    pub len: usize,
}

/// Returns the pieces of a file's new contents that are to be written over the old ones, each by
/// one write. Blocks that are as they were are in none.
pub fn differing(alloc: Global, old: &[u8], new: &[u8]) -> Result<Vec<Piece>, AllocError>
    ensures pieces { IfOk result (λ pieces. ArePieces old.now new.now pieces.items) }
    ensures makes { IfOk result (λ pieces. put_over old.now new.now pieces.items ≡ new.now) }
    ensures same { IfOk result (λ pieces. (i : ℕ) → i < length new.now
        → ¬ Any (HasByte i) pieces.items → slice_get old.now i ≡ slice_get new.now i) }
    ensures none { IfOk result (λ pieces. old.now ≡ new.now → pieces.items ≡ []) }
{
    let mut pieces = Vec::new(alloc);
    let mut done = 0;
    while let Some(piece) = next_piece(old, new, done) {
        pieces.push(piece)?;
        done = piece.off + piece.len;
    }
    Ok(pieces)
}

/// Finds the first piece of which each block begins at that byte or behind it.
fn next_piece(old: &[u8], new: &[u8], from_: usize) -> Option<Piece>
    ensures { MatchOption result
        ((n : ℕ) → from_ ≤ BLOCK_SIZE * n → differs old.now new.now n ≡ false)
        (λ p. IsPiece old.now new.now p × (from_ ≤ p.off)
        × ((n : ℕ) → from_ ≤ BLOCK_SIZE * n → BLOCK_SIZE * n < p.off
        → differs old.now new.now n ≡ false)) }
{
    let first = first_differing(old, new, from_.div_ceil(BLOCK_SIZE))?;
    let end = new.len().min(BLOCK_SIZE * end_of_run(old, new, first));
    let off = BLOCK_SIZE * first;
    Some(Piece {
        off,
        len: end - off,
    })
}
