// Inverses: the values of cells, kept of a tree.
use crate::contents::{KeptBlocks, KeptSize};
use crate::resets::Reset;
use crate::returns::Return;

/// The values that the cells of some areas held, in four lists by how they are put back. The lists
/// are private: what they come to is told by `undo_after_apply` and `kept_of_trees_alike`, in terms
/// of the cells of trees.
#[derive(Drop)]
pub struct Inverse {
    returns: Vec<Return>,
    sizes: Vec<KeptSize>,
    resets: Vec<Reset>,
    blocks: Vec<KeptBlocks>,
}
