// What is kept of blocks that are left on a store.
ghost use Rattle.std.specs.Prelude.{◌≡◌};
ghost use Rattle.su_left_blocks.specs.Left.{digests_of};

use http_server::Log;
use std::alloc::Global;
use std::marker::Model;
use su_bytes::{Digest, Place};
use su_inverse::KeptBlocks;
use su_op::BlockRun;

/// The bytes that a file had in a run of blocks, which are left on a store: of each block its
/// digest. No memory holds the bytes. Its model is what is kept where they are at hand.
#[derive(Drop)]
pub struct LeftBlocks {
    /// The place and the run. The bytes are none.
    kept: KeptBlocks,
    digests: Vec<Digest>,
    /// What was kept while the bytes were at hand, which proofs read. (`Log` is the kit's list that
    /// no memory holds.)
    whole: Log<KeptBlocks, ()>,
}

impl Model for LeftBlocks {
    ghost use Rattle.su_inverse.specs.declared.contents.KeptBlocks.{KeptBlocks as Blocks};

    ghost Value = { Blocks };

    ghost use Rattle.su_left_blocks.specs.Left.{first_in, IsLeftAs};

    ghost view = { λ k. first_in k.kept k.whole.items };

    ghost invariant = { λ k. IsLeftAs k.kept k.digests.items (first_in k.kept k.whole.items) };
}

impl LeftBlocks {
    /// Keeps of these blocks, which are left on a store, their digests alone.
    pub fn new(alloc: Global, kept: &KeptBlocks, digests: Vec<Digest>) -> LeftBlocks
        requires { digests.items ≡ digests_of kept.now.bytes.items }
        ensures { result ≡ kept.now }
    {
        LeftBlocks {
            kept: KeptBlocks {
                place: kept.place,
                run: kept.run,
                bytes: Vec::new(alloc),
            },
            digests,
            whole: Log::new().and(kept, &()),
        }
    }

    /// Returns the place of the file.
    pub fn place(&self) -> Place
        ensures { result ≡ self.now.place }
    {
        self.kept.place
    }

    /// Returns the numbers of the blocks.
    pub fn run(&self) -> BlockRun
        ensures { result ≡ self.now.run }
    {
        self.kept.run
    }

    /// Lends the digests of the blocks, in their order.
    pub fn digests(&self) -> &[Digest]
        ensures { result.now ≡ digests_of self.now.bytes.items }
    {
        self.digests.as_slice()
    }
}
