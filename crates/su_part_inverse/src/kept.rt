// Inverses as a desk keeps them.
ghost use Rattle.std.specs.Prelude.{◌≡◌, [], IfErr, IfOk};
ghost use Rattle.su_bytes.specs.declared.refusals.Refusal.TheVariants.{NoMemory};
ghost use Rattle.su_part_inverse.specs.Kept.{inverse_areas};
ghost use Rattle.su_part_inverse.specs.Lefts.{Leaves};
ghost use Rattle.su_part_inverse.specs.Packed.{HasLarge, IsPackedAs, KeepsAlike};
ghost use Rattle.su_part_inverse.specs.declared.inverses.Inverse.{Inverse as Inverse_};

use crate::inverses::Inverse;
use crate::packed::Packed;
use http_server::Log;
use std::alloc::Global;
use std::marker::Model;
use su_block::BlockSource;
use su_bytes::{FileId, Refusal};

/// An inverse as a desk keeps it: what is small of it in bytes, once it is packed. Its model is the
/// inverse.
#[derive(Drop)]
pub struct KeptInverse {
    /// The inverse; while it is packed, without what is small of it.
    inverse: Inverse,
    /// What is small of it, while it is packed.
    packed: Option<Packed>,
    /// All of what is small, which proofs read, in the inverse that was kept. (`Log` is the kit's list
    /// that no memory holds.)
    whole: Log<Inverse, ()>,
}

impl Model for KeptInverse {
    ghost use Rattle.su_part_inverse.specs.declared.inverses.Inverse.{Inverse as TheInverse};
    ghost use Rattle.su_part_inverse.specs.contracts.inverses.Inverse as kept;

    ghost Value = { TheInverse };

    ghost coded = { kept.the_row.coded };

    ghost use Rattle.su_part_inverse.specs.Packed.{IsPackedIn, with_first};

    ghost view = { λ k. with_first k.inverse k.whole.items };

    ghost invariant = { λ k. IsPackedIn k.inverse k.packed k.whole.items };
}

impl KeptInverse {
    /// Makes one that keeps nothing, to stand for another one while that is taken out. Takes no
    /// memory.
    pub fn nothing(alloc: Global) -> KeptInverse
        ensures { inverse_areas result ≡ [] }
    {
        KeptInverse::new(Inverse {
            inodes: Vec::new(alloc),
            returns: Vec::new(alloc),
            sizes: Vec::new(alloc),
            resets: Vec::new(alloc),
            blocks: Vec::new(alloc),
            left: None,
        })
    }

    /// Keeps an inverse. Takes no memory.
    pub fn new(inverse: Inverse) -> KeptInverse
        ensures { result ≡ inverse }
    {
        let whole = Log::new().and(&inverse, &());
        KeptInverse {
            inverse,
            packed: None,
            whole,
        }
    }

    /// Spells the names, pointers, sizes and absences that it keeps in bytes, unless they are so. Fails
    /// only with `NoMemory`, and then changes nothing.
    pub fn pack(&mut self, alloc: Global) -> Result<(), Refusal>
        ensures same { self.new ≡ self.old }
        ensures refused { IfErr result (λ e. e ≡ NoMemory) }
    {
        pack_small(alloc, &mut self.inverse, &mut self.packed)
    }

    /// Brings what is small of it back out of the bytes, if it is packed. Fails only with `NoMemory`;
    /// then it is given back.
    pub fn open(self, alloc: Global) -> Result<OpenInverse, (KeptInverse, Refusal)>
        ensures opened { IfOk result (λ kept. kept ≡ self) }
        ensures given_back { IfErr result (λ e. e.0 ≡ self) }
        ensures refused { IfErr result (λ e. e.1 ≡ NoMemory) }
    {
        let KeptInverse {
            mut inverse,
            packed,
            whole,
        } = self;
        match packed {
            None => Ok(OpenInverse { inverse, whole }),
            Some(small) => match small.unpack(alloc, &mut inverse) {
                Ok(()) => Ok(OpenInverse { inverse, whole }),
                Err(refusal) => {
                    let kept = KeptInverse {
                        inverse,
                        packed: Some(small),
                        whole,
                    };
                    Err((kept, refusal))
                }
            },
        }
    }

    /// Leaves what has bytes on the store, as `Inverse::leave` does.
    pub fn leave<S: BlockSource>(&mut self, alloc: Global, source: &mut S) -> Result<(), Refusal>
        ensures leaves { Leaves S.may_give S.follows self.old self.new source.old source.new
            result }
    {
        self.inverse.leave(alloc, source)
    }
}

/// An inverse that a desk keeps, with nothing of it packed. Its model is the inverse.
#[derive(Drop)]
pub struct OpenInverse {
    /// The inverse, with all that is small of it.
    inverse: Inverse,
    /// All of what is small, which proofs read, as in a `KeptInverse`.
    whole: Log<Inverse, ()>,
}

impl Model for OpenInverse {
    ghost use Rattle.std.specs.Prelude.{None};
    ghost use Rattle.su_part_inverse.specs.declared.inverses.Inverse.{Inverse as TheInverse};
    ghost use Rattle.su_part_inverse.specs.contracts.inverses.Inverse as kept;

    ghost Value = { TheInverse };

    ghost coded = { kept.the_row.coded };

    ghost use Rattle.su_part_inverse.specs.Packed.{IsPackedIn, with_first};

    ghost view = { λ o. with_first o.inverse o.whole.items };

    ghost invariant = { λ o. IsPackedIn o.inverse None o.whole.items };
}

impl OpenInverse {
    /// Lends the inverse.
    pub fn inverse(&self) -> &Inverse
        ensures { KeepsAlike self.now result.now }
    {
        &self.inverse
    }

    /// Closes it again. Takes no memory.
    pub fn close(self) -> KeptInverse
        ensures { result ≡ self }
    {
        let OpenInverse { inverse, whole } = self;
        KeptInverse {
            inverse,
            packed: None,
            whole,
        }
    }
}

/// Packs what is small of an inverse, unless it is so. Fails only with `NoMemory`, and then changes
/// nothing.
fn pack_small(
    alloc: Global,
    inverse: &mut Inverse,
    packed: &mut Option<Packed>,
) -> Result<(), Refusal>
    ensures as_before { (w : Inverse_) → IsPackedAs inverse.old packed.old w
        → IsPackedAs inverse.new packed.new w }
    ensures large { HasLarge inverse.old inverse.new }
    ensures refused { IfErr result (λ e. e ≡ NoMemory) }
{
    // names the type for the prover (docs/ARCHITECTURE.md, "Forms the kit wants")
    let _file: Option<FileId> = None;
    if packed.is_some() {
        return Ok(());
    }
    let small = Packed::new(alloc, inverse)?;
    inverse.returns = Vec::new(alloc);
    inverse.sizes = Vec::new(alloc);
    inverse.resets = Vec::new(alloc);
    *packed = Some(small);
    Ok(())
}
