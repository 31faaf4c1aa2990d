// Accepted operations are performed.
ghost use Rattle.std.specs.Prelude.{◌≡◌, ℕ, List, IfErr, OnErr, OnOk};
ghost use Rattle.su_op.specs.Rule.{plan_reads};
ghost use Rattle.su_part.specs.Bytes.{NoneClash};
ghost use Rattle.su_part_forest.specs.Loading.{HashedFor};
ghost use Rattle.su_perform.specs.Accepted.{FitsIn, planned};
ghost use Rattle.su_table.specs.Edit.{edits};
ghost use Rattle.su_table.specs.Tree.{Tree};

use crate::stored::StoredForest;
use su_block::BlockSource;
use su_bytes::Refusal;
use su_op::Footprint;
use su_perform::Accepted;

impl<S: BlockSource> StoredForest<S> {
    ghost use Rattle.su_stored_forest.specs.Freed.{AgreeBeside};
    ghost use Rattle.su_stored_forest.specs.Shows.{Holds, Shows, Fails};

    /// Performs an accepted operation, of which these are the cells that it reads and writes: loads
    /// what it reads, and notes which numbers may be free then. Refused as a load is; then it shows
    /// what it showed. It holds the tree that is made, and shows that, unless an item of it has the
    /// digest of another byte string that the store may give.
    pub fn perform(&mut self, accepted: &Accepted<'_>, footprint: &Footprint) -> Result<(), Refusal>
        ensures made { (T V : Tree) → Shows S.may_give self.old T → FitsIn T accepted.now
            → footprint.now.reads.items ≡ plan_reads (planned T accepted.now)
            → V ≡ edits T (planned T accepted.now).edits
            → AgreeBeside footprint.now.writes.items T V
            → OnOk result (Holds self.new V) }
        ensures done { (T V : Tree) → Shows S.may_give self.old T → FitsIn T accepted.now
            → footprint.now.reads.items ≡ plan_reads (planned T accepted.now)
            → V ≡ edits T (planned T accepted.now).edits
            → AgreeBeside footprint.now.writes.items T V
            → NoneClash (HashedFor V) (S.may_give self.new.source)
            → OnOk result (Shows S.may_give self.new V) }
        ensures err { (T : Tree) → Shows S.may_give self.old T → FitsIn T accepted.now
            → footprint.now.reads.items ≡ plan_reads (planned T accepted.now)
            → OnErr result (Shows S.may_give self.new T) }
        ensures refused { (T : Tree) → Shows S.may_give self.old T → FitsIn T accepted.now
            → footprint.now.reads.items ≡ plan_reads (planned T accepted.now)
            → IfErr result (Fails S.failed T self.new) }
        ensures no_more { (i : List ℕ) → S.may_give self.new.source i
            → S.may_give self.old.source i }
        ensures follows { S.follows self.old.source self.new.source }
    {
        self.load(footprint.reads.as_slice())?;
        accepted.perform(&mut self.forest)?;
        self.note_freed(footprint.writes.as_slice());
        Ok(())
    }
}
