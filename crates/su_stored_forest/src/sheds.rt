// All is left on the store.
ghost use Rattle.std.specs.Prelude.{OnOk};
ghost use Rattle.su_part.specs.Bytes.{NoneClash};
ghost use Rattle.su_part_forest.specs.Loading.{HashedFor};
ghost use Rattle.su_part_forest.specs.Sheds.{HasNothingLoaded, ShedsForest};
ghost use Rattle.su_table.specs.Tree.{Tree};

use crate::stored::StoredForest;
use su_block::BlockSource;
use su_bytes::Refusal;

impl<S: BlockSource> StoredForest<S> {
    ghost use Rattle.su_stored_forest.specs.Shows.{Holds, Shows};

    /// Leaves all of the tree on the store, but for the digests of its i-tables. Refused with
    /// `SourceFailed` where the store could not be asked, and with `NoMemory` where memory is
    /// wanting; then what wasn't put is still loaded.
    pub fn shed(&mut self) -> Result<(), Refusal>
        // What it showed it shows, unless two items of that tree have one digest: from then on the
        // store may give them.
        ensures shows { (T : Tree) → Shows S.may_give self.old T
            → NoneClash (HashedFor T) (S.may_give self.new.source)
            → Shows S.may_give self.new T }
        ensures holds { (T : Tree) → Holds self.old T → Holds self.new T }
        ensures sheds { ShedsForest S.may_give S.failed S.follows S.puts self.old.forest
            self.new.forest self.old.source self.new.source result }
        ensures none { OnOk result (HasNothingLoaded self.new.forest) }
    {
        self.forest.shed(&mut self.source)
    }
}
