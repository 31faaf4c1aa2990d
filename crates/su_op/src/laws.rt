// Laws: what holds of the definitions themselves.
ghost use Rattle.std.specs.Prelude.{◌≡◌, ℕ, true};
ghost use Rattle.std.specs.Option.{is_none};
ghost use Rattle.std.specs.List.{All};
ghost use Rattle.su_bytes.specs.Membership.{Membership};
ghost use Rattle.su_node.specs.Field.{Field.KindOf, Field.BlockOf};
ghost use Rattle.su_bytes.specs.Place.{Place};
ghost use Rattle.su_table.specs.Tree.{Tree};
ghost use Rattle.su_table.specs.Cell.{Cell.At};
ghost use Rattle.su_op.specs.Area.{has};
ghost use Rattle.su_op.specs.Operation.{why, writes, Row};
ghost use Rattle.su_op.specs.Soundness.{Sound, WholeOrNew, KindIsNew, KindOrFile};
ghost use Rattle.su_undo.specs.System.{Lawful};
ghost use Rattle.su_op.specs.Action.{Action};
ghost use Rattle.su_op.specs.Store.{store};
ghost use Rattle.su_op.specs.Batch.{areas, Action as BatchAction, why as batch_why, writes as batch_writes, store as batch_store};
ghost use Rattle.su_undo.specs.Flat.{ReplaysFlat, NothingReadInside};
ghost use Rattle.su_undo.specs.Blocking.{BlocksByActions};
ghost use Rattle.su_op.specs.declared.operations.Op.{Op};

/// An operation depends on the cells that it reads alone, leaves the cells that it doesn't write,
/// and keeps a tree sound.
pub fn operations_are_local()
    ensures { (ro : Membership) → Lawful (store ro) }
{}

/// An operation that writes the kind of an inode writes all of it, or makes it; one that writes the
/// kind by itself makes the inode, where nothing stood before; one that writes a block writes the
/// kind too, or writes into a file that stands there. (So while nobody writes the kind of a file,
/// it stays a file.)
pub fn kinds_change_whole()
    ensures kind { (ro : Membership) (T : Tree) (x : Action) (p : Place) → Sound T
        → is_none (why ro T x) ≡ true
        → has (writes ro T x) (At p KindOf) ≡ true
        → WholeOrNew T p (has (writes ro T x)) }
    ensures new { (ro : Membership) (T : Tree) (x : Action)
        → is_none (why ro T x) ≡ true
        → All (KindIsNew T) (writes ro T x) }
    ensures block { (ro : Membership) (T : Tree) (x : Action) (p : Place) (n : ℕ) → Sound T
        → is_none (why ro T x) ≡ true
        → has (writes ro T x) (At p (BlockOf n)) ≡ true
        → KindOrFile T p (has (writes ro T x)) }
{}

/// The table of cells: what each operation reads and writes.
pub fn table_of_cells()
    ensures { (op : Op) → Row op }
{}

/// A batch depends on the cells that its operations read alone, leaves the cells that none of them
/// writes, and keeps a tree sound. So it can be taken out as an operation can.
pub fn batches_are_local()
    ensures { (ro : Membership) → Lawful (batch_store ro) }
{}

/// Lists of operations lead where their operations lead; what one reads is what its operations read
/// from outside of it; and it is blocked just where one of its operations would be, by one outside
/// of it.
pub fn batches_are_their_operations()
    ensures replay { (ro : Membership) → ReplaysFlat (store ro) (areas ro) }
    ensures outside { (ro : Membership) → NothingReadInside (store ro) (areas ro) }
    ensures blocks { (ro : Membership) → BlocksByActions (store ro) (areas ro) }
{}

/// A batch that writes the kind of an inode writes all of it, or makes it where nothing stood before
/// the batch; one that writes a block writes the kind too, or writes into a file that stood there.
pub fn batches_change_whole()
    ensures kind { (ro : Membership) (T : Tree) (x : BatchAction) (p : Place) → Sound T
        → is_none (batch_why ro T x) ≡ true
        → has (batch_writes ro T x) (At p KindOf) ≡ true
        → WholeOrNew T p (has (batch_writes ro T x)) }
    ensures block { (ro : Membership) (T : Tree) (x : BatchAction) (p : Place) (n : ℕ) → Sound T
        → is_none (batch_why ro T x) ≡ true
        → has (batch_writes ro T x) (At p (BlockOf n)) ≡ true
        → KindOrFile T p (has (batch_writes ro T x)) }
{}
