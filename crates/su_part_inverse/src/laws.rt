// Laws: what holds of the definitions themselves.
ghost use Rattle.std.specs.Prelude.{◌≡◌, ◌++◌, true, None, List};
ghost use Rattle.su_bytes.specs.Membership.{Membership};
ghost use Rattle.su_table.specs.Tree.{Tree};
ghost use Rattle.su_table.specs.Cell.{Cell};
ghost use Rattle.su_op.specs.Action.{Action};
ghost use Rattle.su_op.specs.Area.{has};
ghost use Rattle.su_op.specs.Operation.{why, effect, writes};
ghost use Rattle.su_op.specs.Soundness.{Sound};
ghost use Rattle.su_op.specs.Store.{store};
ghost use Rattle.su_op.specs.Batch.{areas};
ghost use Rattle.su_undo.specs.Batch.{all_ok, all_acted, all_writes};
ghost use Rattle.su_inverse.specs.Kept.{HoldsSame};
ghost use Rattle.su_part_inverse.specs.declared.inverses.Inverse.{Inverse};
ghost use Rattle.su_part_inverse.specs.Kept.{inverse_areas, IsKeptOf, IsPutBack};

/// What is kept of a tree is kept of every tree that holds the same in its areas, and has files
/// where that has files.
pub fn kept_of_trees_alike()
    ensures { (i : Inverse) (S T : Tree) → HoldsSame (has (inverse_areas i)) S T → IsKeptOf i S
        → IsKeptOf i T }
{}

/// Right after an operation, what was kept of the areas that it writes puts back the tree before
/// it.
pub fn undo_after_apply()
    ensures { (ro : Membership) (T : Tree) (x : Action) (i : Inverse) → Sound T
        → why ro T x ≡ None
        → ((c : Cell) → has (inverse_areas i) c ≡ has (writes ro T x) c) → IsKeptOf i T
        → IsPutBack i (effect ro T x) T }
{}

/// Behind as many of some operations as were made that are accepted one after another, what was
/// kept before them of all that they write puts back the tree before the first.
pub fn undo_after_batch()
    ensures { (ro : Membership) (T : Tree) (xs ys : List Action) (i : Inverse) → Sound T
        → all_ok (store ro) T (xs ++ ys) ≡ true
        → ((c : Cell) → has (inverse_areas i) c
        ≡ has (all_writes (store ro) (areas ro) T (xs ++ ys)) c)
        → IsKeptOf i T → IsPutBack i (all_acted (store ro) T xs) T }
{}
