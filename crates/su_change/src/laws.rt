// What holds of the items of changes.
ghost use Rattle.std.specs.Prelude.{◌≡◌, ◌++◌, ℕ, List};
ghost use Rattle.su_op.specs.declared.operations.Change.{Change};
ghost use Rattle.su_change.specs.Item.{HasItem, IsChange, item_bytes};

/// An item tells its change, and begins no other item.
pub fn no_item_begins_another()
    ensures tells { (c d : Change) → IsChange c → HasItem c → IsChange d → HasItem d
        → item_bytes c ≡ item_bytes d → c ≡ d }
    ensures begins { (c d : Change) (x y : List ℕ) → IsChange c → HasItem c → IsChange d
        → HasItem d → item_bytes c ++ x ≡ item_bytes d ++ y → (c ≡ d) × (x ≡ y) }
{}
