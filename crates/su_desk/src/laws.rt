// What holds of the definitions themselves.
ghost use Rattle.std.specs.Prelude.{◌≡◌, ◌≤◌, ◌+◌, ◌↔◌, ◌&&◌, ℕ, true, not, List, [], ◌∷◌, ◌++◌, map, length, nat_eq, None, Some};
ghost use Rattle.std.specs.List.{filter, list_any};
ghost use Rattle.std.specs.List.Sorted.{IsStrictlyIncreasing};
ghost use Rattle.su_bytes.specs.Membership.{Membership, IsRoster, has_number};
ghost use Rattle.su_bytes.specs.declared.formats.Format.{Format};
ghost use Rattle.su_bytes.specs.declared.principals.Principal.{Principal};
ghost use Rattle.su_bytes.specs.declared.principals.Principal.TheVariants.{User};
ghost use Rattle.su_op.specs.declared.areas.Area.{Area};
ghost use Rattle.su_op.specs.Area.{meet};
ghost use Rattle.su_op.specs.Batch.{why, effect};
ghost use Rattle.su_op.specs.Batch.{Action};
ghost use Rattle.su_op.specs.Batch.{store};
ghost use Rattle.su_undo.specs.Replay.{UndoIsSafe};
ghost use Rattle.su_desk.specs.declared.entries.Entry.{Entry};
ghost use Rattle.su_desk.specs.History.{NumberedAction, entry_doing, undo_by, rekey_by, live, live_numbers, last_live, tree};
ghost use Rattle.su_desk.specs.Blocker.{blocker, HaveCommonCell};
ghost use Rattle.su_desk.specs.Answer.{refusal_of, Good};
ghost use Rattle.su_desk.specs.Applied.{tree_after};
ghost use Rattle.su_desk.specs.Headline.{Headline};
ghost use Rattle.su_desk.specs.Version.{carries, carried_groups, cells_of, raised, version, versions};

/// What the desk is for holds of every good history, with every kind of undo, and the tree that it
/// leaves.
pub fn good_histories_can_be_undone()
    ensures { (ro : Membership) (h : List Entry) → Good ro h → Headline ro h (tree_after ro h) }
{}

/// Of operations that lead from a sound tree to another, each can be taken out that wrote no cell
/// that a later one reads, without a history.
pub fn operations_can_be_taken_out()
    ensures { (ro : Membership) → UndoIsSafe (store ro) }
{}

/// The last live operation is never blocked.
pub fn latest_is_free()
    ensures { (ro : Membership) (h : List Entry) → blocker ro h (last_live h) ≡ None }
{}

/// Two lists of areas meet just where a cell is in both.
pub fn areas_meet_in_a_cell()
    ensures { (u w : List Area) → (meet u w ≡ true) ↔ HaveCommonCell u w }
{}

/// The numbers of live operations ascend, so that the last of them is the greatest.
pub fn live_numbers_ascend()
    ensures { (h : List Entry) → IsStrictlyIncreasing (live_numbers h) }
{}

/// One entry more: an operation is live then, if it comes after a good history, and makes the tree
/// that the history left what it does to it; an undo takes out the operation that it names; and a
/// rekey leaves the live ones as they were. The history is good if it was, and the entry is accepted
/// after it.
pub fn one_entry_more()
    ensures done { (ro : Membership) (h : List Entry) (x : Action) → Good ro h
        → live (h ++ entry_doing x ∷ [])
        ≡ live h ++ record { number = length h + 1; action = x } ∷ [] }
    ensures effect { (ro : Membership) (h : List Entry) (x : Action) → Good ro h
        → why ro (tree_after ro h) x ≡ None
        → tree ro (h ++ entry_doing x ∷ []) ≡ Some (effect ro (tree_after ro h) x) }
    ensures undone { (h : List Entry) (a : ℕ) (f : Format) (n : ℕ)
        → live (h ++ undo_by a f n ∷ [])
        ≡ filter (λ (t : NumberedAction). not (nat_eq t.number n)) (live h) }
    ensures named { (h : List Entry) (a : ℕ) (f : Format) (k : List ℕ)
        → live (h ++ rekey_by a f k ∷ []) ≡ live h }
    ensures good { (ro : Membership) (h : List Entry) (e : Entry)
        → Good ro (h ++ e ∷ []) ↔ (Good ro h × (refusal_of ro h e ≡ None)) }
{}

/// With each entry, also with an undo, no version number falls, and that of its author rises by
/// one: the numbers of its author and of the groups that it carries are raised, and all others
/// stay.
pub fn versions_rise()
    ensures none_falls { (ro : Membership) (h : List Entry) (e : Entry) (p : Principal)
        → version ro h p ≤ version ro (h ++ e ∷ []) p }
    ensures author { (ro : Membership) (h : List Entry) (e : Entry)
        → version ro (h ++ e ∷ []) (User e.author) ≡ version ro h (User e.author) + 1 }
    ensures all { (ro : Membership) (h : List Entry) (e : Entry)
        → versions ro (h ++ e ∷ [])
        ≡ map (raised e.author (cells_of ro h e)) (versions ro h) }
{}

/// The groups that an entry carries, as a list: those of the roster of which it writes a pointer.
/// In a roster they ascend.
pub fn carried_groups_are_listed()
    ensures listed { (ro : Membership) (w : List Area) (g : ℕ)
        → list_any (λ c. nat_eq c g) (carried_groups ro w)
        ≡ (has_number ro.groups g && carries g w) }
    ensures ascending { (ro : Membership) (w : List Area) → IsRoster ro
        → IsStrictlyIncreasing (carried_groups ro w) }
{}
