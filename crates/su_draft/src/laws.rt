// What holds of the definitions themselves.
ghost use Rattle.std.specs.Prelude.{◌≡◌, ◌↔◌, ◌≤◌, ℕ, Bool, List, Ok, IfOk};
ghost use Rattle.su_bytes.specs.Membership.{Membership};
ghost use Rattle.su_node.specs.Name.{Name};
ghost use Rattle.su_table.specs.Free.{IsLeastFree};
ghost use Rattle.su_draft.specs.Path.{IsPath, path_names};
ghost use Rattle.su_table.specs.Tree.{Tree};
ghost use Rattle.su_draft.specs.declared.commands.Command.{Command};
ghost use Rattle.su_draft.specs.Number.{least_free};
ghost use Rattle.su_draft.specs.Command.{draft};
ghost use Rattle.su_draft.specs.Taking.{TakesWhatItMust};
ghost use Rattle.su_draft.specs.Counting.{CountUp};

/// Each list of names is the path of one spelling, and that is read as these names; nothing else is
/// read.
pub fn paths_have_one_spelling()
    ensures { (bytes : List ℕ) (names : List Name)
        → (path_names bytes ≡ Ok names) ↔ IsPath bytes names }
{}

/// The number that is found is the least free one.
pub fn numbers_are_least()
    ensures { (free : ℕ → Bool) (from : ℕ) → 1 ≤ from
        → IsLeastFree free from (least_free free from) }
{}

/// Of the operations of a command, a group file that they write and that another user holds is
/// taken over, once, and nothing else is.
pub fn files_are_taken_once()
    ensures { (ro : Membership) (T : Tree) (a : ℕ) (command : Command)
        → IfOk (draft ro T a command) (TakesWhatItMust T a) }
{}

/// Where the operations of a command make a body, they use the free numbers of the author's table
/// one after another, from the least one on.
pub fn numbers_are_counted_through()
    ensures { (ro : Membership) (T : Tree) (a : ℕ) (command : Command)
        → IfOk (draft ro T a command) (CountUp T a 0) }
{}
