// What holds of pieces and puts, by their definitions.
ghost use Rattle.std.specs.Prelude.{◌≡◌, ℕ, List, [], Ok};
ghost use Rattle.su_bytes.specs.declared.file_ids.FileId.{FileId};
ghost use Rattle.su_bytes.specs.Membership.{Membership};
ghost use Rattle.su_node.specs.InodeChange.{with_bytes_at, with_size};
ghost use Rattle.su_table.specs.Tree.{Tree};
ghost use Rattle.su_op.specs.declared.operations.Op.{Op};
ghost use Rattle.su_op.specs.Soundness.{Sound};
ghost use Rattle.su_desk.specs.declared.entries.Entry.{Entry};
ghost use Rattle.su_desk.specs.Applied.{tree_after};
ghost use Rattle.su_draft.specs.declared.commands.Command.{Command};
ghost use Rattle.su_plan.specs.Plan.{plan};
ghost use Rattle.su_pieces.specs.declared.pieces.Piece.{Piece};
ghost use Rattle.su_pieces.specs.Piece.{ArePieces};
ghost use Rattle.su_pieces.specs.Put.{Does, Step.Makes, Step.Writes, Step.Cuts};
ghost use Rattle.su_pieces.specs.CarriedOut.{LeadsTo, Leaves, PutsAreCarriedOut, effects};

/// Old contents and new ones have pieces in one way.
pub fn pieces_are_one()
    ensures { (old new : List ℕ) (ps qs : List Piece)
        → ArePieces old new ps → ArePieces old new qs → ps ≡ qs }
{}

/// A command that is planned and accepted does its step and nothing else: it makes an empty file at
/// the path, writes to the file that the path leads to, or cuts it. Every other file has the
/// contents that it had, and the paths that lead to it are those that led there.
pub fn steps_are_carried_out()
    ensures makes { (ro : Membership) (a : ℕ) (T : Tree) (path : List ℕ) (command : Command)
        (ops : List Op) → Sound T → Does path Makes command → plan ro T a command ≡ Ok ops
        → (file : FileId) × Leaves T (effects ro a T ops) path file [] }
    ensures writes { (ro : Membership) (a : ℕ) (T : Tree) (path : List ℕ) (file : FileId)
        (old : List ℕ) (off : ℕ) (bytes : List ℕ) (command : Command) (ops : List Op)
        → Sound T → LeadsTo T path file old → Does path (Writes off bytes) command
        → plan ro T a command ≡ Ok ops
        → Leaves T (effects ro a T ops) path file (with_bytes_at off bytes old) }
    ensures cuts { (ro : Membership) (a : ℕ) (T : Tree) (path : List ℕ) (file : FileId)
        (old : List ℕ) (size : ℕ) (command : Command) (ops : List Op)
        → Sound T → LeadsTo T path file old → Does path (Cuts size) command
        → plan ro T a command ≡ Ok ops
        → Leaves T (effects ro a T ops) path file (with_size size old) }
{}

/// Where each command of a put is planned and accepted in its turn, the path leads to a file with
/// the new contents afterwards, every other file has the contents that it had, and the paths that
/// lead to it are those that led there.
pub fn puts_are_carried_out()
    ensures { PutsAreCarriedOut }
{}

/// The tree that a history leaves is sound, as those have to be to which a put is made.
pub fn histories_leave_sound_trees()
    ensures { (ro : Membership) (h : List Entry) → Sound (tree_after ro h) }
{}
