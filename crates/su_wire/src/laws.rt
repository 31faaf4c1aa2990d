// What a view makes of the records of a book.
ghost use Rattle.std.specs.Prelude.{◌⊎◌, List};
ghost use Rattle.su_version.specs.Commit.{Commit, commit_bytes};
ghost use Rattle.su_book.specs.Machine.{BookState, IsRun};
ghost use Rattle.su_view.specs.Holding.{HoldingState};
ghost use Rattle.su_view.specs.Joining.{HasFailed, IsRefusedCommit};
ghost use Rattle.su_view.specs.Listing.{IsRefusedBytes};
ghost use Rattle.su_view.specs.declared.refusals.ViewRefusal.{ViewRefusal};
ghost use Rattle.su_wire.specs.Meeting.{IsBefore, IsOfTheChange};

use su_block::BlockSource;
use su_book::records_are_a_chain;

/// A view that holds just the records before one of a book's refuses that one, by its bytes or as a
/// commit, only for its change, for a next key that the change doesn't name, for an i-handle, or
/// because the source fails: its signature, what it follows, its vector, its leaf and its next key
/// are those of a next commit.
pub fn records_are_refused_for_their_changes<S: BlockSource>()
    ensures shown { (b : BookState) (v : HoldingState) (c : Commit) (after : List Commit)
        (source now : S) (e : ViewRefusal)
        → IsRun b → IsBefore b v c after
        → IsRefusedBytes (S.may_give source) (S.failed source) (S.failed now) v (commit_bytes c) e
        → IsOfTheChange e }
    ensures taken { (b : BookState) (v : HoldingState) (c : Commit) (after : List Commit)
        (source now : S) (e : ViewRefusal)
        → IsRun b → IsBefore b v c after
        → HasFailed (S.failed source) (S.failed now) c.version.change e
        ⊎ IsRefusedCommit (S.may_give source) v c e
        → IsOfTheChange e }
{
    records_are_a_chain();
}
