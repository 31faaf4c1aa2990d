// Who may touch a file.
ghost use Rattle.std.specs.Prelude.{◌≡◌, true, false, MatchOption};
ghost use Rattle.su_op.specs.Rule.{may_touch, group_of};

use su_bytes::{FileId, Group, Roster, User};

/// Returns the group of a group file that the author is no member of, if it is one.
pub fn closed_group(roster: &Roster, author: User, file: FileId) -> Option<Group>
    ensures { MatchOption result
        (may_touch roster.now author file ≡ true)
        (λ group. (may_touch roster.now author file ≡ false) × (group ≡ group_of file)) }
{
    match file {
        FileId::User(..) => None,
        FileId::Group(group, _) => {
            if roster.is_member(author, group) {
                None
            } else {
                Some(group)
            }
        }
    }
}
