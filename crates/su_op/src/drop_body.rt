// A body goes that no file id leads to any more.
use su_bytes::Inum;

/// Takes away a body of the author's that no file id leads to any more: it was made for a group
/// file, and the group's pointer is gone or leads elsewhere.
#[derive(Clone, Debug, Drop)]
pub struct DropBody {
    /// The number in the author's i-table at which the body stands.
    pub body: Inum,
}
