// Another user's head beside a client's own list.
ghost use Rattle.std.specs.Prelude.{◌≡◌, ◌≤◌, length};
ghost use Rattle.su_compare.specs.Standing.{Stands, head_at};

use su_block::BlockSource;
use su_bytes::Digest;
use su_view::View;

/// How another user's head stands to a client's list.
#[derive(Clone, Copy, Debug, PartialEq, Eq)]
pub enum Standing {
    /// It is the list's own head: both hold the same commits.
    Same,
    /// The list had it: it holds what the other holds, and more.
    Behind,
    /// The other holds more commits than the list: only the other's client can tell whether the list's
    /// head is among them.
    Ahead,
    /// The list never had it: the server showed them different lists.
    Forked,
}

/// Compares a head that another user tells, a digest after so many commits, with the list of a view.
pub fn compare<S: BlockSource + Drop>(view: &View<S>, number: u64, digest: Digest) -> Standing
    ensures { Stands view.now.holding number digest result }
{
    let (count, _) = view.head();
    if count < number {
        return Standing::Ahead;
    }
    if digest != head_at(view, number) {
        return Standing::Forked;
    }
    if number < count {
        return Standing::Behind;
    }
    Standing::Same
}

/// Returns the head that the list of a view had when it had so many commits.
fn head_at<S: BlockSource + Drop>(view: &View<S>, number: u64) -> Digest
    requires { number ≤ length view.now.holding.held }
    ensures { result ≡ head_at view.now.holding.roster view.now.holding.held number }
{
    match view.digest(number) {
        Some(digest) => digest,
        None => view.roster().digest(),
    }
}
