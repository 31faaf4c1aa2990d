// What items are put for.
ghost use Rattle.std.specs.Prelude.{◌≡◌, ◌≤◌};
ghost use Rattle.su_shared_items.specs.Shard.{room_for};

/// What an item is put for.
#[derive(Clone, Copy, Debug, PartialEq, Eq)]
pub enum Purpose {
    /// A commit, which names it and comes next.
    Commit,
    /// Anything else, as the tree that a client leaves.
    Other,
}

impl Purpose {
    /// Returns how many of these bytes of room items may take once one is put for this: all of them
    /// for a commit, and else three quarters, so that the rest is there for commits.
    pub(crate) fn share_of(self, room: usize) -> usize
        ensures value { result ≡ room_for self room }
        ensures within { result ≤ room }
    {
        match self {
            Purpose::Commit => room,
            Purpose::Other => room - room / 4,
        }
    }
}
