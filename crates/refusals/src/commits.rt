// The commits with which rows of views and of books begin.
use crate::clients::{Client, Items, create, take, two_clients, write};
use crate::faults::Fault;
use crate::lists::follow;
use crate::seen::Seen;
use std::alloc::Global;
use su_version::Commit;

/// Makes the client of user 1 with five commits: user 0 has made a file and written to it twice; and
/// user 1 has taken the root directory over, and made a second file.
pub(crate) fn five_commits(alloc: Global, seen: &mut Seen) -> Result<Client<Items>, Fault> {
    let (mut zero, mut one) = two_clients(alloc)?;
    zero.commit(create(alloc, b"a", 2)?, seen)?;
    zero.commit(write(alloc, 2, b"hello")?, seen)?;
    zero.commit(write(alloc, 2, b"howdy")?, seen)?;
    for number in 1..4 {
        follow(alloc, &mut one, &zero, number, seen)?;
    }
    one.commit(take(alloc, 1)?, seen)?;
    one.commit(create(alloc, b"b", 3)?, seen)?;
    Ok(one)
}

/// Makes a commit of user 0, who has made a file.
pub(crate) fn first_commit(alloc: Global, seen: &mut Seen) -> Result<Commit, Fault> {
    let (mut zero, _one) = two_clients(alloc)?;
    zero.commit(create(alloc, b"a", 2)?, seen)?;
    zero.commit_at(alloc, 1)
}
