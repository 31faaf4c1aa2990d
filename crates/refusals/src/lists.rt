// Lists of commits that a server shows and a view refuses.
use crate::clients::{Client, Items, create, new_client, push_counted, signer, take, write};
use crate::faults::{Fault, Mistake, check};
use crate::seen::{Seen, viewed_again};
use std::alloc::Global;
use su_bytes::{FileId, Group, Principal, Refusal};
use su_version::Commit;
use su_view::ViewRefusal;

/// The view of user 0 holds three commits, of which the third is its own. A list of last commits in
/// which user 0's is the first is refused; so is another third commit, and its own third again.
pub(crate) fn that_do_not_follow(alloc: Global, seen: &mut Seen) -> Result<(), Fault> {
    let mut zero = new_client(alloc, 0)?;
    let mut one = new_client(alloc, 1)?;
    zero.commit(create(alloc, b"a", 2)?, seen)?;
    follow(alloc, &mut one, &zero, 1, seen)?;
    one.commit(take(alloc, 2)?, seen)?;
    follow(alloc, &mut zero, &one, 2, seen)?;
    zero.commit(create_below(alloc)?, seen)?;
    last_commits(alloc, &mut zero, &one, seen)?;
    one.commit(write(alloc, 2, b"hello")?, seen)?;
    other_third(alloc, &mut zero, &one, seen)
}

// A second file of the root directory.
fn create_below(alloc: Global) -> Result<su_op::Change, Refusal> {
    create(alloc, b"c", 4)
}

/// A client takes the commit of that number of another one.
pub(crate) fn follow(
    alloc: Global,
    client: &mut Client<Items>,
    of: &Client<Items>,
    number: u64,
    seen: &mut Seen,
) -> Result<(), Fault> {
    // names the types for the prover (docs/ARCHITECTURE.md, "Forms the kit wants")
    let _none: (Option<Principal>, Option<FileId>) = (None, None);
    client.get_items(alloc, of, &[number])?;
    let list = of.list(alloc, &[number])?;
    let taken = client.accept(alloc, &list, seen)?;
    check(taken == Ok(1), Mistake::List)
}

fn last_commits(
    alloc: Global,
    zero: &mut Client<Items>,
    one: &Client<Items>,
    seen: &mut Seen,
) -> Result<(), Fault> {
    let second = one.commit_at(alloc, 2)?;
    let behind = vec![in alloc; zero.commit_at(alloc, 1)?, second]?;
    let answer = shown(alloc, zero, &behind, seen)?;
    check(answer == Err(ViewRefusal::OwnMissing), Mistake::List)?;
    let second = one.commit_at(alloc, 2)?;
    let right = vec![in alloc; zero.commit_at(alloc, 3)?, second]?;
    let answer = shown(alloc, zero, &right, seen)?;
    check(answer == Ok(()), Mistake::List)
}

// What a view says of a list of last commits, behind which it reads as before.
fn shown(
    alloc: Global,
    client: &mut Client<Items>,
    list: &[Commit],
    seen: &mut Seen,
) -> Result<Result<(), ViewRefusal>, Fault> {
    let before = client.reading(alloc)?;
    let head = client.view.head();
    let answer = viewed_again!(
        seen,
        client.view.head() == head,
        client.view.check_list(list)
    );
    check(
        client.reading(alloc)?.as_slice() == before.as_slice(),
        Mistake::Changed,
    )?;
    Ok(answer)
}

fn other_third(
    alloc: Global,
    zero: &mut Client<Items>,
    one: &Client<Items>,
    seen: &mut Seen,
) -> Result<(), Fault> {
    zero.get_items(alloc, one, &[3])?;
    let (own, other) = (zero.list(alloc, &[3])?, one.list(alloc, &[3])?);
    let third = ViewRefusal::Plain(Refusal::WrongPrev(3));
    is_refused(alloc, zero, &other, third, seen)?;
    let third = ViewRefusal::Plain(Refusal::WrongPrev(3));
    is_refused(alloc, zero, &own, third, seen)
}

// A list is refused so, and the view reads as before.
fn is_refused(
    alloc: Global,
    client: &mut Client<Items>,
    list: &[u8],
    refusal: ViewRefusal,
    seen: &mut Seen,
) -> Result<(), Fault> {
    let before = client.reading(alloc)?;
    let answer = client.accept(alloc, list, seen)?;
    check(answer == Err(refusal), Mistake::List)?;
    check(
        client.reading(alloc)?.as_slice() == before.as_slice(),
        Mistake::Changed,
    )
}

/// A commit with a wrong i-handle of group 0 and a right one of its author is refused; then the right
/// commit is taken.
pub(crate) fn with_a_wrong_handle(alloc: Global, seen: &mut Seen) -> Result<(), Fault> {
    let mut zero = new_client(alloc, 0)?;
    let mut one = new_client(alloc, 1)?;
    zero.commit(create(alloc, b"a", 2)?, seen)?;
    let wrong = wrong_handle(alloc, &zero)?;
    one.get_items(alloc, &zero, &[1])?;
    let group = ViewRefusal::WrongHandle(Principal::Group(Group::FIRST));
    is_refused(alloc, &mut one, &wrong, group, seen)?;
    follow(alloc, &mut one, &zero, 1, seen)
}

// A list of the first commit with another handle of group 0, signed by its author.
fn wrong_handle(alloc: Global, author: &Client<Items>) -> Result<Vec<u8>, Fault> {
    // names the types for the prover (docs/ARCHITECTURE.md, "Forms the kit wants")
    let _none: (Option<FileId>, Option<Refusal>) = (None, None);
    let commit = author.commit_at(alloc, 1)?;
    let mut bytes = commit.version().encode(alloc)?;
    // behind the first four, the author, three digests, the count of groups and the group
    match bytes.as_mut_slice().get_mut(103) {
        Some(byte) => *byte ^= 1,
        None => return Err(Fault::Wrong(Mistake::Commit)),
    }
    let signature = signer(alloc, 0)?.sign(&bytes)?;
    push_counted(&mut bytes, &signature)?;
    let mut list = Vec::new(alloc);
    push_counted(&mut list, &bytes)?;
    Ok(list)
}
