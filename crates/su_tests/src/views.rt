// What views take and refuse.
use crate::clients::{Client, file, new_client, push_counted, signer};
use std::alloc::Global;
use std::process::Abort;
use std::test::Fail;
use su_bytes::{Group, Principal, Refusal};
use su_version::Commit;
use su_view::ViewRefusal;

// 34: what is shown doesn't follow the commit of that number.
fn wrong_prev(number: u64) -> ViewRefusal {
    ViewRefusal::Plain(Refusal::WrongPrev(number))
}

// User 0 makes a file, and both hold that commit.
fn begin(alloc: Global, zero: &mut Client, one: &mut Client) -> Result<(), Fail> {
    zero.create(alloc, b"a", 2)?;
    one.catch_up(alloc, zero, &[1])
}

#[test]
fn two_views_agree(rt: HostRuntime) -> Result<(), Fail> {
    let mut zero = new_client(rt.alloc(), 0)?;
    let mut one = new_client(rt.alloc(), 1)?;
    begin(rt.alloc(), &mut zero, &mut one)?;
    agree(&rt, rt.alloc(), &mut zero, &mut one)
}

fn agree(rt: &impl Abort, alloc: Global, zero: &mut Client, one: &mut Client) -> Result<(), Fail> {
    assert_eq!(rt; one.take(alloc, 2)?, 2);
    assert_eq!(rt; one.write(alloc, 2, b"hello")?, 3);
    assert_eq!(rt; zero.follow(alloc, one, &[2, 3])?, Ok(2));
    assert_eq!(rt; zero.head().0, 3);
    assert!(rt; zero.reading(alloc)?.as_slice() == one.reading(alloc)?.as_slice());
    assert_eq!(rt; zero.names()?.len(), 1);
    assert!(rt; zero.contents(file(2)?)?.as_slice() == b"hello".as_slice());
    Ok(())
}

#[test]
fn a_fork_stays_one(rt: HostRuntime) -> Result<(), Fail> {
    let mut zero = new_client(rt.alloc(), 0)?;
    let mut one = new_client(rt.alloc(), 1)?;
    let mut two = new_client(rt.alloc(), 2)?;
    begin(rt.alloc(), &mut zero, &mut one)?;
    two.catch_up(rt.alloc(), &zero, &[1])?;
    part(&rt, rt.alloc(), &mut zero, &mut two)?;
    go_on(&rt, rt.alloc(), &mut zero, &mut one, &two)
}

// Each makes a second commit that the other isn't shown in time.
fn part(rt: &impl Abort, alloc: Global, zero: &mut Client, two: &mut Client) -> Result<(), Fail> {
    zero.create(alloc, b"b", 3)?;
    two.take(alloc, 2)?;
    let (one_way, other_way) = (zero.list(alloc, &[2])?, two.list(alloc, &[2])?);
    zero.get_items(alloc, two, &[2])?;
    two.get_items(alloc, zero, &[2])?;
    zero.refuses(rt, alloc, &other_way, wrong_prev(2))?;
    two.refuses(rt, alloc, &one_way, wrong_prev(2))
}

// User 1 is shown user 2's second commit, and makes the third on it.
fn go_on(
    rt: &impl Abort,
    alloc: Global,
    zero: &mut Client,
    one: &mut Client,
    two: &Client,
) -> Result<(), Fail> {
    assert_eq!(rt; one.follow(alloc, two, &[2])?, Ok(1));
    assert_eq!(rt; one.take(alloc, 2)?, 3);
    zero.get_items(alloc, one, &[3])?;
    zero.refuses(rt, alloc, &one.list(alloc, &[3])?, wrong_prev(2))?;
    assert_eq!(rt; zero.create(alloc, b"c", 4)?, 3);
    one.get_items(alloc, zero, &[3])?;
    one.refuses(rt, alloc, &zero.list(alloc, &[3])?, wrong_prev(3))?;
    let shown = vec![in alloc; zero.commit_at(alloc, 3)?, one.commit_at(alloc, 3)?]?;
    assert_eq!(rt;
        zero.check_list(&shown),
        Err(ViewRefusal::Plain(Refusal::NotOrdered(0, 1)))
    );
    Ok(())
}

#[test]
fn commits_have_one_place(rt: HostRuntime) -> Result<(), Fail> {
    let mut zero = new_client(rt.alloc(), 0)?;
    let mut one = new_client(rt.alloc(), 1)?;
    begin(rt.alloc(), &mut zero, &mut one)?;
    zero.write(rt.alloc(), 2, b"hello")?;
    zero.create(rt.alloc(), b"b", 3)?;
    one.get_items(rt.alloc(), &zero, &[2, 3])?;
    disorder(&rt, rt.alloc(), &zero, &mut one)
}

fn disorder(rt: &impl Abort, alloc: Global, zero: &Client, one: &mut Client) -> Result<(), Fail> {
    // the second and the third exchanged; the second left out; the first again
    for numbers in [[3, 2].as_slice(), &[3], &[1]] {
        one.refuses(rt, alloc, &zero.list(alloc, numbers)?, wrong_prev(1))?;
    }
    let mut spoiled = zero.list(alloc, &[2])?;
    change_last(&mut spoiled);
    one.refuses(
        rt,
        alloc,
        &spoiled,
        ViewRefusal::Plain(Refusal::BadSignature),
    )?;
    assert_eq!(rt; one.accept(&zero.list(alloc, &[2, 3])?), Ok(2));
    assert_eq!(rt; one.head(), zero.head());
    Ok(())
}

// Changes one bit of the last byte.
fn change_last(bytes: &mut [u8]) {
    if let Some(last) = bytes.last_mut() {
        *last ^= 1;
    }
}

#[test]
fn nobody_goes_back(rt: HostRuntime) -> Result<(), Fail> {
    let mut zero = new_client(rt.alloc(), 0)?;
    let mut one = new_client(rt.alloc(), 1)?;
    begin(rt.alloc(), &mut zero, &mut one)?;
    one.take(rt.alloc(), 2)?;
    zero.catch_up(rt.alloc(), &one, &[2])?;
    zero.create(rt.alloc(), b"c", 4)?;
    last_commits(&rt, rt.alloc(), &zero, &one)?;
    one.write(rt.alloc(), 2, b"hello")?;
    one.write(rt.alloc(), 2, b"bye")?;
    other_third(&rt, rt.alloc(), &mut zero, &one)
}

// The view of user 0 is at 3, and 3 is its own.
fn last_commits(rt: &impl Abort, alloc: Global, zero: &Client, one: &Client) -> Result<(), Fail> {
    let behind = vec![in alloc; zero.commit_at(alloc, 1)?, one.commit_at(alloc, 2)?]?;
    assert_eq!(rt; zero.check_list(&behind), Err(ViewRefusal::OwnMissing));
    let right = vec![in alloc; zero.commit_at(alloc, 3)?, one.commit_at(alloc, 2)?]?;
    assert_eq!(rt; zero.check_list(&right), Ok(()));
    let spoiled = vec![in alloc; zero.commit_at(alloc, 3)?, spoiled(alloc, one)?]?;
    assert_eq!(rt;
        zero.check_list(&spoiled),
        Err(ViewRefusal::Plain(Refusal::BadSignature))
    );
    Ok(())
}

// The second commit, with one bit of its signature changed.
fn spoiled(alloc: Global, one: &Client) -> Result<Commit, Fail> {
    let (bytes, _item) = one.entry(2)?;
    let mut bytes = Vec::from_slice(alloc, bytes)?;
    change_last(&mut bytes);
    Ok(Commit::decode(alloc, &bytes)?)
}

// Another third commit, one that follows it, and its own third again.
fn other_third(
    rt: &impl Abort,
    alloc: Global,
    zero: &mut Client,
    one: &Client,
) -> Result<(), Fail> {
    zero.get_items(alloc, one, &[3, 4])?;
    let own = zero.list(alloc, &[3])?;
    zero.refuses(rt, alloc, &one.list(alloc, &[3])?, wrong_prev(3))?;
    zero.refuses(rt, alloc, &one.list(alloc, &[4])?, wrong_prev(3))?;
    zero.refuses(rt, alloc, &own, wrong_prev(3))
}

#[test]
fn a_wrong_handle_is_named(rt: HostRuntime) -> Result<(), Fail> {
    let mut zero = new_client(rt.alloc(), 0)?;
    let mut one = new_client(rt.alloc(), 1)?;
    zero.create(rt.alloc(), b"a", 2)?;
    let wrong = wrong_handle(rt.alloc(), &zero)?;
    one.get_items(rt.alloc(), &zero, &[1])?;
    let group = Principal::Group(Group::FIRST);
    one.refuses(&rt, rt.alloc(), &wrong, ViewRefusal::WrongHandle(group))?;
    assert_eq!(rt; one.follow(rt.alloc(), &zero, &[1])?, Ok(1));
    Ok(())
}

// A list of the first commit with another handle of group 0, signed by its author.
fn wrong_handle(alloc: Global, author: &Client) -> Result<Vec<u8>, Fail> {
    let commit = author.commit_at(alloc, 1)?;
    let mut bytes = commit.version().encode(alloc)?;
    // behind the first four, the author, three digests, the count of groups and the group
    let byte = bytes.as_mut_slice().get_mut(103).ok_or("short")?;
    *byte ^= 1;
    let signature = signer(alloc, 0)?.sign(&bytes)?;
    push_counted(&mut bytes, &signature)?;
    let mut list = Vec::new(alloc);
    push_counted(&mut list, &bytes)?;
    Ok(list)
}
