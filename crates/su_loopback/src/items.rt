// Items that threads share: two put them and a third looks, which go where there is no room for
// all, and which when a session ends.
use std::alloc::Global;
use std::process::Abort;
use std::sync::Wait;
use std::test::Fail;
use std::thread::{Threads, join};
use su_block::digest_of;
use su_bytes::{Digest, Refusal};
use su_shared_items::{Purpose, SessionItems, SharedBlocks};

#[test]
fn two_threads_put_and_another_gets(rt: HostRuntime) -> Result<(), Fail> {
    hand_over(&rt, rt.alloc())
}

// Two threads put an item each; then this one gets both.
fn hand_over<R: Threads + Wait + Abort + Sync>(rt: &R, alloc: Global) -> Result<(), Fail> {
    let blocks = SharedBlocks::new(alloc)?;
    let shared = &blocks;
    let (a, b) = join(
        rt,
        move || put(rt, alloc, shared, b"abc"),
        move || put(rt, alloc, shared, b"another"),
    );
    let abc = a.ok_or("not put")?;
    let another = b.ok_or("not put")?;
    assert!(rt; is_held(rt, alloc, &blocks, abc, b"abc"));
    assert!(rt; is_held(rt, alloc, &blocks, another, b"another"));
    assert!(rt; matches!(blocks.put(rt, alloc, b""), Err(Refusal::TooBig)));
    let unknown = blocks.get(rt, alloc, Digest::new([0; 32]));
    assert!(rt; matches!(unknown, Err(Refusal::MissingBlock)));
    Ok(())
}

fn put<R: Wait>(rt: &R, alloc: Global, blocks: &SharedBlocks, item: &[u8]) -> Option<Digest> {
    blocks.put(rt, alloc, item).ok()
}

// Puts an item for a session. (A refusal that goes through a `?` in a test is one that the borrow
// checker's plan can't be built for.)
fn lend<R: Wait>(
    rt: &R,
    alloc: Global,
    session: &mut SessionItems<'_>,
    item: &[u8],
) -> Option<Digest> {
    session.put(rt, alloc, item, Purpose::Commit).ok()
}

fn share<R: Wait>(rt: &R, alloc: Global, blocks: &SharedBlocks, item: &[u8]) -> bool {
    blocks.share(rt, alloc, item).is_ok()
}

fn is_held<R: Wait>(
    rt: &R,
    alloc: Global,
    blocks: &SharedBlocks,
    digest: Digest,
    item: &[u8],
) -> bool {
    match blocks.get(rt, alloc, digest) {
        Ok(held) => held.as_slice() == item,
        Err(_) => false,
    }
}

// Whether an item is there. It is the newest from then on.
fn has<R: Wait>(rt: &R, alloc: Global, blocks: &SharedBlocks, item: &[u8]) -> bool {
    is_held(rt, alloc, blocks, digest_of(item), item)
}

// Four items of three bytes, which lie in one shard.
const ABC: &[u8] = b"abc";

const SEA: &[u8] = b"sea";

const BAT: &[u8] = b"bat";

const LIP: &[u8] = b"lip";

// Room for two of them in each of the 16 shards: an item takes 256 bytes besides its own.
const TWO: usize = 16 * 2 * (3 + 256);

#[test]
fn the_one_asked_for_longest_ago_goes(rt: HostRuntime) -> Result<(), Fail> {
    let alloc = rt.alloc();
    let blocks = SharedBlocks::with_room(alloc, TWO)?;
    assert!(rt; share(&rt, alloc, &blocks, ABC));
    assert!(rt; share(&rt, alloc, &blocks, SEA));
    assert!(rt; has(&rt, alloc, &blocks, ABC));
    assert!(rt; share(&rt, alloc, &blocks, BAT));
    assert!(rt; !has(&rt, alloc, &blocks, SEA));
    assert!(rt; has(&rt, alloc, &blocks, ABC));
    assert!(rt; has(&rt, alloc, &blocks, BAT));
    assert!(rt; share(&rt, alloc, &blocks, ABC));
    assert!(rt; share(&rt, alloc, &blocks, LIP));
    assert!(rt; !has(&rt, alloc, &blocks, BAT));
    assert!(rt; has(&rt, alloc, &blocks, ABC));
    Ok(())
}

#[test]
fn an_item_that_is_kept_may_go_when_it_is_put_again(rt: HostRuntime) -> Result<(), Fail> {
    let alloc = rt.alloc();
    let blocks = SharedBlocks::with_room(alloc, TWO)?;
    let abc = put(&rt, alloc, &blocks, ABC).ok_or("not put")?;
    blocks.release(&rt, alloc, abc);
    assert!(rt; share(&rt, alloc, &blocks, SEA));
    assert!(rt; share(&rt, alloc, &blocks, BAT));
    assert!(rt; !has(&rt, alloc, &blocks, ABC));
    assert!(rt; put(&rt, alloc, &blocks, ABC).is_some());
    assert!(rt; has(&rt, alloc, &blocks, ABC));
    assert!(rt; share(&rt, alloc, &blocks, SEA));
    assert!(rt; share(&rt, alloc, &blocks, BAT));
    assert!(rt; !has(&rt, alloc, &blocks, ABC));
    Ok(())
}

#[test]
fn what_two_sessions_put_goes_with_the_later_one(rt: HostRuntime) -> Result<(), Fail> {
    let alloc = rt.alloc();
    let blocks = SharedBlocks::new(alloc)?;
    let mut one = SessionItems::new(alloc, &blocks);
    let mut other = SessionItems::new(alloc, &blocks);
    assert!(rt; lend(&rt, alloc, &mut one, ABC).is_some());
    assert!(rt; lend(&rt, alloc, &mut one, ABC).is_some());
    assert!(rt; lend(&rt, alloc, &mut one, SEA).is_some());
    assert!(rt; lend(&rt, alloc, &mut other, ABC).is_some());
    one.end(&rt);
    assert!(rt; has(&rt, alloc, &blocks, ABC));
    assert!(rt; !has(&rt, alloc, &blocks, SEA));
    assert!(rt; lend(&rt, alloc, &mut other, SEA).is_some());
    other.end(&rt);
    assert!(rt; !has(&rt, alloc, &blocks, ABC));
    assert!(rt; !has(&rt, alloc, &blocks, SEA));
    Ok(())
}

#[test]
fn what_a_commit_names_stays(rt: HostRuntime) -> Result<(), Fail> {
    let alloc = rt.alloc();
    let blocks = SharedBlocks::new(alloc)?;
    let mut one = SessionItems::new(alloc, &blocks);
    let mut other = SessionItems::new(alloc, &blocks);
    let abc = lend(&rt, alloc, &mut one, ABC).ok_or("not put")?;
    let sea = lend(&rt, alloc, &mut one, SEA).ok_or("not put")?;
    assert!(rt; other.pin_named(&rt, abc));
    assert!(rt; other.pin_named(&rt, sea));
    one.end(&rt);
    other.let_stay(&rt, abc);
    other.unpin_named(&rt, sea);
    assert!(rt; !other.pin_named(&rt, abc));
    assert!(rt; !other.pin_named(&rt, digest_of(BAT)));
    assert!(rt; lend(&rt, alloc, &mut other, ABC).is_some());
    other.end(&rt);
    assert!(rt; has(&rt, alloc, &blocks, ABC));
    assert!(rt; !has(&rt, alloc, &blocks, SEA));
    Ok(())
}

#[test]
fn what_stays_for_good_or_is_kept_is_not_pinned(rt: HostRuntime) -> Result<(), Fail> {
    let alloc = rt.alloc();
    let blocks = SharedBlocks::with_room(alloc, TWO)?;
    let mut session = SessionItems::new(alloc, &blocks);
    assert!(rt; lend(&rt, alloc, &mut session, ABC).is_some());
    assert!(rt; put(&rt, alloc, &blocks, ABC).is_some());
    let sea = lend(&rt, alloc, &mut session, SEA).ok_or("not put")?;
    blocks.release(&rt, alloc, sea);
    assert!(rt; lend(&rt, alloc, &mut session, SEA).is_some());
    session.end(&rt);
    assert!(rt; has(&rt, alloc, &blocks, ABC));
    assert!(rt; has(&rt, alloc, &blocks, SEA));
    assert!(rt; share(&rt, alloc, &blocks, BAT));
    assert!(rt; share(&rt, alloc, &blocks, LIP));
    assert!(rt; !has(&rt, alloc, &blocks, SEA));
    Ok(())
}
