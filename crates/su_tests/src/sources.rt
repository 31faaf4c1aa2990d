// What views do without the items of changes.
use crate::clients::{Client, new_client};
use crate::couriers::Mood;
use std::alloc::Global;
use std::process::Abort;
use std::test::Fail;
use su_bytes::Refusal;
use su_view::ViewRefusal;

#[test]
fn faults_of_a_source_are_told(rt: HostRuntime) -> Result<(), Fail> {
    let mut zero = new_client(rt.alloc(), 0)?;
    let mut one = new_client(rt.alloc(), 1)?;
    zero.create(rt.alloc(), b"a", 2)?;
    faults(&rt, rt.alloc(), &zero, &mut one)
}

fn faults(rt: &impl Abort, alloc: Global, zero: &Client, one: &mut Client) -> Result<(), Fail> {
    let list = zero.list(alloc, &[1])?;
    for (mood, refusal) in [
        (Mood::Honest, Refusal::MissingBlock),
        (Mood::Wrong, Refusal::WrongBlock),
        (Mood::Broken, Refusal::SourceFailed),
    ] {
        one.set_mood(mood);
        one.refuses(rt, alloc, &list, ViewRefusal::Plain(refusal))?;
    }
    one.set_mood(Mood::Honest);
    assert_eq!(rt; one.follow(alloc, zero, &[1])?, Ok(1));
    Ok(())
}

#[test]
fn an_undo_needs_no_old_item(rt: HostRuntime) -> Result<(), Fail> {
    let mut zero = new_client(rt.alloc(), 0)?;
    zero.create(rt.alloc(), b"a", 2)?;
    zero.write(rt.alloc(), 2, b"hello")?;
    zero.create(rt.alloc(), b"b", 3)?;
    zero.lose_items(rt.alloc());
    assert_eq!(rt; zero.undo(3)?, 4);
    assert!(rt; zero.live()?.as_slice() == [1, 2].as_slice());
    Ok(())
}
