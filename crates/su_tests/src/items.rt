// Items of changes.
use std::test::Fail;
use su_bytes::{FileId, Inum, Kind, Name, Refusal, User};
use su_change::{decode, encode};
use su_op::{Change, Create, Op};

// User 0's file 3 is made in the directory 2, with the name `f`.
const ITEM: [u8; 21] = [
    5, 1, 0, 0, 0, 0, 0, 2, 1, 0x66, 0, 0, 0, 0, 0, 3, 0, 0, 0, 3, 0,
];

#[test]
fn an_item_is_read(rt: HostRuntime) -> Result<(), Fail> {
    let alloc = rt.alloc();
    let create = Create {
        dir: FileId::User(User::FIRST, Inum::new(2)?),
        file: FileId::User(User::FIRST, Inum::new(3)?),
        body: Inum::new(3)?,
        kind: Kind::File,
        name: Name::new(alloc, b"f")?,
    };
    assert!(rt;
        encode(alloc, &Change::of(alloc, Op::Create(create)))?.as_slice() == ITEM.as_slice()
    );
    assert!(rt; encode(alloc, &decode(alloc, &ITEM)?)?.as_slice() == ITEM.as_slice());
    let short = ITEM.get(..20).ok_or("short")?;
    assert!(rt; matches!(decode(alloc, short), Err(Refusal::Malformed(_))));
    Ok(())
}
