// What was found out of a commit before its turn changes no answer of a book.
use crate::books::new_commits;
use crate::clients::{key, roster};
use std::alloc::Global;
use std::process::Abort;
use std::test::Fail;
use su_book::{Book, BookReply, Event, Offer};
use su_bytes::{FileId, Refusal, Roster};
use su_lms::PublicKey;

// The roster of three users, of whom the users 1 and 2 have each other's keys.
fn exchanged(alloc: Global) -> Result<Roster, Refusal> {
    let keys = [key(alloc, 0)?, key(alloc, 2)?, key(alloc, 1)?];
    Roster::of_keys(alloc, &keys)
}

// What a book answers to a commit that was examined under the keys of a roster, by a seat that
// takes the turn for it.
fn stored(
    alloc: Global,
    book: &mut Book,
    bytes: &[u8],
    examined: &Roster,
) -> Result<BookReply, Refusal> {
    // names the type for the prover (docs/ARCHITECTURE.md, "Forms the kit wants")
    let _file: Option<FileId> = None;
    let _ = book.step(0, &mut Event::Grant)?;
    let mut offer = Offer::new(Vec::from_slice(alloc, bytes)?);
    if let Some(author) = offer.read(alloc) {
        let key = match examined.key(author) {
            Some(bytes) => PublicKey::parse(bytes).ok(),
            None => None,
        };
        offer.examine(alloc, key);
    }
    book.step(0, &mut Event::Commit(offer))
}

fn number(reply: Result<BookReply, Refusal>) -> Result<Option<u64>, Refusal> {
    match reply? {
        BookReply::Stored { number } => Ok(Some(number)),
        BookReply::Granted { count: _, last: _ } | BookReply::Given => Ok(None),
    }
}

#[test]
fn a_commit_that_was_examined(rt: HostRuntime) -> Result<(), Fail> {
    let alloc = rt.alloc();
    let commits = new_commits(alloc)?;
    let (good, others) = (roster(alloc)?, exchanged(alloc)?);
    let mut book = Book::new(alloc, 2, roster(alloc)?)?;
    refused(&rt, alloc, &mut book, &commits.first, &good)?;
    refused(&rt, alloc, &mut book, &commits.first, &others)?;
    let first = stored(alloc, &mut book, &commits.first, &others);
    assert_eq!(rt; number(first), Ok(Some(1)));
    let second = stored(alloc, &mut book, &commits.second, &good);
    assert_eq!(rt; number(second), Ok(Some(2)));
    Ok(())
}

// Bytes of no commit, and a commit whose signature was changed.
fn refused(
    rt: &impl Abort,
    alloc: Global,
    book: &mut Book,
    first: &[u8],
    examined: &Roster,
) -> Result<(), Fail> {
    let none = stored(alloc, book, &[], examined);
    assert_eq!(rt; number(none), Err(Refusal::Malformed(0)));
    let mut bytes = Vec::from_slice(alloc, first)?;
    let Some(last) = bytes.last_mut() else {
        return Err(Fail::new("no bytes"));
    };
    *last = *last ^ 1;
    let unsigned = stored(alloc, book, bytes.as_slice(), examined);
    assert_eq!(rt; number(unsigned), Err(Refusal::BadSignature));
    Ok(())
}
