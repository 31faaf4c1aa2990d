// Why an operation isn't undone yet, where memory is refused, and where entries were left.
use crate::clients::{Client, Items};
use crate::commits::five_commits;
use crate::faults::{Fault, Mistake, check};
use crate::seen::{Seen, again};
use std::alloc::Global;
use su_bytes::{FileId, Refusal, User};
use su_why::{OwnReasons, entries_of, first_of_others, own_reasons_in, reasons_in};

/// Asks what has to be undone before an operation of five commits can be; and once the view has left
/// their entries: then that isn't told, and the view shows what it showed.
pub(crate) fn of_five_commits(alloc: Global, seen: &mut Seen) -> Result<(), Fault> {
    let mut one = five_commits(alloc, seen)?;
    entries(alloc, &one, seen)?;
    reasons(alloc, &one, seen)?;
    own_reasons(alloc, &one, seen)?;
    others(&one)?;
    let before = one.reading(alloc)?;
    one.view.leave_entries();
    is_missing(alloc, &one, seen)?;
    check(
        one.reading(alloc)?.as_slice() == before.as_slice(),
        Mistake::Changed,
    )
}

// Five entries, of which the first three are user 0's.
fn entries(alloc: Global, one: &Client<Items>, seen: &mut Seen) -> Result<(), Fault> {
    // names the types for the prover (docs/ARCHITECTURE.md, "Forms the kit wants")
    let _none: (Option<FileId>, Option<Refusal>) = (None, None);
    let head = one.view.head();
    let entries = again!(seen, one.view.head() == head, entries_of(alloc, &one.view))?;
    let [first, second, third, fourth, fifth] = entries.as_slice() else {
        return Err(Fault::Wrong(Mistake::Reasons));
    };
    let zero = User::FIRST;
    check(
        first.author == zero && second.author == zero && third.author == zero,
        Mistake::Reasons,
    )?;
    let one = User::new(1)?;
    check(
        fourth.author == one && fifth.author == one,
        Mistake::Reasons,
    )
}

// What has to be undone before that operation.
fn reasons_of(alloc: Global, one: &Client<Items>, number: u64) -> Result<Vec<u64>, Refusal> {
    reasons_in(alloc, one.view.roster().copy()?, &one.view, number)
}

// The same, and whether it is user 1's own.
fn own_reasons_of(alloc: Global, one: &Client<Items>, number: u64) -> Result<OwnReasons, Refusal> {
    own_reasons_in(alloc, one.view.roster().copy()?, &one.view, number)
}

// Nothing stands in the way of the third; behind the fourth the fifth has read what it wrote, and
// behind the first all others.
fn reasons(alloc: Global, one: &Client<Items>, seen: &mut Seen) -> Result<(), Fault> {
    let head = one.view.head();
    for (number, numbers) in [
        (3, [].as_slice()),
        (4, [5].as_slice()),
        (1, [5, 4, 3, 2].as_slice()),
    ] {
        let reasons = again!(
            seen,
            one.view.head() == head,
            reasons_of(alloc, one, number)
        )?;
        check(reasons.as_slice() == numbers, Mistake::Reasons)?;
    }
    Ok(())
}

// User 1 alone can undo the fourth, and not the first: the third is in the way, which is user 0's.
fn own_reasons(alloc: Global, one: &Client<Items>, seen: &mut Seen) -> Result<(), Fault> {
    let head = one.view.head();
    let own = again!(seen, one.view.head() == head, own_reasons_of(alloc, one, 4))?;
    let OwnReasons::Own(numbers) = own else {
        return Err(Fault::Wrong(Mistake::Reasons));
    };
    check(numbers.as_slice() == [5, 4].as_slice(), Mistake::Reasons)?;
    let own = again!(seen, one.view.head() == head, own_reasons_of(alloc, one, 1))?;
    let OwnReasons::Another { number, author } = own else {
        return Err(Fault::Wrong(Mistake::Reasons));
    };
    check(number == 3 && author == User::FIRST, Mistake::Reasons)
}

// Which of some operations isn't user 1's; there is no sixth.
fn others(one: &Client<Items>) -> Result<(), Fault> {
    // names the types for the prover (docs/ARCHITECTURE.md, "Forms the kit wants")
    let _none: (Option<FileId>, Option<Refusal>) = (None, None);
    let (entries, user) = (one.view.history(), one.view.user());
    let own = first_of_others(entries, user, &[5, 4])?;
    check(own.is_none(), Mistake::Reasons)?;
    let other = first_of_others(entries, user, &[5, 3, 2])?;
    check(other == Some((3, User::FIRST)), Mistake::Reasons)?;
    let none = first_of_others(entries, user, &[5, 6]);
    check(
        none.err() == Some(Refusal::NoOperation(6)),
        Mistake::Reasons,
    )
}

// An item of the list is missing, also once more.
fn is_missing(alloc: Global, one: &Client<Items>, seen: &mut Seen) -> Result<(), Fault> {
    let head = one.view.head();
    let missing = Some(Refusal::MissingBlock);
    let told = again!(seen, one.view.head() == head, entries_of(alloc, &one.view));
    check(told.err() == missing, Mistake::Reasons)?;
    let told = again!(seen, one.view.head() == head, reasons_of(alloc, one, 4));
    check(told.err() == missing, Mistake::Reasons)?;
    let told = again!(seen, one.view.head() == head, own_reasons_of(alloc, one, 4));
    check(told.err() == missing, Mistake::Reasons)
}
