// The rows.
use crate::faults::Fault;
use crate::flaws::Flaw;
use crate::seen::Seen;
use crate::stores::Work;
use crate::{
    books, commits, inodes, items, lists, plans, seats, sessions, shared_books, signatures,
    sources, stores, told, views, whys,
};
use std::alloc::Global;
use std::sync::Wait;
use std::thread::Threads;
use std::time::Clock;
use su_bytes::{FileId, Refusal};

/// A row: calls with what they answer.
#[derive(Clone, Copy, Debug, PartialEq, Eq)]
pub(crate) enum Row {
    /// A key signs as often as it has leaves.
    Signatures,
    /// A server shows a user commits that don't follow.
    Lists,
    /// A commit names a wrong i-handle.
    Handles,
    /// Commands are planned, two users taking turns.
    Plans,
    /// Two seats of a book, each in a thread of its own.
    Seats,
    /// A key whose store fails once.
    FailingStore,
    /// A view whose source fails once.
    FailingSource,
    /// A session of ten messages of which a read fails.
    FailingReads,
    /// A session of ten messages of which a write fails.
    FailingWrites,
    /// What is made over a store that is whole.
    Store(Work),
    /// The same over a store of which one call has a flaw.
    FlawedStores(Flaw),
    /// Each call of a view.
    Views,
    /// Each call of a view whose source has a flaw once.
    FlawedViews(Flaw),
    /// Why operations of a view aren't undone yet.
    Whys,
    /// Two seats of a book take steps.
    Books,
    /// Two seats of a book that is shared take turns.
    SharedBooks,
    /// Two seats of a book that is shared take turns, and its keeper fails once.
    FailingKeeper,
    /// Items that threads share.
    Items,
    /// Inodes that are in memory.
    Inodes,
    /// A forest that is in memory.
    Forest,
    /// What is told of a forest that is left on its store.
    ToldOfForest,
    /// What a desk tells of changes in a row.
    ToldOfDesk,
    /// What is spelled in bytes.
    Spelled,
}

/// All rows, in the order in which they are carried out.
pub(crate) const ROWS: [Row; 33] = [
    Row::Signatures,
    Row::Lists,
    Row::Handles,
    Row::Plans,
    Row::Seats,
    Row::FailingStore,
    Row::FailingSource,
    Row::FailingReads,
    Row::FailingWrites,
    Row::Store(Work::Changes),
    Row::Store(Work::Reads),
    Row::Store(Work::Plans),
    Row::Store(Work::Why),
    Row::Store(Work::Operations),
    Row::Store(Work::Trees),
    Row::Store(Work::Parts),
    Row::FlawedStores(Flaw::Fails),
    Row::FlawedStores(Flaw::Lacks),
    Row::FlawedStores(Flaw::Lies),
    Row::Views,
    Row::FlawedViews(Flaw::Fails),
    Row::FlawedViews(Flaw::Lacks),
    Row::FlawedViews(Flaw::Lies),
    Row::Whys,
    Row::Books,
    Row::SharedBooks,
    Row::FailingKeeper,
    Row::Items,
    Row::Inodes,
    Row::Forest,
    Row::ToldOfForest,
    Row::ToldOfDesk,
    Row::Spelled,
];

impl Row {
    /// Returns its name.
    pub(crate) fn name(self) -> &'static str {
        match self {
            Row::Signatures => "as many signatures as leaves",
            Row::Lists => "lists that don't follow",
            Row::Handles => "a wrong i-handle",
            Row::Plans => "plans of two users",
            Row::Seats => "two seats of a book",
            Row::FailingStore => "each write of a key fails once",
            Row::FailingSource => "each call of a source fails once",
            Row::FailingReads => "each read of a session fails once",
            Row::FailingWrites => "each write of a session fails once",
            Row::Store(Work::Changes) => "changes of a desk that is left on its store",
            Row::Store(Work::Reads) => "questions to a desk that is left on its store",
            Row::Store(Work::Plans) => "plans on a desk that is left on its store",
            Row::Store(Work::Why) => "what stands in the way, on a desk that is left on its store",
            Row::Store(Work::Operations) => "operations on a forest that is left on its store",
            Row::Store(Work::Trees) => "trees that are left on a store",
            Row::Store(Work::Parts) => "parts of a forest that are left on a store",
            Row::FlawedStores(Flaw::Fails) => "each call of a store fails once",
            Row::FlawedStores(Flaw::Lacks) => "a store lacks each item once",
            Row::FlawedStores(Flaw::Lies) => "a store gives other bytes once for each item",
            Row::Views => "each call of a view",
            Row::FlawedViews(Flaw::Fails) => "each call of a view, whose source fails once",
            Row::FlawedViews(Flaw::Lacks) => "each call of a view, whose source lacks an item once",
            Row::FlawedViews(Flaw::Lies) =>
                "each call of a view, whose source gives another item once",
            Row::Whys => "why an operation isn't undone",
            Row::Books => "steps of a book",
            Row::SharedBooks => "turns at a shared book",
            Row::FailingKeeper => "turns at a shared book, each call of whose keeper fails once",
            Row::Items => "items that are shared",
            Row::Inodes => "inodes in memory",
            Row::Forest => "a forest in memory",
            Row::ToldOfForest => "what is told of a forest that is left on its store",
            Row::ToldOfDesk => "changes of a desk in a row, and a draft",
            Row::Spelled => "what is spelled",
        }
    }
}

/// Carries out a row, and once more from its beginning where memory was refused for the values with
/// which it begins.
pub(crate) fn carry_out<R: Threads + Wait + Clock + Sync>(
    rt: &R,
    alloc: Global,
    row: Row,
    seen: &mut Seen,
) -> Result<(), Fault> {
    // names the types for the prover (docs/ARCHITECTURE.md, "Forms the kit wants")
    let _none: (Option<FileId>, Option<Refusal>) = (None, None);
    match once(rt, alloc, row, seen) {
        Err(Fault::Refused(Refusal::NoMemory)) => {
            *seen = Seen::Values;
            once(rt, alloc, row, seen)
        }
        ended => ended,
    }
}

fn once<R: Threads + Wait + Clock + Sync>(
    rt: &R,
    alloc: Global,
    row: Row,
    seen: &mut Seen,
) -> Result<(), Fault> {
    // names the types for the prover (docs/ARCHITECTURE.md, "Forms the kit wants")
    let _none: (Option<FileId>, Option<Refusal>) = (None, None);
    match row {
        Row::Signatures => signatures::as_many_as_leaves(alloc, seen),
        Row::Lists => lists::that_do_not_follow(alloc, seen),
        Row::Handles => lists::with_a_wrong_handle(alloc, seen),
        Row::Plans => plans::of_two_users(alloc, seen),
        Row::Seats => seats::in_two_threads(rt, alloc, seen),
        Row::FailingStore => signatures::where_a_store_fails(alloc, seen),
        Row::FailingSource => sources::where_a_source_fails(alloc),
        Row::FailingReads => sessions::where_a_read_fails(alloc),
        Row::FailingWrites => sessions::where_a_write_fails(alloc),
        Row::Store(work) => stores::without_memory(alloc, work, seen),
        Row::FlawedStores(flaw) => stores::where_a_store_has(alloc, flaw),
        Row::Views => views::where_memory_is_refused(alloc, seen),
        Row::FlawedViews(flaw) => views::where_a_source_has(alloc, flaw),
        Row::Whys => whys::of_five_commits(alloc, seen),
        Row::Books => books::of_two_seats(alloc, seen),
        Row::SharedBooks => shared_books::where_memory_is_refused(rt, alloc, seen),
        Row::FailingKeeper => shared_books::where_a_keeper_fails(rt, alloc),
        Row::Items => items::put_and_shared(rt, alloc, seen),
        Row::Inodes => inodes::by_themselves(alloc, seen),
        Row::Forest => inodes::in_a_forest(alloc, seen),
        Row::ToldOfForest => told::of_a_forest(alloc, seen),
        Row::ToldOfDesk => told::of_a_desk(alloc, seen),
        Row::Spelled => told::of_bytes(alloc, &commits::first_commit(alloc, seen)?, seen),
    }
}
