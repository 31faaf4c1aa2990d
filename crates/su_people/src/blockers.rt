// What has to be taken back before an operation can be.
ghost use Rattle.std.specs.Prelude.{◌≢◌, IfOk};
ghost use Rattle.su_legal.specs.Legal.{history};
ghost use Rattle.su_why.specs.Own.{AreMadeBy, AreWithReasons};

use crate::outcomes::{Outcome, ending_of};
use std::alloc::Global;
use std::net::{Net, TcpListener, TcpStream};
use std::thread::Threads;
use su_bytes::User;
use su_kept_key::KeptKey;
use su_lms::KeyStore;
use su_people_session::{Items, Keyless, Session, Trouble, look, name_of};
use su_people_writing::undo_range;
use su_why::{OwnReasons, first_of_others, own_reasons_in};

/// Finds the operations that have to be taken back before that one can be, in an order in which they
/// can be, and that one behind them, where all are the user's own. It looks at the server for that, in
/// a session of its own, as it takes the items of all commits. Else who has to take one back is told,
/// or why they aren't known (the refusals of `su_why::own_reasons_in`), and so how the command ends, as
/// nothing is done then. The refusals of `look`.
pub(crate) fn own_blockers<T>(
    rt: &HostRuntime,
    host: &T,
    given: Option<&str>,
    number: u64,
) -> Result<Result<Vec<u64>, Outcome>, Trouble>
where
    T: Net<Listener = TcpListener, Stream = TcpStream> + Threads + Sync,
{
    let mut session = look(rt, host, given, Items::AtHand)?;
    let found = blockers_in(rt.alloc(), &session, number);
    session.helper.end();
    match found {
        Ok(all) => Ok(Ok(all)),
        Err(trouble) => {
            session.helper.tell(&trouble);
            Ok(Err(ending_of(&trouble)))
        }
    }
}

/// Finds them by what a session holds.
fn blockers_in<T>(
    alloc: Global,
    session: &Session<'_, T, Keyless>,
    number: u64,
) -> Result<Vec<u64>, Trouble>
    ensures reasons { let v = session.now.member.holding in IfOk result (λ all.
        AreWithReasons v.roster (history v.held) number all.items) }
    ensures own { let v = session.now.member.holding in IfOk result (λ all.
        AreMadeBy (history v.held) v.user all.items) }
{
    let view = session.member.view();
    match own_reasons_in(alloc, view.roster().copy()?, view, number)? {
        OwnReasons::Own(all) => Ok(all),
        OwnReasons::Another { number, author } => Err(only_another_can(session, number, author)?),
    }
}

/// Returns the trouble that an operation has to be taken back, which only another user can, who made
/// it. `NoMemory`.
fn only_another_can<T, K: KeyStore>(
    session: &Session<'_, T, K>,
    number: u64,
    author: User,
) -> Result<Trouble, Trouble> {
    let alloc = session.helper.rt.alloc();
    let name = name_of(alloc, session.helper.folder.team(), author)?;
    Ok(Trouble::told(format!(in alloc;
        "commit {number} has to be taken back for that, which only {name} can: nothing is done"
    )))
}

/// Takes operations back, one after another, where by the list that is held each is the user's own;
/// else who made one that isn't is told, and nothing is signed.
pub(crate) fn undo_own<'a, T>(
    session: &mut Session<'a, T, KeptKey<'a>>,
    undone: &[u64],
    numbers: &mut Vec<u64>,
) -> Result<(), Trouble>
where
    T: Net<Listener = TcpListener, Stream = TcpStream> + Threads + Sync,
    ensures signs { let v = session.old.member.holding in
        session.new.member.signed ≢ session.old.member.signed
        → AreMadeBy (history v.held) v.user undone.now }
{
    let view = session.member.view();
    if let Some((number, author)) = first_of_others(view.history(), view.user(), undone)? {
        return Err(only_another_can(session, number, author)?);
    }
    undo_each(session, undone, numbers)
}

/// Takes operations back, one after another.
fn undo_each<'a, T>(
    session: &mut Session<'a, T, KeptKey<'a>>,
    undone: &[u64],
    numbers: &mut Vec<u64>,
) -> Result<(), Trouble>
where
    T: Net<Listener = TcpListener, Stream = TcpStream> + Threads + Sync,
{
    for number in undone {
        undo_range(session, *number, *number, numbers)?;
    }
    Ok(())
}
