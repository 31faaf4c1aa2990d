// Operations are taken back.
use std::net::{Net, TcpListener, TcpStream};
use std::thread::Threads;
use su_bytes::Refusal;
use su_kept_key::KeptKey;
use su_people_session::{Session, Trouble};
use su_person::{Fault, undo};
use su_view::ViewRefusal;

/// Takes back the operations from the one of the last number to that of the first, and appends the
/// numbers of the commits. Where there are several, one that was taken back already is passed over,
/// so that the same command goes on where it was broken off. The refusals of `su_person::undo`,
/// which end it; what was committed before stays.
pub fn undo_range<'a, T>(
    session: &mut Session<'a, T, KeptKey<'a>>,
    first: u64,
    last: u64,
    numbers: &mut Vec<u64>,
) -> Result<(), Trouble>
where
    T: Net<Listener = TcpListener, Stream = TcpStream> + Threads + Sync,
{
    for number in (first..=last).rev() {
        let done = undo(&mut session.helper, &mut session.member, number, numbers);
        if let Err(fault) = done
            && (first == last || !is_undone(&fault))
        {
            return Err(Trouble::from(fault));
        }
    }
    Ok(())
}

/// Tells whether an operation isn't taken back as it was already.
fn is_undone(fault: &Fault) -> bool {
    matches!(
        fault,
        Fault::Refused(
            ViewRefusal::Change(Refusal::AlreadyUndone(_, _))
                | ViewRefusal::Plain(Refusal::AlreadyUndone(_, _))
        )
    )
}
