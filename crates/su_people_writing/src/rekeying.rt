// A client goes on to another key.
use std::net::{Net, TcpListener, TcpStream};
use std::thread::Threads;
use su_kept_key::KeptKey;
use su_people_session::{Session, Trouble};
use su_person::{Fault, Person};

/// Goes on to a new key of the same kind, which is made in the state folder, and appends the
/// number of the commit. The refusals of `Member::look`, before a key is made; `NextKey` where the
/// key can't be made, and `Key` where its file can't be used; the refusals of `Member::rekey`;
/// `Partly` where the commit can't be kept, which was told; `NoMemory`.
pub fn rekey<'a, T>(
    session: &mut Session<'a, T, KeptKey<'a>>,
    numbers: &mut Vec<u64>,
) -> Result<(), Trouble>
where
    T: Net<Listener = TcpListener, Stream = TcpStream> + Threads + Sync,
{
    // looked at first, so that what the server shows is refused as such, and no key is made then
    if let Err(refusal) = session.member.look(&mut session.helper) {
        return Err(Trouble::shown(refusal));
    }
    let params = session.member.store().file().params;
    let path = session.helper.made_path(params)?;
    let signer = session
        .helper
        .signer_at(session.helper.host, path.as_str())?;
    numbers.reserve(1)?;
    let number = match session.member.rekey(&mut session.helper, signer) {
        Ok(number) => number,
        Err(refusal) => return Err(Trouble::from(Fault::Refused(refusal))),
    };
    numbers.push_reserved(number);
    if session.helper.keep(session.member.view()) {
        return Ok(());
    }
    Err(Trouble::Partly)
}
