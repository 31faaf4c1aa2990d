// What a put would do.
use crate::changing::lacks_folder;
use crate::groups::{Contents, Placed};
use crate::tallies::Tally;
use std::alloc::Global;
use std::io::BufReader;
use std::net::TcpStream;
use su_bytes::{NEWEST_FORMAT, Refusal};
use su_client_work::Member;
use su_kept_key::KeptKey;
use su_op::largest_file;
use su_people_session::{Session, Trouble, is_of_load, named};
use su_person::Fault;
use su_pieces::put_commands;

/// Finds what a put of a folder or a file would take, by what is held, and counts it. `WrongKind`
/// of a folder where a file is; `TooBig` of more bytes than a file can have.
pub(crate) fn plan_placed<'a, T>(
    session: &mut Session<'a, T, KeptKey<'a>>,
    placed: &Placed,
    tally: &mut Tally,
) -> Result<(), Trouble> {
    let alloc = session.helper.rt.alloc();
    let path = placed.path.as_slice();
    match &placed.contents {
        Contents::Folder => {
            if lacks_folder(session, path)? {
                tally.plan(1);
            }
        }
        Contents::File { bytes } => {
            let planned = count_of(alloc, &mut session.member, path, bytes)?;
            tally.plan(planned);
            tally.count(bytes.len() as u64, 0 < planned);
            session.helper.progress.file_done(bytes.len() as u64);
        }
    }
    Ok(())
}

/// Returns how many commands put bytes to a path: none where they are there.
fn count_of<'a>(
    alloc: Global,
    member: &mut Member<BufReader<TcpStream>, TcpStream, KeptKey<'a>>,
    path: &[u8],
    bytes: &[u8],
) -> Result<u64, Trouble> {
    if (largest_file(NEWEST_FORMAT) as usize) < bytes.len() {
        return Err(Trouble::from(Refusal::TooBig));
    }
    let commands = match member.find_held(path) {
        Ok(file) => {
            let old = named(alloc, path, member.contents_held(file))?;
            put_commands(alloc, path, Some(old.as_slice()), bytes)?
        }
        Err(refusal) if is_of_load(&refusal) => {
            return Err(Trouble::at(path, alloc, Fault::from(refusal)));
        }
        Err(_) => put_commands(alloc, path, None, bytes)?,
    };
    Ok(commands.len() as u64)
}
