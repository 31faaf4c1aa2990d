// A state folder is made.
use std::alloc::{AllocError, Global};
use std::fs;
use std::net::{Net, TcpListener, TcpStream};
use std::thread::Threads;
use su_folder::{NewFolder, Server, create};
use su_kept_key::KeptKey;
use su_local::read_whole;
use su_people_line::InitArgs;
use su_people_session::{Items, Trouble, look, name_of};
use su_team::{Team, grouped, read_team};

/// How many bytes the text of a team has at most.
const LONGEST_TEAM: u32 = 65_536;

/// Makes a state folder. Returns the text that tells the team's digest, which is to be compared
/// with the others'. Refuses a file that is no team's, a key file that can't be used, a name that
/// the team doesn't have, and a state folder that is there or can't be made.
pub fn new_folder(rt: &HostRuntime, args: &InitArgs) -> Result<String, Trouble> {
    let alloc = rt.alloc();
    let team = team_of(rt, args.team.as_str())?;
    let key = key_path(rt, args.key.as_str())?;
    check_user(alloc, &team, args.user.as_str())?;
    let server = Server {
        host: String::from_str(alloc, args.server.host.as_str())?,
        port: args.server.port,
    };
    create(
        rt,
        args.folder.as_str(),
        &NewFolder {
            team: &team,
            server: &server,
            user: args.user.as_bytes(),
            key: key.as_str(),
        },
    )?;
    let _ = eprintln!(rt; "sundr: {} is made", args.folder.as_str());
    team_text(alloc, &team)
}

/// Connects to the server of a new state folder, and takes the commits that are there. Returns the
/// text that tells how many these are. Refuses what `look` refuses: then the state folder stays, and
/// any other command connects anew.
pub fn first_look<T>(rt: &HostRuntime, host: &T, args: &InitArgs) -> Result<String, Trouble>
where
    T: Net<Listener = TcpListener, Stream = TcpStream> + Threads + Sync,
{
    let mut session = look(rt, host, Some(args.folder.as_str()), Items::Left)?;
    session.helper.end();
    let (count, _) = session.member.view().head();
    Ok(format!(in rt.alloc(); "{count} commits taken, all signed\n")?)
}

/// Reads the file of a team.
fn team_of(rt: &HostRuntime, path: &str) -> Result<Team, Trouble> {
    let alloc = rt.alloc();
    let text = match read_whole(rt, path, LONGEST_TEAM) {
        Ok(Some(text)) => text,
        Ok(None) => return Err(Trouble::told(format!(in alloc;
            "{path}: it is no team's: it is too long"
        ))),
        Err(reason) => return Err(Trouble::local(path, alloc, reason)),
    };
    match read_team(alloc, text.as_slice()) {
        Ok(team) => Ok(team),
        Err(fault) => Err(Trouble::told(format!(in alloc; "{path}: {fault}"))),
    }
}

/// Returns the absolute path of a key file, which has to be one.
fn key_path(rt: &HostRuntime, path: &str) -> Result<String, Trouble> {
    let alloc = rt.alloc();
    let _kept = KeptKey::open(rt, path, 1)?;
    match fs::canonicalize(rt, path) {
        Ok(path) => Ok(path.into_string()),
        Err(reason) => Err(Trouble::local(path, alloc, reason)),
    }
}

/// Checks that somebody of the team has that name.
fn check_user(alloc: Global, team: &Team, name: &str) -> Result<(), Trouble> {
    match team.user_of(name.as_bytes()) {
        Some(_) => Ok(()),
        None => Err(Trouble::told(format!(in alloc; "the team has nobody of the name {name}"))),
    }
}

/// Returns the text that tells who is in a team, and its digest.
fn team_text(alloc: Global, team: &Team) -> Result<String, Trouble> {
    let count = team.user_count();
    let roster = team.roster(alloc)?;
    let digest = grouped(alloc, &roster.digest())?;
    let names = names_text(alloc, team)?;
    Ok(format!(in alloc;
        "team of {count}:{names}\ndigest {digest} (compare it with the others)\n"
    )?)
}

/// Returns the names of a team's users, with a space before each.
fn names_text(alloc: Global, team: &Team) -> Result<String, AllocError> {
    let mut text = String::new(alloc);
    for number in 0..team.user_count() as u64 {
        let Ok(user) = su_bytes::User::new(number) else {
            return Ok(text);
        };
        let name = name_of(alloc, team, user)?;
        text.push(' ')?;
        text.push_str(name.as_str())?;
    }
    Ok(text)
}
