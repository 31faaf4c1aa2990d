// The users of a folder, by the files of their public keys.
ghost use Rattle.std.specs.Prelude.{length};
ghost use Rattle.su_arguments.specs.Ranges.{IsUserCount};

use su_audit::{KeyFault, read_keys};
use su_bytes::Roster;

/// Reads the roster of the users with the public keys in these files, 1 to 64 of them: group 0 has
/// all users, group 1 has user 0. Fails at the first file that can't be read or holds no key.
pub(crate) fn read_roster(rt: &HostRuntime, keys: &[String]) -> Result<Roster, KeyFault>
    requires { IsUserCount (length keys.now) }
{
    let keys = read_keys(rt, keys)?;
    match Roster::of_keys(rt.alloc(), keys.as_slice()) {
        Ok(roster) => Ok(roster),
        Err(_) => Err(KeyFault::NoMemory),
    }
}
