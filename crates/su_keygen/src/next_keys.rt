// A user's next key, which a client makes while it works.
ghost use Rattle.std.specs.Prelude.{◌≡◌, IfOk, string_bytes};
ghost use Rattle.su_keygen.specs.NextKey.{next_key_name};

use crate::faults::KeygenFault;
use crate::keygen::{file_of, system_entropy};
use crate::pairs::{PRIVATE, folder_and_name, write_new};
use std::alloc::{AllocError, Global};
use std::fs::File;
use su_lms::Params;

/// Makes a key of the system's entropy, in a file of its own whose name begins with `prefix`, and
/// returns the file's path, once the disk has it. What stands there already is never replaced. Faults
/// in order: `Unread`; `NoName`; `Folder`; `Unwritten`. `NoMemory` can come at any time.
pub fn make_next_key(
    rt: &HostRuntime,
    prefix: &str,
    params: Params,
) -> Result<String, KeygenFault> {
    let alloc = rt.alloc();
    let entropy = system_entropy(rt)?;
    let path = next_key_path(alloc, prefix, &entropy.id)?;
    let Some((folder, _)) = folder_and_name(path.as_str()) else {
        return Err(KeygenFault::NoName { path });
    };
    let folder = match File::open(rt, folder) {
        Ok(folder) => folder,
        Err(reason) => return Err(KeygenFault::folder(alloc, path.as_str(), reason)),
    };
    write_new(rt, path.as_str(), &file_of(params, entropy), PRIVATE)?;
    match folder.sync_all() {
        Ok(()) => Ok(path),
        Err(reason) => Err(KeygenFault::unwritten(alloc, path.as_str(), reason)),
    }
}

/// Returns the path of the file that `make_next_key` makes for a key with this I, so that the file of
/// a public key is found: the prefix, `-`, and I in hex digits. Fails only where memory is refused.
pub fn next_key_path(alloc: Global, prefix: &str, id: &[u8; 16]) -> Result<String, AllocError>
    ensures { IfOk result (λ path. string_bytes path ≡ next_key_name prefix.now id.now) }
{
    let digits = hex::encode(alloc, id)?;
    format!(in alloc; "{prefix}-{digits}")
}
