// The public keys of the users, which several commands have.
ghost use Rattle.std.specs.Prelude.{IfOk, length};
ghost use Rattle.su_arguments.specs.Ranges.{IsUserCount};

use clap::{Arg, ArgMatches};
use std::alloc::Global;
use su_line::{LineFault, copies, usage};

/// Builds the words after the options: the files of the users' public keys.
pub(crate) fn needed_keys<'a>(alloc: Global) -> Arg<'a> {
    Arg::new(alloc, "keys")
        .value_name("PUB")
        .required(true)
        .num_args(1..=64)
        .help("The users' public keys: of user 0, of user 1, and so on")
}

/// Reads the files of the users' public keys.
pub(crate) fn keys_of(alloc: Global, values: &ArgMatches<'_>) -> Result<Vec<String>, LineFault>
    ensures { IfOk result (λ keys. IsUserCount (length keys.items)) }
{
    let paths = values.get_strs("keys").unwrap_or(&[]);
    let keys = copies(alloc, paths)?;
    if keys.is_empty() || 64 < keys.len() {
        return Err(usage(alloc, "error: there are 1 to 64 public keys"));
    }
    Ok(keys)
}
