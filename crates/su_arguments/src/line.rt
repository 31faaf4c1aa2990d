// The command line.
ghost use Rattle.std.specs.Prelude.{◌≡◌, IfOk, IfSome};
ghost use Rattle.std.specs.Str.Parse.{digits_value};
ghost use Rattle.su_bytes.specs.Format.{format_number};
ghost use Rattle.su_lms.specs.ParameterSets.{height_of, width_of};
ghost use Rattle.su_arguments.specs.Line.{HasGoodNumbers};

use crate::help::{
    ABOUT, AUDIT_ABOUT, AUDIT_ANSWERS, CLIENT_ANSWERS, DESK_ABOUT, DESK_ANSWERS, KEYGEN_ABOUT,
    LONG_VERSION,
};
use crate::keys::{keys_of, needed_keys};
use crate::serving::{
    ClientArgs, ServeArgs, backup_command, backup_of, client_command, client_of, serve_command,
    serve_of,
};
use clap::{Arg, ArgMatches, Command};
use std::alloc::{AllocError, Global};
use su_bytes::Format;
use su_line::{Draft, LineFault, copy, needed, option, usage};
use su_lms::Params;
use su_people_line::{PeopleLine, people_line_of, with_people};

/// What a command line asks for.
#[derive(Debug, Drop)]
pub enum Line {
    /// Does what people ask for, with files and folders.
    People(PeopleLine),
    /// Reads a script for so many users, 1 to 64, whose changes are made in that format.
    Desk {
        users: u8,
        format: Format,
    },
    /// Makes a key of the entropy in a file, or of the system's where there is none, and keeps it in
    /// another file.
    Keygen {
        entropy: Option<String>,
        out: String,
        params: Params,
    },
    /// Audits the log in a file, of users with the public keys in these files, 1 to 64 of them.
    Audit {
        log: String,
        keys: Vec<String>,
    },
    /// Serves sessions on a port.
    Serve(ServeArgs),
    /// Runs a script for a user at a server.
    Client(ClientArgs),
    /// Copies into a folder what the server on a port, 1 to 65535, has stored, of users with the
    /// public keys in these files, 1 to 64 of them.
    Backup {
        port: u16,
        to: String,
        keys: Vec<String>,
    },
    /// A text for the standard output: help, or the version.
    Text(String),
}

/// Reads what these words ask for, the first of which is the program's own name. `Usage` where they
/// make no command line, `NoMemory` where memory is refused. The texts on the commands of a desk's
/// script and of a client's are shown in the help of `desk` and of `client`.
pub fn line_of<'a>(
    alloc: Global,
    desk_words: &str,
    client_words: &str,
    words: &'a [&'a str],
) -> Result<Line, LineFault>
    ensures { IfOk result HasGoodNumbers }
{
    let desk_help = format!(in alloc; "{desk_words}\n\n{DESK_ANSWERS}")?;
    let client_help = format!(in alloc; "{client_words}\n\n{CLIENT_ANSWERS}")?;
    let program = program(alloc, desk_help.as_str(), client_help.as_str())?;
    match program.try_get_matches_from(words) {
        Ok(matches) => asked(alloc, &matches),
        Err(error) => shown(alloc, &error),
    }
}

/// Reads what the words of a command line ask for that were matched.
fn asked(alloc: Global, matches: &ArgMatches<'_>) -> Result<Line, LineFault>
    ensures { IfOk result HasGoodNumbers }
{
    match matches.subcommand() {
        Some(("desk", values)) => desk(alloc, values),
        Some(("keygen", values)) => keygen(alloc, values),
        Some(("audit", values)) => audit(alloc, values),
        Some(("serve", values)) => serve_of(alloc, values),
        Some(("client", values)) => client_of(alloc, values),
        Some(("backup", values)) => backup_of(alloc, values),
        Some((name, values)) => people(alloc, name, values),
        None => Err(usage(alloc, "error: no such subcommand")),
    }
}

/// A subcommand for people.
fn people(alloc: Global, name: &str, values: &ArgMatches<'_>) -> Result<Line, LineFault>
    ensures { IfOk result HasGoodNumbers }
{
    let line = people_line_of(alloc, name, values)?;
    Ok(Line::People(line))
}

/// Builds the whole command line, with help texts on the scripts of a desk and of a client.
fn program<'a>(
    alloc: Global,
    desk_help: &'a str,
    client_help: &'a str,
) -> Result<Command<'a>, AllocError> {
    let program = Command::new(alloc, "sundr")
        .long_about(ABOUT)
        .version("0.1.0")
        .long_version(LONG_VERSION)
        .subcommand_required(true);
    with_people(alloc, Draft::of(program))
        .subcommand(desk_command(alloc, desk_help))
        .subcommand(keygen_command(alloc))
        .subcommand(audit_command(alloc))
        .subcommand(serve_command(alloc))
        .subcommand(client_command(alloc, client_help))
        .subcommand(backup_command(alloc))
        .finish()
}

fn desk_command<'a>(alloc: Global, help: &'a str) -> Result<Command<'a>, AllocError> {
    let help_of_users = "How many users, 1 to 64: group 0 has all, group 1 user 0";
    let users = option(alloc, "users", "N", help_of_users)
        .value_parser(clap::value_parser!(u8).range(1..65))
        .default_value("2");
    let help_of_format = "Of the changes: 4 has all of them";
    let format = option(alloc, "format", "1|2|3|4", help_of_format).default_value("4");
    let command = Command::new(alloc, "desk")
        .about("Runs a script from standard input")
        .long_about(DESK_ABOUT)
        .after_help(help);
    Draft::of(command)
        .arg(users)
        .arg(one_of(format, FORMATS.as_slice()))
        .finish()
}

fn keygen_command<'a>(alloc: Global) -> Result<Command<'a>, AllocError> {
    let command = Command::new(alloc, "keygen")
        .about("Makes a key, and prints its public key in hex")
        .long_about(KEYGEN_ABOUT);
    let entropy = "48 random bytes, read once; else the system's are taken";
    let out = "The key file; FILE.pub gets the public key";
    let height = "Of the tree: a key signs 32 or 1,024 times";
    let width = "Of a coefficient: 8 bits sign shorter and slower";
    Draft::of(command)
        .arg(option(alloc, "entropy", "FILE", entropy))
        .arg(needed(alloc, "out", "FILE", out))
        .arg(one_of(needed(alloc, "height", "5|10", height), HEIGHTS.as_slice()))
        .arg(one_of(needed(alloc, "width", "4|8", width), WIDTHS.as_slice()))
        .finish()
}

/// Has an option take one of these words, which its help tells.
fn one_of<'a>(option: Arg<'a>, words: &'a [&'a str]) -> Arg<'a> {
    option.value_parser(words).hide_possible_values(true)
}

fn audit_command<'a>(alloc: Global) -> Result<Command<'a>, AllocError> {
    let command = Command::new(alloc, "audit")
        .about("Audits a log of commits")
        .long_about(AUDIT_ABOUT)
        .after_help(AUDIT_ANSWERS);
    Draft::of(command)
        .arg(needed(alloc, "log", "FILE", "The log"))
        .arg(needed_keys(alloc))
        .finish()
}

const FORMATS: [&str; 4] = ["1", "2", "3", "4"];

const HEIGHTS: [&str; 2] = ["5", "10"];

const WIDTHS: [&str; 2] = ["4", "8"];

/// Takes help and the version as texts to be shown, and anything else as a fault.
fn shown(alloc: Global, error: &clap::Error) -> Result<Line, LineFault>
    ensures { IfOk result HasGoodNumbers }
{
    let text = format!(in alloc; "{error}")?;
    if !error.use_stderr() {
        return Ok(Line::Text(text));
    }
    match error.kind() {
        clap::error::ErrorKind::OutOfMemory => Err(LineFault::NoMemory),
        _ => Err(LineFault::Usage(text)),
    }
}

/// `desk [--users N] [--format 1|2|3|4]`
fn desk(alloc: Global, values: &ArgMatches<'_>) -> Result<Line, LineFault>
    ensures { IfOk result HasGoodNumbers }
{
    let format = format_of(values.get_str("format").unwrap_or(""));
    match (values.get_one::<u8>("users"), format) {
        (Some(users), Some(format)) if (1..=64).contains(&users) => {
            Ok(Line::Desk { users, format })
        }
        (_, None) => Err(usage(alloc, "error: the format is 1, 2, 3 or 4")),
        _ => Err(usage(alloc, "error: the number of users is 1 to 64")),
    }
}

/// Returns the format of that number, if there is one.
fn format_of(number: &str) -> Option<Format>
    ensures { IfSome result (λ format.
        digits_value 10 number.now ≡ format_number format) }
{
    match number {
        "1" => Some(Format::V1),
        "2" => Some(Format::V2),
        "3" => Some(Format::V3),
        "4" => Some(Format::V4),
        _ => None,
    }
}

/// `keygen [--entropy FILE] --out FILE --height 5|10 --width 4|8`
fn keygen(alloc: Global, values: &ArgMatches<'_>) -> Result<Line, LineFault>
    ensures { IfOk result HasGoodNumbers }
{
    let (Some(out), Some(height), Some(width)) = (
        values.get_str("out"),
        values.get_str("height"),
        values.get_str("width"),
    ) else {
        return Err(usage(alloc, "error: an option is missing"));
    };
    let Some(params) = params_of(height, width) else {
        return Err(usage(alloc, "error: the height is 5 or 10, the width 4 or 8"));
    };
    Ok(Line::Keygen {
        entropy: copy(alloc, values.get_str("entropy"))?,
        out: String::from_str(alloc, out)?,
        params,
    })
}

/// `audit --log FILE PUB..`
fn audit(alloc: Global, values: &ArgMatches<'_>) -> Result<Line, LineFault>
    ensures { IfOk result HasGoodNumbers }
{
    let Some(log) = values.get_str("log") else {
        return Err(usage(alloc, "error: an option is missing"));
    };
    let keys = keys_of(alloc, values)?;
    Ok(Line::Audit {
        log: String::from_str(alloc, log)?,
        keys,
    })
}

/// Returns the parameter set of a tree of that height and coefficients of that width, by the type
/// numbers of RFC 8554, Sections 4.1 and 5.1.
fn params_of(height: &str, width: &str) -> Option<Params>
    ensures height { IfSome result (λ p. digits_value 10 height.now ≡ height_of p.lms) }
    ensures width { IfSome result (λ p. digits_value 10 width.now ≡ width_of p.ots) }
{
    match (height, width) {
        ("5", "4") => Some(Params { lms: 5, ots: 3 }),
        ("5", "8") => Some(Params { lms: 5, ots: 4 }),
        ("10", "4") => Some(Params { lms: 6, ots: 3 }),
        ("10", "8") => Some(Params { lms: 6, ots: 4 }),
        _ => None,
    }
}
