// The subcommands for people, as clap reads them.
use crate::help::{
    CAT_ABOUT, COMPARE_ABOUT, DIFF_ABOUT, FOLDERS_ABOUT, GET_ABOUT, HISTORY_ABOUT, INIT_ABOUT,
    LINK_ABOUT, LIST_ABOUT, MOVE_ABOUT, PUT_ABOUT, REKEY_ABOUT, REMOVE_ABOUT, SHOW_ABOUT,
    STATUS_ABOUT, UNDO_ABOUT, VERIFY_ABOUT, WHERE_ABOUT,
};
use clap::{Arg, Command};
use std::alloc::{AllocError, Global};
use su_line::{Draft, flag, needed, option};

/// Adds the subcommands for people to the program's command line, in the order in which its help
/// lists them.
pub fn with_people<'a>(alloc: Global, program: Draft<'a>) -> Draft<'a> {
    program
        .subcommand(init_command(alloc))
        .subcommand(put_command(alloc))
        .subcommand(get_command(alloc))
        .subcommand(list_command(alloc))
        .subcommand(cat_command(alloc))
        .subcommand(folders_command(alloc))
        .subcommand(move_command(alloc))
        .subcommand(remove_command(alloc))
        .subcommand(link_command(alloc))
        .subcommand(history_command(alloc))
        .subcommand(show_command(alloc))
        .subcommand(diff_command(alloc))
        .subcommand(undo_command(alloc))
        .subcommand(status_command(alloc))
        .subcommand(compare_command(alloc))
        .subcommand(verify_command(alloc))
        .subcommand(rekey_command(alloc))
        .subcommand(where_command(alloc))
}

fn init_command<'a>(alloc: Global) -> Result<Command<'a>, AllocError> {
    let server = "Where the server listens, such as localhost:7000";
    begun(
        alloc,
        "init",
        "Makes a folder that works with a team's store",
        INIT_ABOUT,
    )
    .arg(word(alloc, "folder", "DIR", "The folder that is made").required(true))
    .arg(needed(alloc, "server", "HOST:PORT", server))
    .arg(needed(
        alloc,
        "team",
        "FILE",
        "The names and public keys of the team",
    ))
    .arg(needed(alloc, "user", "NAME", "Who of the team works here"))
    .arg(needed(alloc, "key", "FILE", "The user's key file"))
    .finish()
}

fn put_command<'a>(alloc: Global) -> Result<Command<'a>, AllocError> {
    let locals = word(
        alloc,
        "locals",
        "LOCAL",
        "Files and folders of this machine",
    )
    .required(true)
    .num_args(1..);
    let over = "Also what another user has changed since it was got";
    let each = "Each file in a commit of its own";
    let dry_run = "Tells what would be written, and writes nothing";
    begun(
        alloc,
        "put",
        "Writes files and folders to the store",
        PUT_ABOUT,
    )
    .arg(locals)
    .arg(word(alloc, "path", "PATH", "Where they go in the store").required(true))
    .arg(recursive(alloc))
    .arg(flag(alloc, "over", over))
    .arg(flag(alloc, "each", each))
    .arg(flag(alloc, "dry-run", dry_run).short('n'))
    .arg(folder(alloc))
    .finish()
}

fn get_command<'a>(alloc: Global) -> Result<Command<'a>, AllocError> {
    let over = "Also over what was changed there since it was got";
    begun(
        alloc,
        "get",
        "Writes a file or a folder of the store to this machine",
        GET_ABOUT,
    )
    .arg(word(alloc, "path", "PATH", "A file or a folder of the store").required(true))
    .arg(word(alloc, "local", "LOCAL", "Where it goes on this machine").required(true))
    .arg(recursive(alloc))
    .arg(flag(alloc, "over", over))
    .arg(folder(alloc))
    .finish()
}

fn list_command<'a>(alloc: Global) -> Result<Command<'a>, AllocError> {
    let long = "Also sizes, last commits and who made them";
    begun(alloc, "ls", "Tells the names of a folder", LIST_ABOUT)
        .arg(word(alloc, "path", "PATH", "A folder, or one file; else /"))
        .arg(flag(alloc, "long", long).short('l'))
        .arg(folder(alloc))
        .arg(json(alloc))
        .finish()
}

fn cat_command<'a>(alloc: Global) -> Result<Command<'a>, AllocError> {
    begun(alloc, "cat", "Writes the bytes of a file", CAT_ABOUT)
        .arg(word(alloc, "path", "PATH", "The file").required(true))
        .arg(folder(alloc))
        .finish()
}

fn folders_command<'a>(alloc: Global) -> Result<Command<'a>, AllocError> {
    let parents = "Also those above that are lacking";
    begun(alloc, "mkdir", "Makes folders", FOLDERS_ABOUT)
        .arg(words(alloc, "paths", "PATH", "The folders"))
        .arg(flag(alloc, "parents", parents).short('p'))
        .arg(folder(alloc))
        .finish()
}

fn move_command<'a>(alloc: Global) -> Result<Command<'a>, AllocError> {
    begun(
        alloc,
        "mv",
        "Gives a file or a folder another name",
        MOVE_ABOUT,
    )
    .arg(word(alloc, "path", "OLD", "The path as it is").required(true))
    .arg(word(alloc, "other", "NEW", "The path as it shall be").required(true))
    .arg(folder(alloc))
    .finish()
}

fn remove_command<'a>(alloc: Global) -> Result<Command<'a>, AllocError> {
    begun(alloc, "rm", "Takes names away", REMOVE_ABOUT)
        .arg(words(alloc, "paths", "PATH", "What is taken away"))
        .arg(recursive(alloc))
        .arg(folder(alloc))
        .finish()
}

fn link_command<'a>(alloc: Global) -> Result<Command<'a>, AllocError> {
    begun(alloc, "ln", "Gives a file one name more", LINK_ABOUT)
        .arg(word(alloc, "path", "OLD", "The path that it has").required(true))
        .arg(word(alloc, "other", "NEW", "The path that it gets too").required(true))
        .arg(folder(alloc))
        .finish()
}

fn history_command<'a>(alloc: Global) -> Result<Command<'a>, AllocError> {
    let count = option(
        alloc,
        "count",
        "COUNT",
        "So many lines at most, from 1; else all",
    )
    .short('n')
    .value_parser(clap::value_parser!(u64).range(1..));
    begun(
        alloc,
        "history",
        "Tells the commits, the newest first",
        HISTORY_ABOUT,
    )
    .arg(word(alloc, "path", "PATH", "Of this path alone"))
    .arg(count)
    .arg(folder(alloc))
    .arg(json(alloc))
    .finish()
}

fn show_command<'a>(alloc: Global) -> Result<Command<'a>, AllocError> {
    begun(
        alloc,
        "show",
        "Tells all that is known of a commit",
        SHOW_ABOUT,
    )
    .arg(commit(alloc))
    .arg(folder(alloc))
    .arg(json(alloc))
    .finish()
}

fn diff_command<'a>(alloc: Global) -> Result<Command<'a>, AllocError> {
    begun(
        alloc,
        "diff",
        "Tells how a commit changed a file",
        DIFF_ABOUT,
    )
    .arg(commit(alloc))
    .arg(folder(alloc))
    .finish()
}

fn undo_command<'a>(alloc: Global) -> Result<Command<'a>, AllocError> {
    let numbers = "A commit, or the first and the last of several";
    let why = "Tells what blocks it, and undoes nothing";
    let with_blockers = "Also what blocks it, where all is one's own";
    begun(
        alloc,
        "undo",
        "Takes back operations of one's own",
        UNDO_ABOUT,
    )
    .arg(word(alloc, "numbers", "N[..M]", numbers).required(true))
    .arg(flag(alloc, "why", why))
    .arg(flag(alloc, "with-blockers", with_blockers))
    .arg(folder(alloc))
    .arg(flag(alloc, "json", "With --why: answers in JSON"))
    .finish()
}

fn status_command<'a>(alloc: Global) -> Result<Command<'a>, AllocError> {
    begun(alloc, "status", "Tells where things stand", STATUS_ABOUT)
        .arg(folder(alloc))
        .arg(json(alloc))
        .finish()
}

fn compare_command<'a>(alloc: Global) -> Result<Command<'a>, AllocError> {
    let number = word(
        alloc,
        "number",
        "NUMBER",
        "How many commits the other list has",
    )
    .required(true)
    .value_parser(clap::value_parser!(u64));
    let groups = "The first groups of its digest, or all eight";
    begun(
        alloc,
        "compare",
        "Compares another user's list with one's own",
        COMPARE_ABOUT,
    )
    .arg(number)
    .arg(words(alloc, "groups", "GROUPS", groups))
    .arg(folder(alloc))
    .finish()
}

fn verify_command<'a>(alloc: Global) -> Result<Command<'a>, AllocError> {
    begun(alloc, "verify", "Checks the whole log again", VERIFY_ABOUT)
        .arg(folder(alloc))
        .finish()
}

fn rekey_command<'a>(alloc: Global) -> Result<Command<'a>, AllocError> {
    begun(alloc, "rekey", "Goes on to a new key", REKEY_ABOUT)
        .arg(folder(alloc))
        .finish()
}

fn where_command<'a>(alloc: Global) -> Result<Command<'a>, AllocError> {
    let server = "Where it listens from now on";
    begun(
        alloc,
        "where",
        "Tells where the server is, or takes another place",
        WHERE_ABOUT,
    )
    .arg(word(alloc, "server", "HOST:PORT", server))
    .arg(folder(alloc))
    .finish()
}

/// Begins with a subcommand of this name, with a line of help and a text of it.
fn begun<'a>(alloc: Global, name: &'a str, about: &'a str, long_about: &'a str) -> Draft<'a> {
    let command = Command::new(alloc, name)
        .about(about)
        .long_about(long_about);
    Draft::of(command)
}

/// Builds a word that is no option, which may be left out.
fn word<'a>(alloc: Global, id: &'a str, value: &'a str, help: &'a str) -> Arg<'a> {
    Arg::new(alloc, id).value_name(value).help(help)
}

/// Builds words that are no options, of which there is one at least.
fn words<'a>(alloc: Global, id: &'a str, value: &'a str, help: &'a str) -> Arg<'a> {
    word(alloc, id, value, help).required(true).num_args(1..)
}

/// Builds the number of a commit.
fn commit<'a>(alloc: Global) -> Arg<'a> {
    word(alloc, "number", "N", "The number of the commit, from 1")
        .required(true)
        .value_parser(clap::value_parser!(u64).range(1..))
}

fn recursive<'a>(alloc: Global) -> Arg<'a> {
    flag(alloc, "recursive", "Folders too, with all that is in them").short('r')
}

fn folder<'a>(alloc: Global) -> Arg<'a> {
    let help = "The folder with .sundr; else the one here or above";
    option(alloc, "in", "DIR", help)
}

fn json<'a>(alloc: Global) -> Arg<'a> {
    flag(alloc, "json", "Answers in JSON")
}
