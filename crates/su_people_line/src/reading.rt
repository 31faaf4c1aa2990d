// What the words of a command line for people ask for.
ghost use Rattle.std.specs.Prelude.{◌≡◌, ◌≢◌, [], true, map, IfOk, IfSome};
ghost use Rattle.std.specs.String.{string_bytes};
ghost use Rattle.clap.specs.Matches.{found_of};
ghost use Rattle.su_people_line.specs.Deed.{HasGoodNumbers, IsGood, IsNumber, MayBeJson};
ghost use Rattle.su_people_line.specs.Said.{AreWords, IsNumberWord, IsWord, Says};
ghost use Rattle.su_people_line.specs.Server.{IsServer};

use crate::deeds::{CompareArgs, Deed, GetArgs, InitArgs, PeopleLine, PutArgs};
use crate::groups::front_of;
use crate::numbers::numbers_of;
use crate::servers::{Server, read_server};
use clap::ArgMatches;
use std::alloc::Global;
use su_line::{LineFault, copies, copy, usage};

const LACKING: &str = "error: a path, an option or a number is missing or wrong";

/// Reads what the words behind the name of a subcommand for people ask for. `Usage` where they ask
/// for nothing that can be done, as where there is no subcommand of that name; `NoMemory` where
/// memory is refused.
pub fn people_line_of(
    alloc: Global,
    name: &str,
    values: &ArgMatches<'_>,
) -> Result<PeopleLine, LineFault>
    ensures good { IfOk result IsGood }
    ensures said { IfOk result (λ line. Says (found_of values.now) line.deed) }
{
    let folder = copy(alloc, values.get_str("in"))?;
    let deed = deed_of(alloc, name, values)?;
    let json = may_be_json(&deed) && values.get_flag("json");
    Ok(PeopleLine { folder, json, deed })
}

/// Whether JSON may be asked for of a deed.
fn may_be_json(deed: &Deed) -> bool
    ensures { result ≡ true → MayBeJson deed.now }
{
    matches!(
        deed,
        Deed::List { .. }
            | Deed::History { .. }
            | Deed::Show { .. }
            | Deed::WhyBlocked { .. }
            | Deed::Status
    )
}

/// Reads what is to be done.
fn deed_of(alloc: Global, name: &str, values: &ArgMatches<'_>) -> Result<Deed, LineFault>
    ensures numbers { IfOk result HasGoodNumbers }
    ensures said { IfOk result (Says (found_of values.now)) }
{
    match name {
        "init" => init_of(alloc, values),
        "put" => put_of(alloc, values),
        "get" => get_of(alloc, values),
        "ls" => list_of(alloc, values),
        "cat" => cat_of(alloc, values),
        "mkdir" => folders_of(alloc, values),
        "mv" => move_of(alloc, values),
        "rm" => remove_of(alloc, values),
        "ln" => link_of(alloc, values),
        "history" => history_of(alloc, values),
        "show" => show_of(alloc, values),
        "diff" => diff_of(alloc, values),
        "undo" => undo_of(alloc, values),
        "status" => Ok(Deed::Status),
        "compare" => compare_of(alloc, values),
        "verify" => Ok(Deed::Verify),
        "rekey" => Ok(Deed::Rekey),
        "where" => where_of(alloc, values),
        _ => Err(usage(alloc, "error: no such subcommand")),
    }
}

/// `init DIR --server HOST:PORT --team FILE --user NAME --key FILE`
fn init_of(alloc: Global, values: &ArgMatches<'_>) -> Result<Deed, LineFault>
    ensures numbers { IfOk result HasGoodNumbers }
    ensures said { IfOk result (Says (found_of values.now)) }
{
    let (Some(folder), Some(server), Some(team), Some(user), Some(key)) = (
        values.get_str("folder"),
        values.get_str("server"),
        values.get_str("team"),
        values.get_str("user"),
        values.get_str("key"),
    ) else {
        return Err(usage(alloc, LACKING));
    };
    let folder = String::from_str(alloc, folder)?;
    let team = String::from_str(alloc, team)?;
    let user = String::from_str(alloc, user)?;
    let key = String::from_str(alloc, key)?;
    let server = server_of(alloc, server)?;
    Ok(Deed::Init(InitArgs {
        folder,
        server,
        team,
        user,
        key,
    }))
}

/// Reads where a server is.
fn server_of(alloc: Global, text: &str) -> Result<Server, LineFault>
    ensures { IfOk result IsServer }
{
    match read_server(alloc, text)? {
        Some(server) => Ok(server),
        None => Err(usage(
            alloc,
            "error: a server is HOST:PORT, such as localhost:7000",
        )),
    }
}

/// `put [-r] [--over] [--each] [-n] LOCAL.. PATH`
fn put_of(alloc: Global, values: &ArgMatches<'_>) -> Result<Deed, LineFault>
    ensures numbers { IfOk result HasGoodNumbers }
    ensures said { IfOk result (Says (found_of values.now)) }
{
    let path = text_of(alloc, values, "path")?;
    let locals = texts_of(alloc, values, "locals")?;
    Ok(Deed::Put(PutArgs {
        locals,
        path,
        recursive: values.get_flag("recursive"),
        over: values.get_flag("over"),
        each: values.get_flag("each"),
        dry_run: values.get_flag("dry-run"),
    }))
}

/// Copies a text that has to be there.
fn text_of(alloc: Global, values: &ArgMatches<'_>, id: &str) -> Result<String, LineFault>
    ensures { IfOk result (λ text. IsWord (found_of values.now) id.now (string_bytes text)) }
{
    match values.get_str(id) {
        Some(text) => Ok(String::from_str(alloc, text)?),
        None => Err(usage(alloc, LACKING)),
    }
}

/// Copies texts, of which one at least has to be there.
fn texts_of(alloc: Global, values: &ArgMatches<'_>, id: &str) -> Result<Vec<String>, LineFault>
    ensures some { IfOk result (λ texts. texts.items ≢ []) }
    ensures words { IfOk result (λ texts.
        AreWords (found_of values.now) id.now (map string_bytes texts.items)) }
{
    let texts = copies(alloc, values.get_strs(id).unwrap_or(&[]))?;
    if texts.is_empty() {
        return Err(usage(alloc, LACKING));
    }
    Ok(texts)
}

/// `get [-r] [--over] PATH LOCAL`
fn get_of(alloc: Global, values: &ArgMatches<'_>) -> Result<Deed, LineFault>
    ensures numbers { IfOk result HasGoodNumbers }
    ensures said { IfOk result (Says (found_of values.now)) }
{
    let path = text_of(alloc, values, "path")?;
    let local = text_of(alloc, values, "local")?;
    Ok(Deed::Get(GetArgs {
        path,
        local,
        recursive: values.get_flag("recursive"),
        over: values.get_flag("over"),
    }))
}

/// `ls [-l] [PATH]`
fn list_of(alloc: Global, values: &ArgMatches<'_>) -> Result<Deed, LineFault>
    ensures numbers { IfOk result HasGoodNumbers }
    ensures said { IfOk result (Says (found_of values.now)) }
{
    Ok(Deed::List {
        path: copy(alloc, values.get_str("path"))?,
        long: values.get_flag("long"),
    })
}

/// `cat PATH`
fn cat_of(alloc: Global, values: &ArgMatches<'_>) -> Result<Deed, LineFault>
    ensures numbers { IfOk result HasGoodNumbers }
    ensures said { IfOk result (Says (found_of values.now)) }
{
    let path = text_of(alloc, values, "path")?;
    Ok(Deed::Cat { path })
}

/// `mkdir [-p] PATH..`
fn folders_of(alloc: Global, values: &ArgMatches<'_>) -> Result<Deed, LineFault>
    ensures numbers { IfOk result HasGoodNumbers }
    ensures said { IfOk result (Says (found_of values.now)) }
{
    let paths = texts_of(alloc, values, "paths")?;
    Ok(Deed::MakeFolders {
        paths,
        parents: values.get_flag("parents"),
    })
}

/// `mv OLD NEW`
fn move_of(alloc: Global, values: &ArgMatches<'_>) -> Result<Deed, LineFault>
    ensures numbers { IfOk result HasGoodNumbers }
    ensures said { IfOk result (Says (found_of values.now)) }
{
    let path = text_of(alloc, values, "path")?;
    let other = text_of(alloc, values, "other")?;
    Ok(Deed::Move { path, other })
}

/// `rm [-r] PATH..`
fn remove_of(alloc: Global, values: &ArgMatches<'_>) -> Result<Deed, LineFault>
    ensures numbers { IfOk result HasGoodNumbers }
    ensures said { IfOk result (Says (found_of values.now)) }
{
    let paths = texts_of(alloc, values, "paths")?;
    Ok(Deed::Remove {
        paths,
        recursive: values.get_flag("recursive"),
    })
}

/// `ln OLD NEW`
fn link_of(alloc: Global, values: &ArgMatches<'_>) -> Result<Deed, LineFault>
    ensures numbers { IfOk result HasGoodNumbers }
    ensures said { IfOk result (Says (found_of values.now)) }
{
    let path = text_of(alloc, values, "path")?;
    let other = text_of(alloc, values, "other")?;
    Ok(Deed::Link { path, other })
}

/// `history [-n COUNT] [PATH]`
fn history_of(alloc: Global, values: &ArgMatches<'_>) -> Result<Deed, LineFault>
    ensures numbers { IfOk result HasGoodNumbers }
    ensures said { IfOk result (Says (found_of values.now)) }
{
    let path = copy(alloc, values.get_str("path"))?;
    Ok(Deed::History {
        count: number_of(values, "count"),
        path,
    })
}

/// `show N`
fn show_of(alloc: Global, values: &ArgMatches<'_>) -> Result<Deed, LineFault>
    ensures numbers { IfOk result HasGoodNumbers }
    ensures said { IfOk result (Says (found_of values.now)) }
{
    match number_of(values, "number") {
        Some(number) => Ok(Deed::Show { number }),
        None => Err(usage(alloc, LACKING)),
    }
}

/// `diff N`
fn diff_of(alloc: Global, values: &ArgMatches<'_>) -> Result<Deed, LineFault>
    ensures numbers { IfOk result HasGoodNumbers }
    ensures said { IfOk result (Says (found_of values.now)) }
{
    match number_of(values, "number") {
        Some(number) => Ok(Deed::Diff { number }),
        None => Err(usage(alloc, LACKING)),
    }
}

fn number_of(values: &ArgMatches<'_>, id: &str) -> Option<u64>
    ensures number { IfSome result IsNumber }
    ensures word { IfSome result (IsNumberWord (found_of values.now) id.now) }
{
    values.get_one::<u64>(id).filter(|number| 1 <= *number)
}

/// `undo N[..M]`, `undo --why N`, `undo --with-blockers N`
fn undo_of(alloc: Global, values: &ArgMatches<'_>) -> Result<Deed, LineFault>
    ensures numbers { IfOk result HasGoodNumbers }
    ensures said { IfOk result (Says (found_of values.now)) }
{
    let Some((first, last)) = numbers_of(values.get_str("numbers").unwrap_or("")) else {
        return Err(usage(
            alloc,
            "error: N is the number of a commit, from 1, and M of one that isn't before it",
        ));
    };
    let why = values.get_flag("why");
    let with_blockers = values.get_flag("with-blockers");
    if values.get_flag("json") && !why {
        return Err(usage(alloc, "error: --json goes with --why alone"));
    }
    match (why, with_blockers) {
        (false, false) => Ok(Deed::Undo { first, last }),
        (true, false) if first == last => Ok(Deed::WhyBlocked { number: first }),
        (false, true) if first == last => Ok(Deed::UndoWithBlockers { number: first }),
        (true, true) => Err(usage(alloc, "error: --why and --with-blockers don't go together")),
        _ => Err(usage(alloc, "error: --why and --with-blockers take one commit N")),
    }
}

/// `compare NUMBER GROUPS..`
fn compare_of(alloc: Global, values: &ArgMatches<'_>) -> Result<Deed, LineFault>
    ensures numbers { IfOk result HasGoodNumbers }
    ensures said { IfOk result (Says (found_of values.now)) }
{
    let Some(number) = values.get_one::<u64>("number") else {
        return Err(usage(alloc, LACKING));
    };
    match front_of(alloc, values.get_strs("groups").unwrap_or(&[]))? {
        Some(front) => Ok(Deed::Compare(CompareArgs { number, front })),
        None => Err(usage(
            alloc,
            "error: GROUPS are 1 to 8 groups of eight hex digits, as the other client shows them",
        )),
    }
}

/// `where [HOST:PORT]`
fn where_of(alloc: Global, values: &ArgMatches<'_>) -> Result<Deed, LineFault>
    ensures numbers { IfOk result HasGoodNumbers }
    ensures said { IfOk result (Says (found_of values.now)) }
{
    let server = match values.get_str("server") {
        Some(text) => Some(server_of(alloc, text)?),
        None => None,
    };
    Ok(Deed::Where { server })
}
