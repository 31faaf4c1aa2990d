// Copying what a running server has stored into a folder.
ghost use Rattle.std.specs.Prelude.{◌≡◌, ◌↔◌, []};
ghost use Rattle.su_store_files.specs.Volumes.{WereSound};

use crate::counts::CountFile;
use crate::ends::Ends;
use crate::faults::tell_fault;
use crate::fills::fill;
use crate::guards::{Closing, Copying, Filling, Guard};
use crate::links::{Link, connect};
use crate::serving::keeper_of;
use crate::settings::Setting;
use crate::stores::{DiskFile, FULL, Folder, options};
use std::fmt::Display;
use std::marker::Brand;
use std::net::{Net, TcpListener, TcpStream};
use std::sync::Wait;
use su_backup::{BackupFault, Copy, copy_book};
use su_block::Checked;
use su_bytes::Roster;
use su_keeper::Keeper;
use su_places::StoreVolume;
use su_shared::BookFault;
use su_shared_items::SharedBlocks;
use su_store::FileFault;
use su_store_files::{ArchiveFiles, ArchiveName, Opened};
use su_store_keeper::Archive;
use su_tally::Tallied;
use su_vault::{Shelf, Vault, Volume};

/// What a backup made: how many records the copy has, and how many of them are new.
#[derive(Clone, Copy, Debug, PartialEq, Eq)]
pub struct Copied {
    pub records: u64,
    pub new: u64,
}

/// Copies what the server on a port of this machine has stored, for the users of a roster, into a
/// folder, or goes on with the copy there: each record is read through the server, checked, and kept
/// with the item of its change. Items that the copy lacks from before are asked for too. Returns what
/// the copy has then. `None` after a fault, which standard error tells: of the port, of the folder, of
/// a record of the copy, of a record or an item of the server, of memory; and where items are lacking
/// that the server hasn't either. Then the copy has what it had, and what came before the fault.
pub fn backup<T>(
    rt: &HostRuntime,
    host: &T,
    port: u16,
    folder: &str,
    roster: Roster,
) -> Option<Copied>
where
    T: Net<Listener = TcpListener, Stream = TcpStream> + Wait + Sync,
{
    // an item need not stay once it is kept
    let Ok(blocks) = SharedBlocks::with_room(rt.alloc(), 0) else {
        return refuse(rt, "out of memory");
    };
    let ends = Ends::new();
    let setting = Setting {
        rt,
        host,
        blocks: &blocks,
        ends: &ends,
    };
    match connect(rt.alloc(), host, port) {
        Ok(link) => copy_kept(&setting, link, folder, roster),
        Err(reason) => refuse(rt, format_args!("connecting to port {port}: {reason}")),
    }
}

/// Copies over this link into a folder. In the end all is copied from the logs into the files.
fn copy_kept<T: Wait + Sync>(
    setting: &Setting<'_, T>,
    link: Link,
    name: &str,
    roster: Roster,
) -> Option<Copied> {
    let Ok(options) = options(setting.rt) else {
        return refuse(setting.rt, "out of random bytes");
    };
    let folder = Folder {
        rt: setting.rt,
        name,
        options,
    };
    match folder.open() {
        Ok(files) => copy_named::<Brand, StoreVolume<DiskFile>, Folder<'_, '_>, T>(
            setting, link, roster, folder, folder, files,
        ),
        Err(fault) => refuse(setting.rt, fault),
    }
}

/// The same, over files that were found with what this name says.
fn copy_named<N, V, H, T>(
    setting: &Setting<'_, T>,
    link: Link,
    roster: Roster,
    folder: Folder<'_, '_>,
    shelf: H,
    files: Opened<V>,
) -> Option<Copied>
where
    N: ArchiveName,
    V: Volume<Fault = FileFault>,
    H: Shelf<V>,
    T: Wait,
    requires { N.found ↔ WereSound V.Volume files }
{
    let vault: ArchiveFiles<N, V, H> = ArchiveFiles::new(setting.rt.alloc(), files, shelf);
    copy_vault(setting, link, roster, folder, vault)
}

/// Copies into the vault of a folder, of which no record stands in the copy's book.
fn copy_vault<V, T>(
    setting: &Setting<'_, T>,
    link: Link,
    roster: Roster,
    folder: Folder<'_, '_>,
    vault: V,
) -> Option<Copied>
where
    V: Vault<Fault = FileFault>,
    T: Wait,
    requires { V.holds vault [] }
{
    let (rt, ends) = (setting.rt, setting.ends);
    let (count, noted) = match CountFile::of(&folder) {
        Ok(found) => found,
        Err(fault) => return refuse(rt, fault),
    };
    let archive: Archive<'_, V, T> = Archive::new(
        setting.host,
        rt.alloc(),
        vault,
        FULL,
        setting.blocks,
    );
    let tallied = Tallied::new(archive, count, noted);
    copy_over(setting, link, roster, Guard::new(tallied, folder, ends))
}

/// Copies with this keeper, which holds none yet, and asks for the items that its files lack.
// What is done with a keeper stands in functions over any one, since the prover shows again at each
// call that a type is a keeper (docs/ARCHITECTURE.md, "Forms the kit wants").
fn copy_over<K: Copying, T: Wait>(
    setting: &Setting<'_, T>,
    link: Link,
    roster: Roster,
    keeper: K,
) -> Option<Copied>
    requires { K.holds keeper [] }
{
    let (rt, ends) = (setting.rt, setting.ends);
    let mut client = Checked::new(link);
    match copy_book(
        setting.host,
        rt.alloc(),
        &mut client,
        roster,
        setting.blocks,
        keeper,
    ) {
        Ok(copy) => {
            let copied = tell_copy(rt, ends, &copy);
            let mut files = keeper_of(copy.closed).into_files();
            let copied = match copied {
                Some(copied) => complete(rt, &mut client, &mut files, copied),
                None => None,
            };
            if ends.has_failed() || !files.close() {
                return None;
            }
            copied
        }
        Err(fault) => {
            tell_book(rt, ends, &fault);
            None
        }
    }
}

/// Asks for the items that the copy lacks. Returns what the copy has, if it has all of them then;
/// if not, standard error tells why.
fn complete<F: Filling>(
    rt: &HostRuntime,
    client: &mut Checked<Link>,
    files: &mut F,
    copied: Copied,
) -> Option<Copied> {
    match fill(rt, client, files)? {
        0 => Some(copied),
        lacking => {
            let Copied { records, new } = copied;
            let fault = format_args!(
                "the copy has {records} records, {new} of them new, and lacks {lacking} items, which \
                 the server has not got: back up again from a server that has them"
            );
            refuse(rt, fault)
        }
    }
}

/// Tells on standard error why not all is copied, unless the copy's keeper told it. Returns what
/// the copy has otherwise.
fn tell_copy<K: Keeper>(rt: &HostRuntime, ends: &Ends, copy: &Copy<K>) -> Option<Copied> {
    let records = copy.closed.records;
    match &copy.new {
        Ok(new) => Some(Copied { records, new: *new }),
        Err(BackupFault::NotKept { number: _ }) if ends.has_failed() => None,
        Err(fault) => refuse(rt, fault),
    }
}

/// Tells on standard error why the copy isn't opened, unless its keeper told it.
fn tell_book(rt: &HostRuntime, ends: &Ends, fault: &BookFault) {
    if ends.has_failed() {
        return;
    }
    let _ = match fault {
        BookFault::Refused(refusal) => tell_fault(rt, format_args!("copying: {refusal}")),
        BookFault::Record(number, refusal) => {
            let fault = format_args!(
                "record {number} of the copy is refused, so it is not this roster's, or it is \
                 damaged: {refusal}"
            );
            tell_fault(rt, fault)
        }
    };
}

/// Tells a fault on standard error, in a line of its own.
fn refuse<F: Display + Drop>(rt: &HostRuntime, fault: F) -> Option<Copied> {
    tell_fault(rt, fault);
    None
}
