// A client at work for a person: one that only looks, or one that signs.
use crate::helpers::{Helper, LEAVES_AHEAD};
use crate::keyless::{Keyless, no_signer};
use crate::opening::{Items, MOST_GROWN, Opened, open};
use crate::troubles::Trouble;
use std::alloc::Global;
use std::io::{BufReader, Read, Write};
use std::net::{Net, TcpListener, TcpStream};
use std::thread::Threads;
use su_block::BlockSource;
use su_client_work::Member;
use su_folder::StateFolder;
use su_kept_key::{KeptKey, signer_of};
use su_keygen::next_key_path;
use su_lms::{KeyStore, PublicKey, Signer};
use su_person::Person;
use su_view::{View, ViewRefusal};

/// How many commits are taken at a time of those that came: their items have 4.5 MB at most.
const MOST_TAKEN: u64 = 64;

/// How often the turn is asked for that another has, a millisecond apart.
const TRIES: u32 = 10_000;

/// A client at work for a person, and what stands around it.
#[derive(Drop)]
pub struct Session<'a, T, K: KeyStore> {
    /// What stands around the client: its state folder, and how it connects.
    pub helper: Helper<'a, T>,
    /// The client, which holds the list and the tree.
    pub member: Member<BufReader<TcpStream>, TcpStream, K>,
}

impl<T, K: KeyStore + Drop> Session<'_, T, K> {
    /// Leaves the tree in the scratch once more than 16,777,216 bytes may have come into memory since
    /// it was left last: the items of the commits that came, and so many bytes more, which were read.
    /// What can't be left stays in memory.
    pub fn leave_tree(&mut self, read: u64) {
        self.helper.grown = self.helper.grown.saturating_add(read);
        if MOST_GROWN < self.helper.grown {
            self.helper.grown = 0;
            let _ = self.member.set_aside();
        }
    }

    /// Goes on with another key.
    fn replace_key(&mut self, signer: Signer<K>) {
        self.member.replace_key(signer);
    }

    /// Leaves the bytes of the commits, and the items of their changes, to the log of the state folder,
    /// where that has all of them: no memory holds them then.
    pub fn leave_entries(&mut self) {
        let (count, _) = self.member.view().head();
        if self.helper.has_kept(count) {
            self.member.leave_entries();
        }
    }
}

impl<T, K> Session<'_, T, K>
where
    T: Net<Listener = TcpListener, Stream = TcpStream> + Threads + Sync,
    K: KeyStore + Drop,
{
    /// Takes the commits that came, some at a time, and keeps them. No memory holds their items then,
    /// unless the command needs these.
    fn catch_up(&mut self, items: Items) -> Result<(), Trouble> {
        for _ in 0..u64::MAX {
            let has_more = self.take_some()?;
            if items == Items::Left {
                self.leave_entries();
            }
            self.leave_tree(0);
            if !has_more {
                break;
            }
        }
        Ok(())
    }

    /// Takes some of the commits that came, and keeps them; tells whether there may be more.
    fn take_some(&mut self) -> Result<bool, Trouble> {
        let (before, _) = self.member.view().head();
        let looked = self.member.look_some(&mut self.helper, MOST_TAKEN);
        let (after, _) = self.member.view().head();
        match looked {
            // (the server told of more, and gave none)
            Ok(true) if after == before => {
                let looked = self.member.look(&mut self.helper);
                self.keep_taken(looked.map(|()| false))
            }
            looked => self.keep_taken(looked),
        }
    }

    /// Keeps the commits that were taken, and answers what taking them did. `Partly` where they can't
    /// be kept.
    fn keep_taken(&mut self, looked: Result<bool, ViewRefusal>) -> Result<bool, Trouble> {
        let kept = self.helper.keep(self.member.view());
        match looked {
            Ok(_) if !kept => Err(Trouble::Partly),
            Ok(has_more) => Ok(has_more),
            Err(refusal) => Err(Trouble::shown(refusal)),
        }
    }
}

/// Begins a session that only looks, for which no key is needed, and takes the commits that came.
/// The state folder is in the directory that is given, else in the current one or upwards from it.
/// Refuses a state folder or a log that can't be used, a server that can't be reached, and what
/// that shows and may not; `Partly` where what came can't be kept, which was told; `NoMemory`.
pub fn look<'a, T>(
    rt: &'a HostRuntime,
    host: &'a T,
    given: Option<&str>,
    items: Items,
) -> Result<Session<'a, T, Keyless>, Trouble>
where
    T: Net<Listener = TcpListener, Stream = TcpStream> + Threads + Sync,
{
    let opened = open(rt, host, given, items)?;
    let signer = no_signer(rt.alloc())?;
    let mut session = session_of(rt, host, opened, signer);
    session.catch_up(items)?;
    Ok(session)
}

/// Begins a session that signs with the key that its user has by the log, and takes the commits
/// that came. Refuses what `look` refuses, and a key file that can't be used or has another key.
pub fn sign<'a, T>(
    rt: &'a HostRuntime,
    host: &'a T,
    given: Option<&str>,
) -> Result<Session<'a, T, KeptKey<'a>>, Trouble>
where
    T: Net<Listener = TcpListener, Stream = TcpStream> + Threads + Sync,
{
    let opened = open(rt, host, given, Items::Left)?;
    let session = signing_session(rt, host, opened)?;
    let next = next_signer(&session);
    with_key(session, next)
}

/// Makes the client that holds what an opened view does and signs with the key that its user has by
/// the log, and takes the commits that came. Refuses what `sign` refuses of these.
fn signing_session<'a, T>(
    rt: &'a HostRuntime,
    host: &'a T,
    opened: Opened<'a>,
) -> Result<Session<'a, T, KeptKey<'a>>, Trouble>
where
    T: Net<Listener = TcpListener, Stream = TcpStream> + Threads + Sync,
{
    let signer = signer_for(rt, host, &opened.folder, &opened.view)?;
    caught_up(session_of(rt, host, opened, signer))
}

/// Takes the commits that came.
fn caught_up<'a, T, K>(session: Session<'a, T, K>) -> Result<Session<'a, T, K>, Trouble>
where
    T: Net<Listener = TcpListener, Stream = TcpStream> + Threads + Sync,
    K: KeyStore + Drop,
{
    let mut session = session;
    session.catch_up(Items::Left)?;
    Ok(session)
}

/// Goes on with that key, if there is one.
fn with_key<'a, T, K>(
    session: Session<'a, T, K>,
    next: Result<Option<Signer<K>>, Trouble>,
) -> Result<Session<'a, T, K>, Trouble>
where
    K: KeyStore + Drop,
{
    let mut session = session;
    if let Some(signer) = next? {
        session.replace_key(signer);
    }
    Ok(session)
}

/// Makes the client that holds what an opened view does.
fn session_of<'a, T, K>(
    rt: &'a HostRuntime,
    host: &'a T,
    opened: Opened<'a>,
    signer: Signer<K>,
) -> Session<'a, T, K>
where
    T: Net<Listener = TcpListener, Stream = TcpStream> + Threads + Sync,
    K: KeyStore + Drop,
{
    let Opened {
        folder,
        view,
        grown,
    } = opened;
    let (kept, _) = view.head();
    Session {
        helper: Helper::new(rt, host, folder, kept, grown),
        member: Member::new(rt.alloc(), view, signer, TRIES),
    }
}

/// Makes the signer of the key that the user of a view has: the key file's that the state folder
/// names, or one that was made in the state folder.
fn signer_for<'a, T: Threads + Sync, S: BlockSource + Drop>(
    rt: &'a HostRuntime,
    host: &T,
    folder: &StateFolder<'a>,
    view: &View<S>,
) -> Result<Signer<KeptKey<'a>>, Trouble> {
    let alloc = rt.alloc();
    let present = view.key(view.user());
    let path = key_path_of(alloc, folder, view)?;
    let kept = KeptKey::open(rt, path.as_str(), LEAVES_AHEAD)?;
    let signer = signer_of(host, alloc, kept)?;
    match present {
        Some(present) if signer.public() != present => Err(Trouble::OtherKey {
            path,
            present: digits_of(alloc, &present)?,
        }),
        _ => Ok(signer),
    }
}

/// Returns the path of the key file of the key that the user of a view has: the one that the state
/// folder names, or one that was made in the state folder.
fn key_path_of<'a, S: BlockSource + Drop>(
    alloc: Global,
    folder: &StateFolder<'a>,
    view: &View<S>,
) -> Result<String, Trouble> {
    let user = view.user();
    match view.key(user) {
        Some(present) if view.roster().key(user) != Some(present.as_bytes()) => {
            made_path(alloc, folder, &present)
        }
        _ => Ok(String::from_str(alloc, folder.key_path())?),
    }
}

/// How many leaves a key has, and how many of these have not signed.
#[derive(Clone, Copy, Debug)]
pub struct Leaves {
    /// 32 or 1,024.
    pub all: u32,
    /// 0 to all of them.
    pub left: u32,
}

/// Returns how many leaves the key of a session's user has by its file, if that can be read: another
/// program may be using it.
pub fn leaves_of<'a, T>(session: &Session<'a, T, Keyless>) -> Option<Leaves> {
    let rt = session.helper.rt;
    let path = key_path_of(rt.alloc(), &session.helper.folder, session.member.view()).ok()?;
    let key = KeptKey::open(rt, path.as_str(), 1).ok()?;
    let all = key.file().params.leaf_count();
    let left = all.saturating_sub(key.file().next);
    Some(Leaves { all, left })
}

/// Returns the path of a key that was made in a state folder.
fn made_path(alloc: Global, folder: &StateFolder<'_>, key: &PublicKey) -> Result<String, Trouble> {
    let directory = folder.directory();
    let prefix = format!(in alloc; "{directory}/.sundr/key")?;
    let mut id = [0; 16];
    id.copy_from_slice(&key.as_bytes()[8..24]);
    Ok(next_key_path(alloc, prefix.as_str(), &id)?)
}

/// Returns the first digits of a public key's I and root, by which people tell keys apart.
fn digits_of(alloc: Global, key: &PublicKey) -> Result<String, Trouble> {
    Ok(hex::encode(alloc, &key.as_bytes()[8..24])?)
}

/// Makes the signer of the key that the user has by the commits that came, where that is another one
/// than the session's.
fn next_signer<'a, T>(
    session: &Session<'a, T, KeptKey<'a>>,
) -> Result<Option<Signer<KeptKey<'a>>>, Trouble>
where
    T: Net<Listener = TcpListener, Stream = TcpStream> + Threads + Sync,
{
    let Some(present) = session.member.present_key() else {
        return Ok(None);
    };
    if present == session.member.public_key() {
        return Ok(None);
    }
    let helper = &session.helper;
    let signer = signer_for(
        helper.rt,
        helper.host,
        &helper.folder,
        session.member.view(),
    )?;
    Ok(Some(signer))
}

/// Ends a session that signed: puts the next leaf back in the key file, and syncs the state
/// folder. What of it fails is told.
pub fn finish<'a, T>(session: &mut Session<'a, T, KeptKey<'a>>) {
    session.helper.progress.clear();
    let left = session.member.leaves_left();
    let key = session.member.store();
    tell_few(session.helper.rt, left, key.file().params.leaf_count());
    let rt = session.helper.rt;
    if let Some(reason) = key.fault() {
        let path = key.path();
        let _ = eprintln!(rt; "sundr: writing {path}: {reason}");
    } else if let Err(reason) = key.put_back() {
        let path = key.path();
        let _ = eprintln!(rt; "sundr: writing {path}: {reason}");
    }
    if let Err(fault) = session.helper.folder.sync() {
        let _ = eprintln!(rt; "sundr: {fault}");
    }
}

/// Tells that few leaves of a key are left, where it is less than one in eight.
fn tell_few(rt: &HostRuntime, left: u32, all: u32) {
    if left < all / 8 {
        let _ = eprintln!(rt;
            "sundr: {left} of the {all} leaves of your key are left: the client makes another key \
before the last one"
        );
    }
}
