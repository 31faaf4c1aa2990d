// Users' clients, each call of a view or a member in a function of its own.
ghost use Rattle.std.specs.Prelude.{◌≡◌, IfOk};
ghost use Rattle.su_client.specs.Link.{IsFresh};

use std::alloc::Global;
use std::net::{Net, SocketAddr, TcpListener, TcpStream};
use std::thread::Threads;
use std::time::{Clock, Duration};
use std::{io, thread};
use su_bytes::{KEY_LENGTH, Refusal, Roster, User};
use su_client::Client;
use su_client_script::{Cause, Ending, Fault, Manner, Program, run_client};
use su_client_work::{LinkSource, Member, Surroundings, source_over, take_log};
use su_lms::{NoStore, Params, Signer};
use su_view::{View, ViewRefusal};

/// How often a client asks for the turn.
const TRIES: u32 = 1_000;

/// A link to a server.
type Link = Client<TcpStream, TcpStream>;

/// What a client looks at, over a link to a server.
type LinkedView = View<LinkSource<TcpStream, TcpStream>>;

/// A user's client, with the user's key, the address of the server, and the log that was saved last,
/// under any name.
pub(crate) struct Person {
    member: Member<TcpStream, TcpStream, NoStore>,
    at: SocketAddr,
    saved: Vec<u8>,
}

impl Drop for Person {
    // (By hand, so that a caller's proof needs no case for each part of a view.)
    fn drop(self) {
        let Person {
            member: _member,
            at: _at,
            saved: _saved,
        } = self;
    }
}

/// What runs the scripts of a person.
#[derive(Drop)]
struct Runner<'a, R> {
    rt: &'a R,
    alloc: Global,
    at: SocketAddr,
    saved: Vec<u8>,
}

impl<R> Runner<'_, R> {
    /// Returns the log that was saved last.
    fn into_saved(self) -> Vec<u8> {
        let Runner {
            rt: _rt,
            alloc: _alloc,
            at: _at,
            saved,
        } = self;
        saved
    }
}

impl<R> Surroundings<TcpStream, TcpStream> for Runner<'_, R>
where
    R: Net<Listener = TcpListener, Stream = TcpStream> + Clock + Threads + Sync,
{
    ghost may_connect = { λ _. Unit {0} };

    type Host = R;

    fn host(&self) -> &R {
        self.rt
    }

    fn pause(&mut self, time: Duration) {
        thread::sleep(self.rt, time);
    }

    fn connect(&mut self) -> io::Result<Link> {
        link_to(self.rt, self.alloc, self.at)
    }
}

impl<R> Program<TcpStream, TcpStream, NoStore> for Runner<'_, R>
where
    R: Net<Listener = TcpListener, Stream = TcpStream> + Clock + Threads + Sync,
{
    ghost saves = { λ _ _ log after. after.saved.items ≡ log };
    // No file has a key here.
    ghost opens = { λ _ _ _. ⊥ };

    fn save(&mut self, _file: &[u8], log: &[u8]) -> io::Result<()> {
        self.saved = Vec::from_slice(self.alloc, log)?;
        Ok(())
    }

    fn open_key<T: Threads + Sync>(
        &self,
        _host: &T,
        _file: &[u8],
    ) -> Result<Signer<NoStore>, Refusal> {
        Err(Refusal::KeyFileFault)
    }

    fn next_key(&mut self, _left: u32, _store: &NoStore) -> Option<Vec<u8>> {
        None
    }

    fn tell_rekey(&mut self, _file: &[u8], _rekeyed: &Result<u64, ViewRefusal>) {}

    fn explain(&mut self, _cause: &Cause) {}
}

/// Makes the key of a user.
fn signer(alloc: Global, user: u8) -> Result<Signer<NoStore>, Refusal> {
    Signer::generate(alloc, Params::new(5, 3)?, [user; 16], [7; 32], NoStore)
}

fn key(alloc: Global, user: u8) -> Result<[u8; KEY_LENGTH], Refusal> {
    Ok(*signer(alloc, user)?.public().as_bytes())
}

/// Makes the roster of the users 0 to 2, who are all in group 0.
pub(crate) fn roster(alloc: Global) -> Result<Roster, Refusal> {
    let keys = [key(alloc, 0)?, key(alloc, 1)?, key(alloc, 2)?];
    Roster::of_keys(alloc, &keys)
}

/// Makes a link to the server at an address.
fn link_to<R>(rt: &R, alloc: Global, at: SocketAddr) -> io::Result<Link>
where
    R: Net<Listener = TcpListener, Stream = TcpStream>,
    ensures { IfOk result (λ link. IsFresh link.link) }
{
    let writer = TcpStream::connect(rt, at)?;
    writer.set_nodelay(true)?;
    let reader = writer.try_clone()?;
    Ok(Client::new(alloc, reader, writer))
}

/// Links a new view of a user to the server at an address.
fn linked_view<R>(rt: &R, alloc: Global, user: u8, at: SocketAddr) -> Option<LinkedView>
where
    R: Net<Listener = TcpListener, Stream = TcpStream>,
{
    let source = source_over(alloc, link_to(rt, alloc, at).ok()?).ok()?;
    let whose = User::new(u64::from(user)).ok()?;
    View::new(alloc, roster(alloc).ok()?, whose, source).ok()
}

/// Makes the client of a user that has this view, linked to the server at an address.
fn person_of(alloc: Global, user: u8, at: SocketAddr, view: LinkedView) -> Option<Person> {
    let member = Member::new(alloc, view, signer(alloc, user).ok()?, TRIES);
    Some(Person {
        member,
        at,
        saved: Vec::new(alloc),
    })
}

/// Makes the client of a user who begins anew, linked to the server at an address.
pub(crate) fn new_person<R>(rt: &R, alloc: Global, user: u8, at: SocketAddr) -> Option<Person>
where
    R: Net<Listener = TcpListener, Stream = TcpStream>,
{
    person_of(alloc, user, at, linked_view(rt, alloc, user, at)?)
}

/// Makes the client of a user who begins from a saved log, and tells how many commits it has.
pub(crate) fn returning<R>(
    rt: &R,
    alloc: Global,
    user: u8,
    at: SocketAddr,
    log: &[u8],
) -> Option<(Person, u64)>
where
    R: Net<Listener = TcpListener, Stream = TcpStream> + Threads + Sync,
{
    let mut view = linked_view(rt, alloc, user, at)?;
    let count = take_log(rt, alloc, log, &mut view).ok()?;
    Some((person_of(alloc, user, at, view)?, count))
}

impl Person {
    /// Carries out a script, to its end or until the link fails, and returns what was printed.
    pub(crate) fn run<R>(&mut self, rt: &R, alloc: Global, script: &[u8]) -> Option<Vec<u8>>
    where
        R: Net<Listener = TcpListener, Stream = TcpStream> + Clock + Threads + Sync,
    {
        let mut printed = Vec::new(alloc);
        let mut runner = Runner {
            rt,
            alloc,
            at: self.at,
            saved: self.take_saved(alloc),
        };
        let manner = Manner {
            stops: false,
            batches: false,
            leaves: true,
        };
        let ending = run_client(
            &mut runner,
            alloc,
            script,
            &mut printed,
            &mut self.member,
            manner,
        );
        self.saved = runner.into_saved();
        match ending {
            Ending::Finished | Ending::Failed(Fault::Link) => Some(printed),
            _ => None,
        }
    }

    /// Takes the log that was saved last; none is left.
    pub(crate) fn take_saved(&mut self, alloc: Global) -> Vec<u8> {
        std::mem::replace(&mut self.saved, Vec::new(alloc))
    }
}
