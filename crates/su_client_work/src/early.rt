// What a client asks for ahead of its time.
ghost use Rattle.su_client.specs.Link.{GoesAhead};
ghost use Rattle.std.specs.Prelude.{◌≡◌};

use std::alloc::Global;
use std::io::{Read, Write};
use su_bytes::User;
use su_client::Client;
use su_message::Request;

/// The users' last commits by their numbers, as a client expects that the server will tell them with
/// the turn, and what of that was asked for ahead of its time. Nothing rests on it.
#[derive(Drop)]
pub(crate) struct Early {
    /// The numbers, by user.
    last: Vec<(User, u64)>,
    /// How many of those commits were asked for.
    count: usize,
    /// Whether the turn was asked for.
    pub is_asked: bool,
}

impl Early {
    /// Expects nothing.
    pub fn new(alloc: Global) -> Early {
        Early {
            last: Vec::new(alloc),
            count: 0,
            is_asked: false,
        }
    }

    /// Forgets what was asked for.
    pub fn forget(&mut self) {
        self.count = 0;
        self.is_asked = false;
    }

    /// Asks for the turn and for the last commits, as far as the requests leave.
    pub fn send_turn<R: Read + Drop, W: Write + Drop>(&mut self, client: &mut Client<R, W>)
        ensures { GoesAhead client.old.link client.new.link }
    {
        self.count = 0;
        self.is_asked = client.send_ahead(&Request::Grant);
        if self.is_asked {
            self.send_fetches(client);
        }
    }

    /// Asks for the last commits, as far as the requests leave.
    fn send_fetches<R: Read + Drop, W: Write + Drop>(&mut self, client: &mut Client<R, W>)
        ensures { GoesAhead client.old.link client.new.link }
    {
        for index in 0..self.last.len() {
            let (_, number) = self.last[index];
            if !client.send_ahead(&Request::Fetch(number)) {
                return;
            }
            self.count = index + 1;
        }
    }

    /// Returns how many commits of these, from the first on, were asked for.
    pub fn same_as(&self, last: &[(User, u64)]) -> usize {
        for index in 0..self.count {
            if self.last.get(index) != last.get(index) {
                return index;
            }
        }
        self.count
    }

    /// Expects these numbers the next time.
    pub fn note(&mut self, alloc: Global, last: &[(User, u64)]) {
        self.last = match Vec::from_slice(alloc, last) {
            Ok(last) => last,
            Err(_) => Vec::new(alloc),
        };
    }

    /// Expects that the user's last commit has this number.
    pub fn note_own(&mut self, user: User, number: u64) {
        for index in 0..self.last.len() {
            if self.last[index].0 == user {
                self.last[index].1 = number;
            }
        }
    }
}
