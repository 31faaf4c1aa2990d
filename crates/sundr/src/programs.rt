// The program around a client's script.
use crate::key_files::KeyFiles;
use crate::savers::save_log;
use crate::sentences::sentence_of;
use std::io::BufReader;
use std::net::{Net, TcpListener, TcpStream};
use std::thread::Threads;
use std::time::Duration;
use std::{io, thread};
use su_arguments::ClientArgs;
use su_bytes::Refusal;
use su_client_script::{Cause, Program};
use su_client_work::Surroundings;
use su_host::{Link, connect};
use su_kept_key::KeptKey;
use su_lms::Signer;
use su_view::ViewRefusal;

/// The program around a client's script: it makes links to the server on a port anew, saves logs to
/// files, opens and makes keys, and tells on standard error what refusals may come from.
#[derive(Drop)]
pub(crate) struct ClientProgram<'a, T> {
    rt: &'a HostRuntime,
    host: &'a T,
    port: u16,
    is_unlinked: bool,
    keys: KeyFiles<'a>,
}

impl<'a, T> ClientProgram<'a, T> {
    /// Makes the program of a client with these arguments.
    pub(crate) fn new(
        rt: &'a HostRuntime,
        host: &'a T,
        args: &'a ClientArgs,
    ) -> ClientProgram<'a, T> {
        ClientProgram {
            rt,
            host,
            port: args.port,
            is_unlinked: false,
            keys: KeyFiles::new(rt, args),
        }
    }
}

impl<T> Surroundings<BufReader<TcpStream>, TcpStream> for ClientProgram<'_, T>
where
    T: Net<Listener = TcpListener, Stream = TcpStream> + Threads + Sync,
{
    // Of what a connection brings no contract can speak.
    ghost may_connect = { λ _. Unit {0} };

    type Host = T;

    fn host(&self) -> &T {
        self.host
    }

    fn pause(&mut self, time: Duration) {
        thread::sleep(self.rt, time);
    }

    /// Connects, and tells so on standard error, or why it can't.
    fn connect(&mut self) -> io::Result<Link> {
        match connect(self.rt.alloc(), self.host, self.port) {
            Ok(link) => {
                let _ = eprintln!(self.rt;
                    "sundr: the session had ended, and the client connected anew"
                );
                Ok(link)
            }
            Err(reason) => {
                let _ = eprintln!(self.rt;
                    "sundr: the session had ended, and connecting anew failed: {reason}"
                );
                self.is_unlinked = true;
                Err(reason)
            }
        }
    }
}

impl<'a, T> Program<BufReader<TcpStream>, TcpStream, KeptKey<'a>> for ClientProgram<'a, T>
where
    T: Net<Listener = TcpListener, Stream = TcpStream> + Threads + Sync,
{
    // Of what a file holds no contract can speak.
    ghost saves = { λ _ _ _ _. Unit {0} };

    ghost opens = { λ _ _ _. Unit {0} };

    fn save(&mut self, file: &[u8], log: &[u8]) -> io::Result<()> {
        save_log(self.rt, file, log)
    }

    fn open_key<H: Threads + Sync>(
        &self,
        host: &H,
        file: &[u8],
    ) -> Result<Signer<KeptKey<'a>>, Refusal> {
        self.keys.open(host, file)
    }

    fn next_key(&mut self, left: u32, store: &KeptKey<'a>) -> Option<Vec<u8>> {
        self.keys.next(left, store.file().params)
    }

    fn tell_rekey(&mut self, file: &[u8], rekeyed: &Result<u64, ViewRefusal>) {
        self.keys.tell(file, rekeyed);
    }

    /// Tells a sentence on standard error, where the refusal has several everyday causes. Where no
    /// link could be made, nothing was asked, and that was told.
    fn explain(&mut self, cause: &Cause) {
        if self.is_unlinked && cause.refusal == ViewRefusal::Plain(Refusal::LinkFailed) {
            return;
        }
        if let Some(sentence) = sentence_of(cause) {
            let _ = eprintln!(self.rt; "sundr: {sentence}");
        }
    }
}
