// The port of a server, at which nobody is served before its records are taken up.
use std::io;
use std::io::ErrorKind;
use std::net::{Net, OpenListener, SocketAddr, TcpListener, TcpStream};
use std::sync::OnceLock;

/// A port that is opened later than it is handed on. Before that nobody can connect to it.
#[derive(Drop)]
pub(crate) struct Port {
    listener: OnceLock<TcpListener>,
}

impl Port {
    /// Makes one that isn't open.
    pub fn new() -> Port {
        Port {
            listener: OnceLock::new(),
        }
    }

    /// Listens at an address from now on. One that is open stays as it is.
    pub fn open<T: Net<Listener = TcpListener, Stream = TcpStream>>(
        &self,
        host: &T,
        address: SocketAddr,
    ) -> io::Result<()> {
        let listener = TcpListener::bind(host, address)?;
        let _ = self.listener.try_set(listener);
        Ok(())
    }

    /// Whether it is open.
    pub fn is_open(&self) -> bool {
        self.listener.get().is_some()
    }

    fn listener(&self) -> io::Result<&TcpListener> {
        match self.listener.get() {
            Some(listener) => Ok(listener),
            None => Err(io::Error::from(ErrorKind::NotConnected)),
        }
    }
}

impl OpenListener for Port {
    type Stream = TcpStream;

    fn accept(&self) -> io::Result<(TcpStream, SocketAddr)> {
        self.listener()?.accept()
    }

    fn set_nonblocking(&self, nonblocking: bool) -> io::Result<()> {
        self.listener()?.set_nonblocking(nonblocking)
    }
}
