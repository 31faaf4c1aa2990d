// Links to a server that may be anywhere.
ghost use Rattle.std.specs.Prelude.{IfOk};
ghost use Rattle.su_client.specs.Link.{IsFresh};

use std::alloc::Global;
use std::io;
use std::io::BufReader;
use std::net::{Net, TcpListener, TcpStream};
use std::time::Duration;
use su_client::Client;
use su_client_work::LinkSource;

/// A link to a server.
pub(crate) type Link = Client<BufReader<TcpStream>, TcpStream>;

/// Where a client's items and the parts of its tree come from.
pub(crate) type Source = LinkSource<BufReader<TcpStream>, TcpStream>;

/// After how many milliseconds a read or a write that waits is tried again.
const MILLISECONDS: u64 = 50;

/// Connects to the server at a host, by its name or its address, and a port. Small requests leave
/// at once.
pub(crate) fn connect<T: Net<Listener = TcpListener, Stream = TcpStream>>(
    alloc: Global,
    host: &T,
    name: &str,
    port: u16,
) -> io::Result<Link>
    ensures { IfOk result (λ link. IsFresh link.link) }
{
    let writer = TcpStream::connect(host, (name, port))?;
    writer.set_nodelay(true)?;
    let moment = Some(Duration::from_millis(MILLISECONDS));
    writer.set_read_timeout(moment)?;
    writer.set_write_timeout(moment)?;
    let reader = BufReader::new(alloc, writer.try_clone()?)?;
    Ok(Client::new(alloc, reader, writer))
}
