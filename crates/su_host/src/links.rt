// Links to a server.
ghost use Rattle.std.specs.Prelude.{IfOk};
ghost use Rattle.su_client.specs.Link.{IsFresh};

use std::alloc::Global;
use std::io;
use std::io::BufReader;
use std::net::{Ipv4Addr, Net, TcpListener, TcpStream};
use std::time::Duration;
use su_client::Client;

/// How many milliseconds a read or a write waits before the client turns to the other. (It tries 600
/// times in a row, which makes 30 seconds in which nothing comes, or nothing is taken. A system may
/// wait some milliseconds longer each time.)
const MILLISECONDS: u64 = 50;

/// A link to a server.
pub type Link = Client<BufReader<TcpStream>, TcpStream>;

/// Connects to the server on that port of this machine. Small requests leave at once. The link fails
/// once the server hasn't answered, or taken a request, for 30 seconds.
pub fn connect<T: Net<Listener = TcpListener, Stream = TcpStream>>(
    alloc: Global,
    host: &T,
    port: u16,
) -> io::Result<Link>
    ensures { IfOk result (λ link. IsFresh link.link) }
{
    let writer = TcpStream::connect(host, (Ipv4Addr::LOCALHOST, port))?;
    writer.set_nodelay(true)?;
    let moment = Some(Duration::from_millis(MILLISECONDS));
    writer.set_read_timeout(moment)?;
    writer.set_write_timeout(moment)?;
    let reader = BufReader::new(alloc, writer.try_clone()?)?;
    Ok(Client::new(alloc, reader, writer))
}
