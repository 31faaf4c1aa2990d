// A server at a port of the loopback.
use crate::clients::roster;
use std::alloc::Global;
use std::io;
use std::net::{Ipv4Addr, Net, SocketAddr, TcpListener, TcpStream};
use std::sync::Wait;
use std::thread::Threads;
use std::time::Clock;
use su_keeper::Forgetful;
use su_seat_service::OpenGate;
use su_server::{BookFault, Connections, Crowd, Patience, Report, Stop, serve_book};
use su_shared_items::SharedBlocks;

/// How many sessions are served at once.
const WORKERS: usize = 2;

/// How many records a book has room for.
const CAPACITY: u64 = 16;

/// Listens at a port of the loopback that the system picks.
pub(crate) fn listen<R>(rt: &R) -> io::Result<TcpListener>
where
    R: Net<Listener = TcpListener, Stream = TcpStream>,
{
    let any = SocketAddr::from((Ipv4Addr::LOCALHOST, 0));
    TcpListener::bind(rt, any)
}

/// Serves so many connections of a listener, over a new book.
pub(crate) fn serve<R: Threads + Wait + Clock + Sync>(
    rt: &R,
    alloc: Global,
    listener: &TcpListener,
    sessions: u32,
) -> Result<Report<Forgetful>, BookFault> {
    let stop = Stop::new();
    let crowd = Crowd::new(WORKERS);
    let patience = Patience {
        turn_seconds: 60,
        idle_minutes: 10,
    };
    let came = Connections::new(alloc, listener, rt, &stop, &crowd, patience, sessions);
    let roster = roster(alloc)?;
    let blocks = SharedBlocks::new(alloc)?;
    let (keeper, gate) = (Forgetful, &OpenGate);
    serve_book(
        rt, alloc, came, WORKERS, CAPACITY, roster, &blocks, keeper, gate,
    )
}
