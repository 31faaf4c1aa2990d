// Where a server is.
ghost use Rattle.std.specs.Prelude.{IfOk, IfSome};
ghost use Rattle.su_line.specs.Port.{IsPort};
ghost use Rattle.su_people_line.specs.Server.{IsServer};

use std::alloc::{AllocError, Global};

/// Where a server is: a name or an address, not empty, and a port, 1 to 65535. An address of IPv6
/// stands without its brackets.
#[derive(Debug, Drop)]
pub struct Server {
    pub host: String,
    pub port: u16,
}

/// Reads `HOST:PORT`, where an address of IPv6 stands in brackets; `None` where it is no such text.
pub fn read_server(alloc: Global, text: &str) -> Result<Option<Server>, AllocError>
    ensures { IfOk result (λ server. IfSome server IsServer) }
{
    let Some((host, port)) = parts_of(text) else {
        return Ok(None);
    };
    let Some(port) = port_of(port) else {
        return Ok(None);
    };
    if host.is_empty() {
        return Ok(None);
    }
    Ok(Some(Server {
        host: String::from_str(alloc, host)?,
        port,
    }))
}

/// Lends the host and the port of `HOST:PORT` or `[HOST]:PORT`.
fn parts_of(text: &str) -> Option<(&str, &str)> {
    match text.strip_prefix('[') {
        Some(rest) => rest.split_once("]:"),
        None => {
            let (host, port) = text.split_once(':')?;
            Some((host, port))
        }
    }
}

/// Reads a port in decimal.
fn port_of(text: &str) -> Option<u16>
    ensures { IfSome result IsPort }
{
    if !text.bytes().all(|byte| byte.is_ascii_digit()) {
        return None;
    }
    text.parse::<u16>().ok().filter(|port| 1 <= *port)
}
