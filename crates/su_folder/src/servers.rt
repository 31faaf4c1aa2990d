// Where a server listens.
ghost use Rattle.std.specs.Prelude.{◌≡◌, IfOk, IfSome};
ghost use Rattle.std.specs.String.{string_bytes};
ghost use Rattle.su_folder.specs.Text.{has_colon, server_text};

use std::alloc::{AllocError, Global};
use std::fmt;

/// Where a server listens: a host's name or address, and a port.
#[derive(Debug, Drop)]
pub struct Server {
    /// An address with colons stands here without the brackets round it.
    pub host: String,
    /// From 1 on.
    pub port: u16,
}

impl Server {
    /// Reads `HOST:PORT`, or `[HOST]:PORT` where there are colons in HOST, with a port from 1 to
    /// 65535 in decimal. `None` where the text is none that a server is shown as: where the host is
    /// empty or has blanks, control characters or brackets, or the port has a sign or a zero in
    /// front.
    pub fn read(alloc: Global, text: &str) -> Result<Option<Server>, AllocError>
        ensures { IfOk result (λ found. IfSome found (λ server.
            text.now ≡ server_text (string_bytes server.host) server.port)) }
    {
        let Some(server) = parsed(alloc, text)? else {
            return Ok(None);
        };
        let shown = server.to_string(alloc)?;
        if shown.as_str() != text {
            return Ok(None);
        }
        Ok(Some(server))
    }
}

impl fmt::Display for Server {
    ghost use Rattle.std.specs.Prelude.{Some};
    ghost use Rattle.std.specs.String.{string_bytes};
    ghost use Rattle.su_folder.specs.Text.{server_text};

    ghost output = { λ s. Some (server_text (string_bytes s.host) s.port) };

    fn fmt<W: fmt::Write>(&self, f: &mut fmt::Formatter<W>) -> fmt::Result {
        let (host, port) = (self.host.as_str(), self.port);
        if has_colon(host) {
            write!(f, "[{host}]:{port}")
        } else {
            write!(f, "{host}:{port}")
        }
    }
}

/// Reads a server, which may be one that is shown otherwise.
fn parsed(alloc: Global, text: &str) -> Result<Option<Server>, AllocError> {
    let Some((host, port)) = text.rsplit_once(':') else {
        return Ok(None);
    };
    let Ok(port) = port.parse::<u16>() else {
        return Ok(None);
    };
    let host = without_brackets(host);
    if port < 1 || !is_host(host) {
        return Ok(None);
    }
    let host = String::from_str(alloc, host)?;
    Ok(Some(Server { host, port }))
}

fn has_colon(host: &str) -> bool
    ensures { result ≡ has_colon host.now }
{
    host.as_bytes().iter().any(|byte| *byte == b':')
}

/// Takes off the brackets round a host, if there are some.
fn without_brackets(host: &str) -> &str {
    let Some(behind) = host.strip_prefix('[') else {
        return host;
    };
    behind.strip_suffix(']').unwrap_or(host)
}

/// Whether it may be a host: some characters, and no blank, control character or bracket.
fn is_host(host: &str) -> bool {
    let no_other = |it: char| !it.is_whitespace() && !it.is_control() && it != '[' && it != ']';
    !host.is_empty() && host.chars().all(no_other)
}
