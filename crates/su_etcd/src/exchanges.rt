// One request and its reply, over a connection of their own.
ghost use Rattle.std.specs.Prelude.{◌≡◌, ℕ, List, IfOk, OnOk};
ghost use Rattle.std.specs.Io.KnownBytes.{Appends, Consumes, IsAtEnd};
ghost use Rattle.su_gateway.specs.Requests.{request_bytes};
ghost use Rattle.su_gateway.specs.Replies.{IsResponse};

use std::alloc::Global;
use std::io::{Read, Write};
use su_engine::Unanswered;
use su_gateway::{body_start, request_bytes};

/// Asks a body at a target, and reads the reply up to the end of the connection. Fails where the
/// reader or the writer fails, the reply isn't whole or doesn't say that all went well, or there is
/// no memory.
pub fn exchange<R: Read, W: Write>(
    alloc: Global,
    reader: &mut R,
    writer: &mut W,
    target: &[u8],
    body: &[u8],
) -> Result<Vec<u8>, Unanswered>
    ensures written { OnOk result (Appends (W.contents writer.old) (W.contents writer.new)
        (request_bytes target.now body.now)) }
    ensures replied { IfOk result (λ reply. (bytes : List ℕ)
        × Consumes (R.remaining reader.old) (R.remaining reader.new) bytes
        × IsResponse bytes reply.items) }
    ensures end { OnOk result (IsAtEnd (R.remaining reader.new)) }
{
    let Ok(request) = request_bytes(alloc, target, body) else {
        return Err(Unanswered);
    };
    if writer.write_all(request.as_slice()).is_err() {
        return Err(Unanswered);
    }
    let mut bytes = Vec::new(alloc);
    if reader.read_to_end(&mut bytes).is_err() {
        return Err(Unanswered);
    }
    let bytes = bytes.as_slice();
    let Some(start) = body_start(bytes) else {
        return Err(Unanswered);
    };
    match Vec::from_slice(alloc, &bytes[start..]) {
        Ok(reply) => Ok(reply),
        Err(_) => Err(Unanswered),
    }
}
