// How replies are written to a link.
ghost use Rattle.std.specs.Prelude.{◌≡◌};
ghost use Rattle.su_frames.specs.Sending.{Sends};
ghost use Rattle.su_session.specs.Answer.{reply_frame};

use std::alloc::Global;
use std::io::Write;
use su_frames::Sent;
use su_message::Reply;

/// Writes a reply. `Broken` also where there is no memory to spell it.
pub(crate) fn send<W: Write>(alloc: Global, reply: &Reply, writer: &mut W) -> Sent
    ensures { Sends (reply_frame reply.now) (W.contents writer.old) result (W.contents writer.new) }
{
    match reply.encode(alloc) {
        Ok(message) => su_frames::send(alloc, message.as_slice(), writer),
        Err(_) => Sent::Broken,
    }
}
