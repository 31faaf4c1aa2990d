// One message and its reply.
ghost use Rattle.std.specs.Prelude.{◌≡◌, IfOk, OnErr};
ghost use Rattle.su_session.specs.Answer.{turn_by, Answered, GivesBack};
ghost use Rattle.su_session.specs.Step.{Refusing, Says};

use crate::links::send;
use crate::services::Service;
use crate::sessions::End;
use std::alloc::{AllocError, Global};
use std::io::Write;
use su_bytes::Refusal;
use su_frames::Sent;
use su_message::{Reply, Request};

/// Returns the reply to a message. Fails where there is no memory to read it, and then the service
/// isn't asked.
fn respond<S: Service>(alloc: Global, message: &[u8], service: &mut S) -> Result<Reply, AllocError>
    ensures ok { IfOk result
        (λ reply. Answered S.answers service.old message.now reply service.new) }
    ensures err { OnErr result (service.new ≡ service.old) }
{
    match Request::decode(alloc, message) {
        Ok(request) => Ok(service.answer(alloc, &request)),
        Err(Refusal::NoMemory) => Err(AllocError),
        Err(refusal) => Ok(Reply::refused(&refusal)),
    }
}

/// Whether the turn is held after a reply, where it was held so before.
fn turn_by(turn: bool, reply: &Reply) -> bool
    ensures { result ≡ turn_by turn reply.now }
{
    match reply {
        Reply::Granted(..) => true,
        Reply::Stored(_) | Reply::Given => false,
        _ => turn,
    }
}

/// Answers a message, and writes the reply. `turn` tells whether the turn is held.
pub(crate) fn exchange<W: Write, S: Service>(
    alloc: Global,
    message: &[u8],
    turn: &mut bool,
    writer: &mut W,
    service: &mut S,
) -> Sent
    ensures { Says S.answers service.old turn.old message.now (W.contents writer.old)
        result service.new turn.new (W.contents writer.new) }
{
    let Ok(reply) = respond(alloc, message, service) else {
        return Sent::Broken;
    };
    *turn = turn_by(*turn, &reply);
    send(alloc, &reply, writer)
}

/// Writes a refusal with which a session ends: of a length, or of a session that isn't served.
pub fn refuse<W: Write>(alloc: Global, refusal: Refusal, writer: &mut W) -> End
    ensures { Refusing refusal (W.contents writer.old) result (W.contents writer.new) }
{
    match send(alloc, &Reply::refused(&refusal), writer) {
        Sent::Whole => End::Refused,
        Sent::Unflushed | Sent::Broken => End::LinkFailed,
    }
}

/// Gives the turn back, if it is held.
pub(crate) fn give_back<S: Service>(alloc: Global, turn: bool, service: &mut S)
    ensures { GivesBack S.answers turn service.old service.new }
{
    if turn {
        let _unwritten = service.answer(alloc, &Request::Give);
    }
}
