// Which refusals a server may tell of, and of which request.
ghost use Rattle.std.specs.Prelude.{◌≡◌, IfSome};
ghost use Rattle.su_bytes.specs.Refusal.{refusal_number};
ghost use Rattle.su_message.specs.Reply.{refused_argument};
ghost use Rattle.su_client.specs.Fitting.{may_refuse, told, told_alone};

use su_bytes::Refusal;
use su_message::Request;

/// Finds the refusal that a reply tells of by its number and argument, if it is one that a server
/// gives.
pub(crate) fn told(number: u8, argument: u64) -> Option<Refusal>
    ensures value { result ≡ told number argument }
    ensures number { IfSome result (λ e.
        (refusal_number e ≡ number) × (refused_argument e ≡ argument)) }
{
    match number {
        1 => Some(Refusal::Malformed(argument)),
        31 => {
            let Ok(seat) = u16::try_from(argument) else {
                return None;
            };
            Some(Refusal::Busy(seat))
        }
        34 => Some(Refusal::WrongPrev(argument)),
        _ => {
            if argument == 0 {
                told_alone(number)
            } else {
                None
            }
        }
    }
}

/// The same of a refusal whose argument is 0.
fn told_alone(number: u8) -> Option<Refusal>
    ensures value { result ≡ told_alone number }
    ensures number { IfSome result (λ e.
        (refusal_number e ≡ number) × (refused_argument e ≡ 0)) }
{
    match number {
        5 => Some(Refusal::MissingBlock),
        9 => Some(Refusal::BadKey),
        22 => Some(Refusal::TooBig),
        30 => Some(Refusal::NoMemory),
        32 => Some(Refusal::NotYourTurn),
        33 => Some(Refusal::BadSignature),
        35 => Some(Refusal::WrongVector),
        36 => Some(Refusal::KeyReuse),
        37 => Some(Refusal::BookFull),
        44 => Some(Refusal::OldFormat),
        _ => None,
    }
}

/// Tells whether a refusal is one that a server may answer to the request.
pub(crate) fn may_refuse(request: &Request, refusal: &Refusal) -> bool
    ensures { result ≡ may_refuse request.now refusal.now }
{
    match (request, refusal) {
        (_, Refusal::NoMemory) => true,
        (Request::Grant, Refusal::Busy(_)) => true,
        (Request::Commit(_), Refusal::Malformed(_)) => true,
        (Request::Commit(_), Refusal::NotYourTurn) => true,
        (Request::Commit(_), Refusal::BadKey) => true,
        (Request::Commit(_), Refusal::BadSignature) => true,
        (Request::Commit(_), Refusal::WrongPrev(_)) => true,
        (Request::Commit(_), Refusal::WrongVector) => true,
        (Request::Commit(_), Refusal::KeyReuse) => true,
        (Request::Commit(_), Refusal::BookFull) => true,
        (Request::Commit(_), Refusal::OldFormat) => true,
        (Request::Give, Refusal::NotYourTurn) => true,
        (Request::Put(_), Refusal::TooBig) => true,
        (Request::Get(_), Refusal::MissingBlock) => true,
        _ => false,
    }
}
