// Laws of sessions.
ghost use Rattle.std.specs.Prelude.{◌≡◌, ◌++◌, ℕ, List, Some};
ghost use Rattle.su_frames.specs.Stream.{IsRest, Splits};
ghost use Rattle.su_session.specs.declared.sessions.End.{End};
ghost use Rattle.su_session.specs.declared.sessions.End.TheVariants.{ReadFailed, LinkFailed, Spent};
ghost use Rattle.su_session.specs.Session.{end_of, left, IsWhole, Moment, Session};

use crate::services::Service;
use su_frames::{one_cut, refused_for_good};

/// Where the bytes that a reader has are known, the messages of a session are the first of them
/// all; where it ended neither by a fault of the link nor by too many reads, they are all of them.
pub fn first_messages<S: Service>()
    ensures { (a b : Moment S) (end : End) (all : List ℕ) (x : Session S.answers a end b)
        → a.known ≡ Some all
        → Splits (a.waits ++ all) x.messages (x.rest ++ left b.known)
        × IsWhole end (x.rest ++ left b.known) }
{
    refused_for_good();
}

/// Where the bytes that a reader has are known, and a session ended neither by a fault of the link
/// nor by too many reads: however else the bytes are cut into messages and a rest, those messages
/// were answered, and the session ended as the rest says.
pub fn all_messages<S: Service>()
    ensures { (a b : Moment S) (end : End) (all last : List ℕ) (messages : List (List ℕ))
        → (x : Session S.answers a end b) → a.known ≡ Some all
        → (end ≡ ReadFailed → ⊥) → (end ≡ LinkFailed → ⊥) → (end ≡ Spent → ⊥)
        → Splits (a.waits ++ all) messages last → IsRest last
        → (x.messages ≡ messages) × (end ≡ end_of last) }
{
    one_cut();
    refused_for_good();
}
