// What is told on standard error of a refusal that has several everyday causes, and of a client that
// begins without a log. Nothing rests on these words, and no clause speaks of them.
use std::fmt;
use su_bytes::Refusal;
use su_client_script::Cause;
use su_view::ViewRefusal;

/// What a client without a log is told at its start.
pub(crate) const WITHOUT_LOG: &str = "without --log the client believes the first list that the \
server shows it: `save FILE` keeps what it has seen, and --log FILE goes on from there";

/// A sentence on what a refusal may come from.
#[derive(Drop)]
pub(crate) enum Sentence {
    /// A text of its own.
    Plain(&'static str),
    /// The server lacks the user's own last commit, of that number.
    Lacks(u64),
}

impl fmt::Display for Sentence {
    fn fmt<W: fmt::Write>(&self, f: &mut fmt::Formatter<W>) -> fmt::Result {
        match self {
            Sentence::Plain(text) => write!(f, "{text}"),
            Sentence::Lacks(number) => write!(
                f,
                "the server lacks commit {number}, which is yours: it was set back to an older copy, or \
shows another folder"
            ),
        }
    }
}

/// Returns a sentence on what a refusal may come from, for those that have several everyday causes.
pub(crate) fn sentence_of(cause: &Cause) -> Option<Sentence> {
    match (cause.refusal, cause.own_last) {
        (ViewRefusal::OwnMissing, Some(number)) => Some(Sentence::Lacks(number)),
        (ViewRefusal::OwnMissing, None) => Some(Sentence::Plain(LACKS)),
        (ViewRefusal::Plain(refusal), _) => plain_text(&refusal).map(Sentence::Plain),
        (ViewRefusal::Change(Refusal::NotHolder(_)), _) if cause.after_take => {
            Some(Sentence::Plain(TAKEN_BETWEEN))
        }
        _ => None,
    }
}

const LACKS: &str = "the server lacks your last commit: it was set back to an older copy, or shows \
another folder";

const TAKEN_BETWEEN: &str = "another user took the file over between this command's take and the \
operation behind it: the same line again may go through";

const NOT_SIGNED: &str =
    "the public keys are in another order than the server's, the key is another \
user's or was changed, or the server shows another folder";

const OTHER_KEYS: &str = "the server has another list of public keys, or has it in another order";

const OTHER_LIST: &str =
    "the server shows another list than before: it hides or exchanges commits, or \
was set back";

const UNKNOWN: &str =
    "whether the last command was carried out is not known: look before you repeat it";

const WANTING: &str = "memory was wanting, here or at the server: look before you repeat the last \
command, since it may have been carried out";

const OTHERS_TURN: &str = "another client has the turn: the same line again may go through";

const NO_WORKER: &str = "the server has no worker free: the same line again may go through";

/// The seat that `Busy` names where no worker of the server is free.
const NO_SEAT: u16 = u16::MAX;

/// Returns the text on a refusal that is no view's own.
fn plain_text(refusal: &Refusal) -> Option<&'static str> {
    match refusal {
        Refusal::BadSignature => Some(NOT_SIGNED),
        Refusal::WrongPrev(0) => Some(OTHER_KEYS),
        Refusal::WrongPrev(_) => Some(OTHER_LIST),
        Refusal::LinkFailed => Some(UNKNOWN),
        Refusal::NoMemory => Some(WANTING),
        Refusal::Busy(NO_SEAT) => Some(NO_WORKER),
        Refusal::Busy(_) => Some(OTHERS_TURN),
        _ => None,
    }
}
