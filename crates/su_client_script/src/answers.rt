// What is printed of a command.
ghost use Rattle.std.specs.Prelude.{◌≡◌, List, ℕ, false, Ok, Err, IfOk, IsOk, OnOk, MatchResult};
ghost use Rattle.std.specs.Io.KnownBytes.{Appends};
ghost use Rattle.su_desk_script.specs.Answer.{bytes_text};
ghost use Rattle.su_client_script.specs.Step.{IsOutcome, has_committed, is_refused};
ghost use Rattle.su_client_script.specs.Text.{listing_shown, number_shown, refusal_shown};
ghost use Rattle.su_client_script.specs.declared.answers.Outcome.TheVariants as outcome;

use crate::endings::Fault;
use crate::places::Place;
use crate::texts::{listed, refused};
use std::alloc::{AllocError, Global};
use std::io;
use std::io::Write;
use su_bytes::{FileId, Name};
use su_desk_script::{answered, in_hex};
use su_view::ViewRefusal;

/// What came of a command, once it is printed.
#[derive(Drop)]
pub(crate) enum Outcome {
    /// It was carried out, by no commit.
    Done,
    /// It was carried out by commits.
    Committed,
    /// It was refused, at the part that stood there; those before it were committed.
    Refused { refusal: ViewRefusal, place: Place },
}

impl Outcome {
    /// Returns what came of parts that were all committed, behind which the next one stands there.
    pub(crate) fn of_all(place: Place) -> Outcome {
        if place.is_first() {
            Outcome::Done
        } else {
            Outcome::Committed
        }
    }

    /// Tells whether it was refused.
    pub(crate) fn is_refused(&self) -> bool
        ensures { result ≡ is_refused self.now }
    {
        matches!(self, Outcome::Refused { .. })
    }

    /// Tells whether a commit was made.
    pub(crate) fn has_committed(&self) -> bool
        ensures { result ≡ has_committed self.now }
    {
        match self {
            Outcome::Done => false,
            Outcome::Committed => true,
            Outcome::Refused { place, .. } => !place.is_first(),
        }
    }
}

/// Prints `ok N` of a commit, or the refusal of the part that stands there.
pub(crate) fn tell_number<O: Write>(
    alloc: Global,
    output: &mut O,
    stored: Result<u64, ViewRefusal>,
    place: Place,
) -> Result<Outcome, Fault>
    ensures printed { OnOk result
        (Appends (O.contents output.old) (O.contents output.new) (number_shown stored)) }
    ensures outcome { IfOk result (IsOutcome place stored) }
{
    match stored {
        Ok(number) => {
            print_text(output, answered(alloc, Ok(number)))?;
            Ok(Outcome::Committed)
        }
        Err(refusal) => tell_refusal(alloc, output, refusal, place),
    }
}

/// Prints a line for each name, or the refusal.
pub(crate) fn tell_names<O: Write>(
    alloc: Global,
    output: &mut O,
    names: Result<Vec<(Name, FileId)>, ViewRefusal>,
) -> Result<Outcome, Fault>
    ensures printed { OnOk result (MatchResult names
        (λ names. Appends (O.contents output.old) (O.contents output.new)
        (listing_shown names.items))
        (λ e. Appends (O.contents output.old) (O.contents output.new) (refusal_shown e))) }
    ensures outcome { IfOk result (λ out. has_committed out ≡ false) }
{
    match names {
        Ok(names) => tell_text(output, listed(alloc, names.as_slice())),
        Err(refusal) => tell_refusal(alloc, output, refusal, Place::First),
    }
}

/// Prints bytes in hex digits, or the refusal.
pub(crate) fn tell_bytes<O: Write>(
    alloc: Global,
    output: &mut O,
    bytes: Result<Vec<u8>, ViewRefusal>,
) -> Result<Outcome, Fault>
    ensures printed { OnOk result (MatchResult bytes
        (λ bytes. Appends (O.contents output.old) (O.contents output.new)
        (bytes_text (Ok bytes.items)))
        (λ e. Appends (O.contents output.old) (O.contents output.new) (refusal_shown e))) }
    ensures outcome { IfOk result (λ out. has_committed out ≡ false) }
{
    match bytes {
        Ok(bytes) => tell_text(output, in_hex(alloc, bytes.as_slice())),
        Err(refusal) => tell_refusal(alloc, output, refusal, Place::First),
    }
}

/// Prints the refusal of the part that stands there.
pub(crate) fn tell_refusal<O: Write>(
    alloc: Global,
    output: &mut O,
    refusal: ViewRefusal,
    place: Place,
) -> Result<Outcome, Fault>
    ensures printed { OnOk result
        (Appends (O.contents output.old) (O.contents output.new) (refusal_shown refusal)) }
    ensures outcome { IfOk result (λ out. out ≡ outcome.Refused refusal place) }
{
    print_text(output, refused(alloc, &refusal))?;
    Ok(Outcome::Refused { refusal, place })
}

/// Prints the answer to a command that was carried out by no commit.
fn tell_text<O: Write>(output: &mut O, text: Result<Vec<u8>, AllocError>) -> Result<Outcome, Fault>
    ensures printed { OnOk result (IfOk text (λ text.
        Appends (O.contents output.old) (O.contents output.new) text.items)) }
    ensures some { OnOk result (IsOk text) }
    ensures outcome { IfOk result (λ out. out ≡ outcome.Done) }
{
    print_text(output, text)?;
    Ok(Outcome::Done)
}

/// Prints a text that is there, unless there was no memory for it.
pub(crate) fn print_text<O: Write>(
    output: &mut O,
    text: Result<Vec<u8>, AllocError>,
) -> Result<(), Fault>
    ensures printed { OnOk result (IfOk text (λ text.
        Appends (O.contents output.old) (O.contents output.new) text.items)) }
    ensures some { OnOk result (IsOk text) }
{
    let Ok(text) = text else {
        return Err(Fault::NoMemory);
    };
    match print(output, text.as_slice()) {
        Ok(()) => Ok(()),
        Err(reason) => Err(Fault::Writing(reason)),
    }
}

/// Writes a text, and flushes it.
fn print<O: Write>(output: &mut O, text: &[u8]) -> io::Result<()>
    ensures { OnOk result (Appends (O.contents output.old) (O.contents output.new) text.now) }
{
    output.write_all(text)?;
    output.flush()
}
