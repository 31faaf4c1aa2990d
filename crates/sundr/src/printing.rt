// Printing a text.
ghost use Rattle.std.specs.Prelude.{◌≡◌, ℕ, List, Some};
ghost use Rattle.sundr.specs.Run.{PrintsUnlessFault};

use std::io::{ErrorKind, Write};
use su_desk_script::Status;

/// Prints a text. That it isn't read to its end is no fault to be told.
pub(crate) fn print<W: Write>(rt: &HostRuntime, text: &str, writer: &mut W) -> Status
    ensures { (before : List ℕ) → W.contents writer.old ≡ Some before
        → PrintsUnlessFault (λ t. t ≡ text.now) before (W.contents writer.new) result }
{
    match writer.write_all(text.as_bytes()) {
        Ok(()) => Status::Finished,
        Err(reason) => {
            if reason.kind() != ErrorKind::BrokenPipe {
                let _ = eprintln!(rt; "sundr: writing to standard output: {reason}");
            }
            Status::Fault
        }
    }
}
