// What is told on standard error.
ghost use Rattle.std.specs.Prelude.{◌≡◌};

use std::fmt::Display;
use su_desk_script::Status;

/// Tells a fault on standard error, in a line of its own, and returns the status that it ends the
/// program with.
pub(crate) fn tell_fault<F: Display + Drop>(rt: &HostRuntime, fault: F) -> Status
    ensures { result ≡ Status.Fault }
{
    let _ = eprintln!(rt; "sundr: {fault}");
    Status::Fault
}
