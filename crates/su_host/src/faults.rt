// What is told on standard error.
ghost use Rattle.std.specs.Prelude.{◌≡◌, false};

use std::fmt::Display;

/// Tells a fault on standard error, in a line of its own; what has one doesn't end well.
pub(crate) fn tell_fault<F: Display + Drop>(rt: &HostRuntime, fault: F) -> bool
    ensures { result ≡ false }
{
    let _ = eprintln!(rt; "sundr: {fault}");
    false
}
