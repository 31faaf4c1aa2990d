// Where the messages of a session come from.
ghost use Rattle.std.specs.Prelude.{◌≡◌};

use std::io::Read;

/// The reading end of a session. Before each read it is told whether the session has the turn, so
/// that it can wait less long for one that keeps others waiting.
pub trait Incoming: Read {
    /// Is told whether the session has the turn.
    fn note_turn(&mut self, _has_turn: bool)
        ensures { Self.remaining self.new ≡ Self.remaining self.old }
    {}
}

impl Incoming for &[u8] {}
