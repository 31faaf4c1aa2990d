// Services that are told which session they serve.
ghost use Rattle.std.specs.Prelude.{◌≡◌};

/// Attends sessions, one after another: is told the number of each before it serves it, and that it
/// has ended, before the next one begins and before what became of it is told.
pub trait Attend {
    /// Begins the session of this number.
    fn begin(&mut self, session: u64)
        ensures { self.new ≡ self.old };

    /// Ends the session that was begun last.
    fn end(&mut self)
        ensures { self.new ≡ self.old };
}
