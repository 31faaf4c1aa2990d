// The failures of a source.
ghost use Rattle.std.specs.Prelude.{◌≡◌, None};

use su_bytes::{Digest, Refusal};

/// In how many calls a source failed, and what the newest of them was about.
#[derive(Clone, Copy, Debug)]
pub struct Failures {
    /// How many calls were refused for a fault of the source; at its last value it stays.
    pub count: u64,
    /// The digest that the newest of them was about.
    pub last: Option<Digest>,
}

impl Failures {
    ghost use Rattle.su_block.specs.Failure.{one_more, failures_after, is_failure};

    /// No call has failed.
    pub fn none() -> Failures
        ensures { result ≡ record { count = 0; last = None } }
    {
        Failures {
            count: 0,
            last: None,
        }
    }

    /// Counts a call about this digest that failed.
    pub fn add(&mut self, digest: Digest)
        ensures { self.new ≡ one_more self.old digest }
    {
        self.count = self.count.saturating_add(1);
        self.last = Some(digest);
    }

    /// Counts a call about this digest that was refused so, if that is a failure.
    pub fn note(&mut self, refusal: &Refusal, digest: Digest)
        ensures { self.new ≡ failures_after {A = Unit {0}} (Err refusal.now) digest self.old }
    {
        match refusal {
            Refusal::MissingBlock | Refusal::WrongBlock | Refusal::SourceFailed => self.add(digest),
            _ => {}
        }
    }
}
