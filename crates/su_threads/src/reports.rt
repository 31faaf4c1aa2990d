// What a worker tells of a session.
ghost use Rattle.std.specs.Prelude.{◌≡◌};
ghost use Rattle.su_threads.specs.Runs.{RanSo};

use crate::links::Link;
use std::alloc::Global;
use std::marker::PhantomData;
use su_session::{Served, Service};

/// What became of the session of this number.
#[derive(Drop)]
pub(crate) struct Report<L: Link, S: Service> {
    pub(crate) number: u64,
    pub(crate) served: Served,
    of: PhantomData<(L, S)>,
    // Some link was served so.
    ghost ran: { ∥ RanSo (L.runs S.answers) served ∥₁ },
}

impl<L: Link, S: Service> Report<L, S> {
    /// Runs the session of this number.
    pub(crate) fn of(alloc: Global, number: u64, link: L, service: &mut S) -> Report<L, S>
        ensures { result.number ≡ number }
    {
        let served = link.run(alloc, service);
        Report {
            number,
            served,
            of: PhantomData,
        }
    }
}
