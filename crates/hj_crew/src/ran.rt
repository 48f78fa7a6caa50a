//! A run on threads, as it is handed back.
ghost use Rattle.std.specs.Prelude.{◌≡◌};

use hj_link::{Closed, ClosedWay};
use hj_msg::{Fin, Msg, Report};
use std::marker::Model;

/// A run on threads that is over. It holds the closed links and queues, whose journals tell the run, and no thread.
#[derive(Drop)]
pub struct Ran<P: Drop> {
    /// From left to right.
    pub(crate) links: Vec<Closed<Msg<P>>>,
    /// The queue of each core's reports, by the place of the core.
    pub(crate) queues: Vec<ClosedWay<Report<P>>>,
    pub(crate) flight: u16,
    pub(crate) ended: Fin,
}

impl<P: Drop> Model for Ran<P> {
    ghost use Rattle.hj_crew.specs.Ran.{RanSeen};

    ghost Value = { RanSeen P };

    ghost view = { λ r. record { links = r.links.items; queues = r.queues.items; flight = r.flight; ended = r.ended } };
}

impl<P: Drop> Ran<P> {
    /// Returns how the run ended.
    pub fn fin(&self) -> Fin
        ensures { result ≡ self.now.ended }
    {
        self.ended
    }
}
