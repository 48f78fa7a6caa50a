//! The pairs of the reports, in the order of the join.
ghost use Rattle.std.specs.Prelude.{◌≡◌, ℕ, [], All, false};
ghost use Rattle.hj_msg.specs.declared.drain.Drained.TheVariants.{Kept};
ghost use Rattle.hj_msg.specs.Emission.{is_within};
ghost use Rattle.hj_msg.specs.Valid.{later};
ghost use Rattle.hj_collect.specs.Collector.{least_mark};

use crate::outlet::Outlet;
use hj_base::{Memory, Share};
use hj_collect::{Collector, Ordered};
use hj_msg::{Drain, Drained, Report};
use std::alloc::Global;

/// Gives the pairs of the reports to a drain, in the order of the sequential join: each once no pair before it can come any more.
#[derive(Drop)]
pub struct OrderedOutlet<P, D> {
    /// The pairs that were met and weren't given yet.
    kept: Ordered<P>,
    /// Where the pairs go.
    pub drain: D,
}

impl<P, D: Drain<P>> OrderedOutlet<P, D> {
    ghost use Rattle.hj_desk.specs.OrderedOutlet.{GivesInOrder};

    /// Makes one that was given no report.
    pub fn new(alloc: Global, drain: D) -> Self
        ensures drain { result.drain ≡ drain }
        ensures unused { (cores : ℕ) → GivesInOrder D.takes result cores [] false Kept result }
    {
        OrderedOutlet {
            kept: Ordered::new(alloc),
            drain,
        }
    }
}

impl<P: Share + Drop, D: Drain<P>> Outlet<P> for OrderedOutlet<P, D> {
    ghost use Rattle.hj_desk.specs.OrderedOutlet.{GivesInOrder};

    ghost gave = { GivesInOrder D.takes };

    ghost rests = { λ outlet collector. All (λ pair. is_within (least_mark collector) (later pair) ≡ false) outlet.kept };

    #[inline(always)]
    fn keep(&mut self, collector: &Collector, report: &Report<P>) -> Result<(), Memory> {
        self.kept.keep(collector, report)
    }

    fn release(&mut self, collector: &Collector) -> Drained {
        self.kept.give_due(collector, &mut self.drain)
    }
}
