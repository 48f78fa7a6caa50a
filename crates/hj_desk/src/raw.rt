//! The raw items of the reports.
ghost use Rattle.std.specs.Prelude.{◌≡◌, ℕ, ◌≤◌, [], false};
ghost use Rattle.hj_msg.specs.declared.drain.Drained.TheVariants.{Kept};
ghost use Rattle.hj_raw.specs.WaitingItems.{item_of};

use crate::outlet::Outlet;
use hj_base::{Memory, Share};
use hj_collect::Collector;
use hj_msg::{Drained, Report};
use hj_raw::{RawDrain, RawItem, RawItems};
use std::alloc::Global;

/// Gives the raw items of the reports to a drain: the pairs as they were met, and the marks between them.
#[derive(Drop)]
pub struct RawOutlet<P, D> {
    /// The items that weren't given yet.
    items: RawItems<P>,
    /// Where the items go.
    pub drain: D,
}

impl<P, D: RawDrain<P>> RawOutlet<P, D> {
    ghost use Rattle.hj_desk.specs.RawOutlet.{GivesRaw};

    /// Makes one that was given no report.
    pub fn new(alloc: Global, drain: D) -> Self
        ensures drain { result.drain ≡ drain }
        ensures unused { (cores : ℕ) → 1 ≤ cores → GivesRaw D.takes result cores [] false Kept result }
    {
        RawOutlet {
            items: RawItems::new(alloc),
            drain,
        }
    }

    /// Gives an item.
    fn give(&mut self, item: RawItem<P>) -> Drained
        ensures takes { D.takes self.old.drain (item_of item) result self.new.drain }
        ensures items { self.new.items ≡ self.old.items }
    {
        match item {
            RawItem::Pair(pair) => self.drain.pair(pair),
            RawItem::Mark(mark) => self.drain.mark(mark),
        }
    }
}

impl<P: Share + Drop, D: RawDrain<P>> Outlet<P> for RawOutlet<P, D> {
    ghost use Rattle.std.specs.Prelude.{◌≡◌, []};
    ghost use Rattle.hj_desk.specs.RawOutlet.{GivesRaw};

    ghost gave = { GivesRaw D.takes };

    ghost rests = { λ outlet _. outlet.items.items ≡ [] };

    fn keep(&mut self, collector: &Collector, report: &Report<P>) -> Result<(), Memory> {
        self.items.keep(collector, report)
    }

    fn release(&mut self, _collector: &Collector) -> Drained {
        while let Some(item) = self.items.next() {
            if self.give(item) == Drained::Refused {
                return Drained::Refused;
            }
        }
        Drained::Kept
    }
}
