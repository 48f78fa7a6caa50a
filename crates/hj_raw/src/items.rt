ghost use Rattle.std.specs.Prelude.{◌≡◌, ◌++◌, [], ◌∷◌, map, IfNone, IfSome, OnOk};
ghost use Rattle.hj_msg.specs.Met.{pairs_of};
ghost use Rattle.hj_collect.specs.Collector.{least_mark};
ghost use Rattle.hj_collect.specs.Marks.{is_same, meaning_of};
ghost use Rattle.hj_raw.specs.Items.{joined, mark_behind};
ghost use Rattle.hj_raw.specs.WaitingItems.{item_of, items_of, nothing_waits, with_report};

use crate::RawItem;
use hj_base::{Memory, Share};
use hj_collect::{Collector, Mark};
use hj_msg::{Pair, Report};
use std::alloc::Global;
use std::collections::VecDeque;
use std::marker::Model;

/// Pairs and marks that wait to be written, in their order. Clauses see the list of them, and the mark of the reports so far.
#[derive(Debug, Drop)]
pub struct RawItems<P> {
    items: VecDeque<RawItem<P>>,
    mark: Option<Mark>,
}

impl<P> Model for RawItems<P> {
    ghost use Rattle.hj_collect.specs.Marks.{meaning_of};
    ghost use Rattle.hj_raw.specs.WaitingItems.{WaitingItems, items_of};

    ghost Value = { WaitingItems P };

    ghost view = { λ raw. record { items = items_of raw.items.items; mark = meaning_of raw.mark } };
}

impl<P> RawItems<P> {
    /// Makes one at which nothing waits, and no report was kept.
    pub fn new(alloc: Global) -> Self
        ensures { result ≡ nothing_waits }
    {
        RawItems {
            items: VecDeque::new(alloc),
            mark: None,
        }
    }

    /// Removes the first item that waits, and returns it. None if nothing waits.
    #[inline(always)]
    pub fn next(&mut self) -> Option<RawItem<P>>
        ensures first { IfSome result (λ item. self.old.items ≡ item_of item ∷ self.new.items) }
        ensures none { IfNone result ((self.old.items ≡ []) × (self.new.items ≡ [])) }
        ensures mark { self.new.mark ≡ self.old.mark }
    {
        self.items.pop_front()
    }
}

impl<P: Share + Drop> RawItems<P> {
    /// Puts the pairs of a report behind what waits, each with rows of its own, and then the mark of the reports so far if that isn't
    /// what it was before this one. The collector took note of the report. After an error a part of these may wait.
    pub fn keep(&mut self, collector: &Collector, report: &Report<P>) -> Result<(), Memory>
        ensures { OnOk result (self.new ≡ with_report report.now (least_mark collector.now) self.old) }
    {
        self.put_all(collector.pairs(report)?)?;
        self.raise(collector.punctuation())
    }

    /// Puts pairs behind what waits.
    fn put_all(&mut self, pairs: Vec<Pair<P>>) -> Result<(), Memory>
        ensures { OnOk result (self.new ≡ record self.old { items = self.old.items ++ map joined pairs.items }) }
    {
        for pair in pairs {
            self.items.push_back(RawItem::Pair(pair))?;
        }
        Ok(())
    }

    /// Puts the mark of the reports so far behind what waits, if it is there and isn't what it was.
    fn raise(&mut self, mark: Option<Mark>) -> Result<(), Memory>
        ensures { OnOk result (self.new ≡ record { items = self.old.items ++ mark_behind self.old.mark (meaning_of mark); mark = meaning_of mark }) }
    {
        if is_same(self.mark, mark) {
            return Ok(());
        }
        if let Some(mark) = mark {
            self.items.push_back(RawItem::Mark(mark))?;
        }
        self.mark = mark;
        Ok(())
    }
}

/// Returns whether two marks are the same.
fn is_same(mark: Option<Mark>, other: Option<Mark>) -> bool
    ensures { result ≡ is_same (meaning_of mark) (meaning_of other) }
{
    mark == other
}
