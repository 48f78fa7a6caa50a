ghost use Rattle.std.specs.Prelude.{◌≡◌, ◌+◌, ◌<◌, ◌≤◌, slice_get, ◌↔◌, ◌++◌, ◌∷◌, [], List, All, true, false, vec_len, IsNone, IfSome, IfNone, OnOk, OnErr, Some, IsPermutation};
ghost use Rattle.std.specs.BinaryHeap.{heap_items, heap_len, heap_capacity, IsHeap, KeepsHeap};
ghost use Rattle.std.specs.VecDeque.{deque_len, deque_capacity};
ghost use Rattle.hj_msg.specs.Emission.{comes_before, is_within};
ghost use Rattle.hj_msg.specs.Met.{pairs_of};
ghost use Rattle.hj_msg.specs.Valid.{later};
ghost use Rattle.hj_collect.specs.Collector.{least_mark};
ghost use Rattle.hj_collect.specs.Marks.{meaning};
ghost use Rattle.hj_collect.specs.Due.{due_cmp, pairs_in, AreInOrder, NoneBefore, NoneSooner};
ghost use Rattle.hj_collect.specs.Giving.{GivesDue, Releases};

use crate::kept::KeptPair;
use crate::{Collector, Mark};
use hj_base::{Memory, Share};
use hj_msg::{Drain, Drained, Pair, Report};
use std::alloc::Global;
use std::collections::{BinaryHeap, VecDeque};
use std::marker::Model;

/// Pairs that were met and are kept until they are due. Clauses see them in no order.
#[derive(Debug, Drop)]
pub struct Ordered<P> {
    /// Those that came late: one that is due later had come before.
    late: BinaryHeap<KeptPair<P>>,
    /// All others, each due no sooner than those ahead of it.
    in_order: VecDeque<KeptPair<P>>,
    /// No later number of them all is below this one, so that a mark that is below it lets none out.
    soonest: u64,
    /// Where the pairs of a report that has several are made, so that each report takes the same room. Empty between calls.
    made: Vec<Pair<P>>,
}

impl<P> Model for Ordered<P> {
    ghost use Rattle.std.specs.Prelude.{List, [], ◌++◌, ◌≡◌};
    ghost use Rattle.std.specs.BinaryHeap.{heap_items, IsHeap};
    ghost use Rattle.hj_msg.specs.declared.event.Pair.{Pair};
    ghost use Rattle.hj_collect.specs.Due.{due_cmp, pairs_in, AreInOrder, NoneSooner};

    ghost Value = { List (Pair P) };

    ghost view = { λ ordered. pairs_in (heap_items ordered.late ++ ordered.in_order.items) };

    ghost invariant = { λ ordered. record {
      late : IsHeap due_cmp (heap_items ordered.late);
      in_order : AreInOrder ordered.in_order.items;
      soonest : NoneSooner ordered.soonest (heap_items ordered.late ++ ordered.in_order.items);
      made : ordered.made.items ≡ [];
    } };
}

impl<P> Ordered<P> {
    /// Makes one that keeps no pairs.
    pub fn new(alloc: Global) -> Self
        ensures { result ≡ [] }
    {
        Ordered {
            late: BinaryHeap::new(alloc),
            in_order: VecDeque::new(alloc),
            soonest: u64::MAX,
            made: Vec::new(alloc),
        }
    }
}

impl<P: Drop> Ordered<P> {
    /// Keeps these pairs too. An error changes nothing, and drops the pairs.
    #[inline(always)]
    pub fn add(&mut self, pairs: Vec<Pair<P>>) -> Result<(), Memory>
        ensures ok { OnOk result (IsPermutation (self.old ++ pairs.items) self.new) }
        ensures err { OnErr result (self.new ≡ self.old) }
    {
        let mut pairs = pairs;
        self.late.reserve(pairs.len())?;
        self.in_order.reserve(pairs.len())?;
        put_all(&mut self.late, &mut self.in_order, &mut pairs);
        self.soonest = soonest_of(&self.late, &self.in_order);
        Ok(())
    }

    /// Removes a pair that is due, and returns it: one whose later number is within the mark, and before which no kept
    /// pair comes by its later number and then by its earlier one. None if no later number is within the mark.
    #[inline(always)]
    pub fn release(&mut self, up_to: Mark) -> Option<Pair<P>>
        ensures kept { IfSome result (λ pair. IsPermutation self.old (pair ∷ self.new)) }
        ensures first { IfSome result (λ pair. All (λ other. comes_before other pair ≡ false) self.old) }
        ensures within { IfSome result (λ pair. is_within (Some (meaning up_to)) (later pair) ≡ true) }
        ensures none { IsNone result ↔ All (λ pair. is_within (Some (meaning up_to)) (later pair) ≡ false) self.old }
        ensures unchanged { IfNone result (self.new ≡ self.old) }
    {
        if !is_within(self.soonest, up_to) {
            return None;
        }
        let pair = self.release_first(up_to)?;
        self.soonest = soonest_of(&self.late, &self.in_order);
        Some(pair)
    }

    /// Removes the first pair that is due by what a collector knows, and returns it. None if none is due.
    #[inline(always)]
    pub fn next_due(&mut self, collector: &Collector) -> Option<Pair<P>>
        ensures { Releases (least_mark collector.now) self.old result self.new }
    {
        let mark = collector.punctuation()?;
        self.release(mark)
    }

    /// Gives the pairs that are due by what a collector knows to a drain, the first one first, up to the first one that it refuses.
    #[inline(always)]
    pub fn give_due<D: Drain<P>>(&mut self, collector: &Collector, drain: &mut D) -> Drained
        ensures { GivesDue D.takes (least_mark collector.now) self.old drain.old result self.new drain.new }
    {
        while let Some(pair) = self.next_due(collector) {
            if drain.pair(pair) == Drained::Refused {
                return Drained::Refused;
            }
        }
        Drained::Kept
    }

    /// Removes and returns the first pair, if it is due.
    #[inline(always)]
    fn release_first(&mut self, up_to: Mark) -> Option<Pair<P>>
        ensures kept { IfSome result (λ pair. IsPermutation self.old (pair ∷ self.new)) }
        ensures first { IfSome result (λ pair. All (λ other. comes_before other pair ≡ false) self.old) }
        ensures within { IfSome result (λ pair. is_within (Some (meaning up_to)) (later pair) ≡ true) }
        ensures none { IsNone result ↔ All (λ pair. is_within (Some (meaning up_to)) (later pair) ≡ false) self.old }
        ensures unchanged { IfNone result (self.new ≡ self.old) }
    {
        if is_late_first(&self.late, &self.in_order) {
            let pair = release_late(&mut self.late, up_to)?;
            return Some(pair);
        }
        if !is_within(self.in_order.front()?.later(), up_to) {
            return None;
        }
        let kept = self.in_order.pop_front()?;
        Some(kept.pair)
    }
}

impl<P: Share + Drop> Ordered<P> {
    /// Keeps the pairs of a report too, each with rows of its own. A report without partners takes no memory. An error changes
    /// nothing.
    #[inline(always)]
    pub fn keep(&mut self, collector: &Collector, report: &Report<P>) -> Result<(), Memory>
        ensures ok { OnOk result (IsPermutation (self.old ++ pairs_of report.now) self.new) }
        ensures err { OnErr result (self.new ≡ self.old) }
    {
        if has_pairs(report) {
            self.keep_all(collector, report)
        } else {
            Ok(())
        }
    }

    /// Keeps the pairs of a report that has some.
    #[inline(never)]
    fn keep_all(&mut self, collector: &Collector, report: &Report<P>) -> Result<(), Memory>
        ensures ok { OnOk result (IsPermutation (self.old ++ pairs_of report.now) self.new) }
        ensures err { OnErr result (self.new ≡ self.old) }
    {
        match collector.only_pair(report)? {
            Some(pair) => self.keep_one(pair),
            None => self.keep_several(collector, report),
        }
    }

    /// Keeps the pairs of a report, however many these are. An error changes nothing.
    fn keep_several(&mut self, collector: &Collector, report: &Report<P>) -> Result<(), Memory>
        ensures ok { OnOk result (IsPermutation (self.old ++ pairs_of report.now) self.new) }
        ensures err { OnErr result (self.new ≡ self.old) }
    {
        let (late, in_order, made) = (&mut self.late, &mut self.in_order, &mut self.made);
        if let Err(Memory) = make_pairs(late, in_order, made, collector, report) {
            self.made.clear();
            return Err(Memory);
        }
        put_all(&mut self.late, &mut self.in_order, &mut self.made);
        self.soonest = soonest_of(&self.late, &self.in_order);
        Ok(())
    }

    /// Keeps one more pair. An error changes nothing, and drops the pair.
    fn keep_one(&mut self, pair: Pair<P>) -> Result<(), Memory>
        ensures ok { OnOk result (IsPermutation (self.old ++ pair ∷ []) self.new) }
        ensures err { OnErr result (self.new ≡ self.old) }
    {
        self.late.reserve(1)?;
        self.in_order.reserve(1)?;
        let kept = KeptPair { pair };
        let soonest = self.soonest.min(kept.later());
        put(&mut self.late, &mut self.in_order, kept);
        self.soonest = soonest;
        Ok(())
    }
}

/// Returns whether a report may have pairs: most have none.
#[inline(always)]
fn has_pairs<P>(report: &Report<P>) -> bool
    ensures { result ≡ false → pairs_of report.now ≡ [] }
{
    match report {
        Report::Handled { partners, .. } => partners.len() > 0,
        Report::Quiet { .. } | Report::Ended | Report::NoMemory => false,
    }
}

/// Makes the pairs of a report in a list that is empty, and room for all of them among those that are kept. After an error a part of
/// them may be in the list.
fn make_pairs<P: Share + Drop>(
    late: &mut BinaryHeap<KeptPair<P>>,
    in_order: &mut VecDeque<KeptPair<P>>,
    made: &mut Vec<Pair<P>>,
    collector: &Collector,
    report: &Report<P>,
) -> Result<(), Memory>
    requires { made.old.items ≡ [] }
    ensures late { heap_items late.new ≡ heap_items late.old }
    ensures in_order { in_order.new.items ≡ in_order.old.items }
    ensures made { OnOk result (made.new.items ≡ pairs_of report.now) }
    ensures late_room { OnOk result (heap_len late.new + vec_len made.new ≤ heap_capacity late.new) }
    ensures room { OnOk result (deque_len in_order.new + vec_len made.new ≤ deque_capacity in_order.new) }
{
    collector.push_pairs(made, report)?;
    late.reserve(made.len())?;
    in_order.reserve(made.len())?;
    Ok(())
}

/// Puts the pairs of a list where they belong, the first one first, where there is room for all of them in both. The list is empty then.
#[inline(always)]
fn put_all<P: Drop>(
    late: &mut BinaryHeap<KeptPair<P>>,
    in_order: &mut VecDeque<KeptPair<P>>,
    pairs: &mut Vec<Pair<P>>,
)
    requires late_room { heap_len late.old + vec_len pairs.old ≤ heap_capacity late.old }
    requires room { deque_len in_order.old + vec_len pairs.old ≤ deque_capacity in_order.old }
    ensures pairs { IsPermutation (pairs_in (heap_items late.old ++ in_order.old.items) ++ pairs.old.items) (pairs_in (heap_items late.new ++ in_order.new.items)) }
    ensures late { KeepsHeap due_cmp (heap_items late.old) (heap_items late.new) }
    ensures order { AreInOrder in_order.old.items → AreInOrder in_order.new.items }
    ensures none { pairs.new.items ≡ [] }
{
    pairs.reverse();
    while let Some(pair) = pairs.pop() {
        put(late, in_order, KeptPair { pair });
    }
}

/// Puts a pair behind those that are in order if it is due no sooner than the last one, or else among those that came late.
#[inline(always)]
fn put<P: Drop>(
    late: &mut BinaryHeap<KeptPair<P>>,
    in_order: &mut VecDeque<KeptPair<P>>,
    kept: KeptPair<P>,
)
    requires late_room { heap_len late.old < heap_capacity late.old }
    requires room { deque_len in_order.old < deque_capacity in_order.old }
    ensures put { IsPermutation (kept ∷ (heap_items late.old ++ in_order.old.items)) (heap_items late.new ++ in_order.new.items) }
    ensures late { KeepsHeap due_cmp (heap_items late.old) (heap_items late.new) }
    ensures order { AreInOrder in_order.old.items → AreInOrder in_order.new.items }
    ensures late_room { (heap_len late.new ≤ heap_len late.old + 1) × (heap_capacity late.old ≤ heap_capacity late.new) }
    ensures room { (deque_len in_order.new ≤ deque_len in_order.old + 1) × (deque_capacity in_order.new ≡ deque_capacity in_order.old) }
{
    if is_in_order(in_order, &kept) {
        in_order.push_back_reserved(kept);
    } else if let Err(_) = late.push(kept) {
        unreachable!()
    }
}

/// Returns whether a pair is due no sooner than the last one.
#[inline(always)]
fn is_in_order<P>(in_order: &VecDeque<KeptPair<P>>, kept: &KeptPair<P>) -> bool
    ensures { result ≡ true → AreInOrder in_order.now.items → AreInOrder (in_order.now.items ++ kept.now ∷ []) }
{
    match in_order.back() {
        Some(last) => !kept.is_due_before(last),
        None => true,
    }
}

/// Returns whether one that came late is due before the first of the others.
#[inline(always)]
fn is_late_first<P>(late: &BinaryHeap<KeptPair<P>>, in_order: &VecDeque<KeptPair<P>>) -> bool
    requires late { IsHeap due_cmp (heap_items late.now) }
    requires order { AreInOrder in_order.now.items }
    ensures late { result ≡ true → (one : KeptPair P) → slice_get (heap_items late.now) 0 ≡ Some one → NoneBefore one.pair in_order.now.items }
    ensures some { result ≡ true → 0 < heap_len late.now }
    ensures first { result ≡ false → (one : KeptPair P) → slice_get in_order.now.items 0 ≡ Some one → NoneBefore one.pair (heap_items late.now) }
    ensures none { result ≡ false → deque_len in_order.now ≡ 0 → heap_len late.now ≡ 0 }
{
    let Some(one) = late.peek() else {
        return false;
    };
    match in_order.front() {
        Some(first) => one.is_due_before(first),
        None => true,
    }
}

/// Returns a number below which is no later number of the pairs that are kept.
#[inline(always)]
fn soonest_of<P>(late: &BinaryHeap<KeptPair<P>>, in_order: &VecDeque<KeptPair<P>>) -> u64
    requires late { IsHeap due_cmp (heap_items late.now) }
    requires order { AreInOrder in_order.now.items }
    ensures { NoneSooner result (heap_items late.now ++ in_order.now.items) }
{
    let (late, in_order) = (soonest_late(late), soonest_in_order(in_order));
    late.min(in_order)
}

/// Returns a number below which is no later number of the pairs that came late.
#[inline(always)]
fn soonest_late<P>(late: &BinaryHeap<KeptPair<P>>) -> u64
    requires { IsHeap due_cmp (heap_items late.now) }
    ensures { NoneSooner result (heap_items late.now) }
{
    match late.peek() {
        Some(one) => one.later(),
        None => u64::MAX,
    }
}

/// Returns a number below which is no later number of the pairs that are in order.
#[inline(always)]
fn soonest_in_order<P>(in_order: &VecDeque<KeptPair<P>>) -> u64
    requires { AreInOrder in_order.now.items }
    ensures { NoneSooner result in_order.now.items }
{
    match in_order.front() {
        Some(one) => one.later(),
        None => u64::MAX,
    }
}

/// Removes the first pair of those that came late, if it is within the mark.
#[inline(never)]
fn release_late<P: Drop>(late: &mut BinaryHeap<KeptPair<P>>, up_to: Mark) -> Option<Pair<P>>
    requires late { IsHeap due_cmp (heap_items late.old) }
    ensures kept { IfSome result (λ pair. IsPermutation (heap_items late.old) (record { pair = pair } ∷ heap_items late.new)) }
    ensures top { IfSome result (λ pair. slice_get (heap_items late.old) 0 ≡ Some (record { pair = pair })) }
    ensures first { IfSome result (λ pair. NoneBefore pair (heap_items late.old)) }
    ensures within { IfSome result (λ pair. is_within (Some (meaning up_to)) (later pair) ≡ true) }
    ensures none { IfNone result (All (λ one. is_within (Some (meaning up_to)) (later one.pair) ≡ false) (heap_items late.old)) }
    ensures unchanged { IfNone result (late.new ≡ late.old) }
    ensures late { IsHeap due_cmp (heap_items late.new) }
{
    if !is_within(late.peek()?.later(), up_to) {
        return None;
    }
    let kept = late.pop()?;
    Some(kept.pair)
}

/// Returns whether a number is within a mark.
#[inline(always)]
fn is_within(number: u64, mark: Mark) -> bool
    ensures { result ≡ is_within (Some (meaning mark)) number }
{
    match mark {
        Mark::UpTo(last) => number <= last.0,
        Mark::All => true,
    }
}
