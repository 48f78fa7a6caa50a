//! A store without a place for a row, at a worker and on a chain.

ghost use Rattle.std.specs.Prelude.{◌≡◌, []};
ghost use Rattle.hj_rows.specs.ListStore.{resting_rows};
ghost use Rattle.hj_chain.specs.Steps.{GoesWith};
ghost use Rattle.hj_chain_tests.specs.TwoRows.{all_match, rows_given};

use crate::chains::{TwoRows, from, step_all};
use crate::rows::{Cross, Row, message};
use hj_base::{CoreNo, EventNo, Memory, OpenGate, Side};
use hj_chain::Chain;
use hj_core::Core;
use hj_link::{LeftEnd, Receiver, RightEnd, Sender, duplex, one_way};
use hj_msg::{Msg, Partners, Report, Store};
use hj_rows::ListStore;
use hj_worker::{Turn, Worker};
use std::alloc::Global;
use std::process::Abort;

/// A list of rows that refuses the first place that it is asked for.
#[derive(Drop)]
struct RefusingStore {
    rows: ListStore<Row>,
    has_refused: bool,
}

impl RefusingStore {
    /// Makes a store with no rows, which has refused nothing yet.
    fn new(alloc: Global) -> Self
        ensures { resting_rows result.rows ≡ [] }
    {
        RefusingStore {
            rows: ListStore::new(alloc),
            has_refused: false,
        }
    }
}

impl Store<Row, Cross> for RefusingStore {
    ghost entries = { λ store. resting_rows store.rows };

    ghost has_place = { λ store no row. ⟦<ListStore<Row> as Store<Row, Cross>>⟧.has_place store.rows no row };

    ghost suits = { λ store side join. Unit {0} };

    fn reserve(&mut self, no: EventNo, row: &Row) -> Result<(), Memory> {
        let place = <ListStore<Row> as Store<Row, Cross>>::reserve(&mut self.rows, no, row);
        if self.has_refused {
            return place;
        }
        self.has_refused = true;
        Err(Memory)
    }

    fn insert(&mut self, no: EventNo, row: Row, settled: bool) {
        <ListStore<Row> as Store<Row, Cross>>::insert(&mut self.rows, no, row, settled);
    }

    fn settle(&mut self, no: EventNo) -> bool {
        <ListStore<Row> as Store<Row, Cross>>::settle(&mut self.rows, no)
    }

    fn remove(&mut self, no: EventNo) -> bool {
        <ListStore<Row> as Store<Row, Cross>>::remove(&mut self.rows, no)
    }

    fn probe(
        &self,
        side: Side,
        against: &Row,
        join: &Cross,
        found: &mut Partners<Row>,
    ) -> Result<(), Memory> {
        self.rows.probe(side, against, join, found)
    }
}

type RefusingWorker = Worker<Row, Cross, RefusingStore>;

/// Makes a worker of the first of two cores, between these ends, with such stores.
fn worker_between(
    alloc: Global,
    left: RightEnd<Msg<Row>>,
    right: LeftEnd<Msg<Row>>,
    reports: Sender<Report<Row>>,
) -> RefusingWorker
    requires left { left.journal ≡ [] }
    requires right { right.journal ≡ [] }
    requires reports { reports.journal ≡ [] }
{
    let core = Core::new(
        Cross,
        RefusingStore::new(alloc),
        RefusingStore::new(alloc),
        CoreNo(0),
        2,
        alloc,
    );
    Worker::new(core, left, right, reports)
}

/// Calls a worker, which answers that memory ran out.
fn runs_out(rt: &impl Abort, worker: &mut RefusingWorker) {
    assert!(rt; !worker.spent());
    assert!(rt; worker.turn(&OpenGate) == Turn::NoMemory);
}

/// Holds the reports to have one that memory ran out, and no other.
fn has_no_memory_alone(rt: &impl Abort, reports: &mut Receiver<Report<Row>>) {
    assert!(rt; matches!(reports.take(0), Some(Report::NoMemory)));
    assert!(rt; reports.take(0).is_none());
}

/// Puts a row, for which the worker has no place: nothing comes of it at either end.
fn finds_no_place(
    rt: &impl Abort,
    worker: &mut RefusingWorker,
    left: &mut LeftEnd<Msg<Row>>,
    right: &mut RightEnd<Msg<Row>>,
    reports: &mut Receiver<Report<Row>>,
) {
    assert!(rt; left.put(0, message(rt, "R 0 7")).is_ok());
    runs_out(rt, worker);
    has_no_memory_alone(rt, reports);
    assert!(rt; left.take(0).is_none());
    assert!(rt; right.take(0).is_none());
    runs_out(rt, worker);
}

#[test]
fn a_worker_without_a_place_answers_no_memory(rt: HostRuntime) {
    let (mut left, at_left) = duplex(rt.alloc(), 4).expect(&rt, "memory");
    let (at_right, mut right) = duplex(rt.alloc(), 4).expect(&rt, "memory");
    let (sender, mut reports) = one_way(rt.alloc(), 4).expect(&rt, "memory");
    let mut worker = worker_between(rt.alloc(), at_left, at_right, sender);
    finds_no_place(&rt, &mut worker, &mut left, &mut right, &mut reports);
    drop(worker);
    drop(left);
    drop(right);
    drop(reports);
}

/// Makes a chain of two cores with such stores, before a feed of two rows that has given none.
fn two_cores(rt: &impl Abort, alloc: Global, feed: &mut TwoRows) -> Chain<Row, Cross, RefusingStore>
    requires { feed.old.given ≡ 0 }
    ensures { GoesWith all_match result (rows_given feed.new.first feed.new.given feed.new.stopped) }
{
    let left = vec![in alloc; RefusingStore::new(alloc), RefusingStore::new(alloc)];
    let left = left.expect(rt, "memory");
    let right = vec![in alloc; RefusingStore::new(alloc), RefusingStore::new(alloc)];
    let right = right.expect(rt, "memory");
    Chain::new(alloc, Cross, left, right, 2, feed).expect(rt, "memory")
}

/// Core 0 has no place for the left row; then memory ran out for every actor, also for one of no core.
const NO_PLACE: &str = "\
admit: Did
left 0: Memory
admit: NotEnabled(Over)
port_left: NotEnabled(Over)
port_right: NotEnabled(Over)
left 0: NotEnabled(Over)
right 0: NotEnabled(Over)
left 1: NotEnabled(Over)
right 1: NotEnabled(Over)
collect 0: NotEnabled(Over)
collect 1: NotEnabled(Over)
left 2: NotEnabled(Over)";

#[test]
fn a_chain_without_a_place_is_over(rt: HostRuntime) {
    let mut feed = from(Side::Left);
    let mut chain = two_cores(&rt, rt.alloc(), &mut feed);
    step_all(&rt, rt.alloc(), &mut chain, &mut feed, NO_PLACE);
    assert!(rt; chain.enabled() == 0);
    assert!(rt; chain.pair().is_none());
    drop(chain);
}
