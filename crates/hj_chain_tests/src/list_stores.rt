//! Rows that the list store settles, replaces, finds and drops.

ghost use Rattle.std.specs.Prelude.{◌≡◌, ◌/◌, nat_eq};

use crate::lines::{halves, number, numbers_of, same, shows, words};
use crate::rows::{Row, sent};
use hj_base::{EventNo, Memory, Share, Side};
use hj_msg::{Join, Partners, Store};
use hj_rows::ListStore;
use std::alloc::Global;
use std::process::Abort;

/// Joins a left row with each right row of which it is a part in ten.
#[derive(Drop)]
struct Tenth;

impl Share for Tenth {
    fn share(&self) -> Result<Self, Memory> {
        Ok(Tenth)
    }
}

impl Join<Row> for Tenth {
    ghost predicate = { λ join left right. nat_eq left.0 (right.0 / 10) };

    fn matches(&self, left: &Row, right: &Row) -> bool {
        left.0 == right.0 / 10
    }
}

fn insert<S: Store<Row, Tenth>>(rt: &impl Abort, store: &mut S, no: u64, row: u64, settled: bool) {
    let row = Row(row);
    store.reserve(EventNo(no), &row).expect(rt, "memory");
    store.insert(EventNo(no), row, settled);
}

fn settle<S: Store<Row, Tenth>>(store: &mut S, no: u64) -> bool {
    store.settle(EventNo(no))
}

fn remove<S: Store<Row, Tenth>>(store: &mut S, no: u64) -> bool {
    store.remove(EventNo(no))
}

/// Returns the numbers of the rows of a side that a row finds.
fn found<S: Store<Row, Tenth>>(
    rt: &impl Abort,
    alloc: Global,
    store: &S,
    side: Side,
    row: u64,
) -> String
    requires { (join : _) → S.suits store.now side join }
{
    let mut partners = Partners::new(alloc);
    store
        .probe(side, &Row(row), &Tenth, &mut partners)
        .expect(rt, "memory");
    numbers_of(rt, alloc, &partners)
}

/// Shows that a row finds rows of a side with these numbers.
fn finds(rt: &impl Abort, alloc: Global, store: &ListStore<Row>, side: Side, row: u64, want: &str) {
    same(rt, "a row", &found(rt, alloc, store, side, row), want);
}

/// Makes a step: a row comes under a number, settled or not; or a number is settled or removed, where the store has it; or a row
/// finds right rows.
fn run_step(rt: &impl Abort, alloc: Global, store: &mut ListStore<Row>, step: &str) {
    let (call, want) = halves(rt, step);
    let (name, what) = words(rt, call);
    let what = number(rt, what);
    match name {
        "settled" => insert(rt, store, what, number(rt, want), true),
        "unsettled" => insert(rt, store, what, number(rt, want), false),
        "settle" => shows(rt, alloc, step, &settle(store, what), want),
        "remove" => shows(rt, alloc, step, &remove(store, what), want),
        "find" => finds(rt, alloc, store, Side::Right, what, want),
        _ => panic!(rt; "no step: {step}"),
    }
}

const STEPS: &str = "\
find 7: []
unsettled 1: 71
find 7: []
settle 2: false
settle 1: true
find 7: [1]
settled 4: 79
settled 2: 70
settled 3: 60
find 7: [1, 2, 4]
settled 4: 61
find 7: [1, 2]
find 6: [3, 4]
remove 2: true
remove 2: false
settle 2: false
remove 9: false
settled 2: 75
find 7: [1, 2]";

#[test]
fn rows_settle_and_are_replaced_in_place(rt: HostRuntime) {
    let mut store = ListStore::new(rt.alloc());
    for step in STEPS.lines() {
        run_step(&rt, rt.alloc(), &mut store, step);
    }
}

/// Puts forty rows in, each being its own number.
fn insert_forty(rt: &impl Abort, store: &mut ListStore<Row>) {
    for no in 0..40 {
        insert(rt, store, no, no, true);
    }
}

/// Removes all of forty rows but three.
fn remove_most(rt: &impl Abort, store: &mut ListStore<Row>) {
    for no in 0..40 {
        let kept = no == 12 || no == 17 || no == 33;
        assert!(rt; kept || remove(store, no));
    }
}

#[test]
fn rows_stay_through_sweeps(rt: HostRuntime) {
    let alloc = rt.alloc();
    let mut store = ListStore::new(alloc);
    insert_forty(&rt, &mut store);
    remove_most(&rt, &mut store);
    finds(&rt, alloc, &store, Side::Right, 1, "[12, 17]");
    finds(&rt, alloc, &store, Side::Right, 3, "[33]");
    finds(&rt, alloc, &store, Side::Left, 129, "[12]");
}

/// Shows that a store goes to another thread where its rows do.
fn sent_store<P: Send>(store: ListStore<P>) -> ListStore<P> {
    sent(store)
}

#[test]
fn stores_are_sent(rt: HostRuntime) {
    let mut store = sent_store(ListStore::new(rt.alloc()));
    insert(&rt, &mut store, 5, 51, true);
    finds(&rt, rt.alloc(), &store, Side::Right, 5, "[5]");
}
