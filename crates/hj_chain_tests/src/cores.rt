ghost use Rattle.std.specs.Prelude.{◌<◌};

use crate::lines::{halves, same};
use crate::rows::{Cross, Row, message, sent};
use hj_base::{CoreNo, Memory};
use hj_core::Core;
use hj_msg::{Join, Msg, Store};
use hj_rows::ListStore;
use std::alloc::Global;
use std::process::Abort;

type RowCore = Core<Row, Cross, ListStore<Row>>;

/// Makes one of two cores.
fn core_at(place: u16, alloc: Global) -> RowCore
    requires { place < 2 }
{
    Core::new(
        Cross,
        ListStore::new(alloc),
        ListStore::new(alloc),
        CoreNo(place),
        2,
        alloc,
    )
}

/// Tells what a core sends for a message, to the left, to the right and then to the right, and what it reports.
fn handled(alloc: Global, core: &mut RowCore, msg: Msg<Row>) -> Result<String, Memory> {
    let prepared = core.prepare(&msg)?;
    let sends = core.commit(msg, prepared);
    let text = format!(in alloc;
        "{:?} / {:?} {:?} / {:?}",
        sends.to_left, sends.to_right, sends.to_right_then, sends.entry
    );
    drop(sends);
    Ok(text?)
}

/// Handles the message of a line, and looks what is sent and reported for it.
fn handles(rt: &impl Abort, alloc: Global, core: &mut RowCore, line: &str) {
    let (msg, want) = halves(rt, line);
    let found = handled(alloc, core, message(rt, msg)).expect(rt, "memory");
    same(rt, line, &found, want);
}

/// Has one of two cores handle messages: a line is a message, and what is sent and reported for it. Returns whether the core has ended
/// then, and its place.
fn run(rt: &impl Abort, alloc: Global, place: u16, steps: &str) -> (bool, CoreNo)
    requires { place < 2 }
{
    let mut core = core_at(place, alloc);
    for line in steps.lines() {
        handles(rt, alloc, &mut core, line);
    }
    let seen = (core.ended(), core.place());
    drop(core);
    seen
}

/// The left row is the first. At the right core the right row is in flight; then it is acknowledged, and rests there unsettled.
const LEFT_FIRST_AT_1: &str = "\
S 1 8: Some(S { no: EventNo(1), row: Row(8) }) / None None / \
Some(Handled { no: EventNo(1), side: Right, row: Row(8), partners: Partners { alloc: Global, found: Nothing } })
R 0 7: Some(EndR(EventNo(0))) / Some(R { no: EventNo(0), row: Row(7) }) None / \
Some(Handled { no: EventNo(0), side: Left, row: Row(7), partners: \
Partners { alloc: Global, found: One(Partner { no: EventNo(1), row: Row(8) }) } })
AckS 1: None / None None / None
QuietR 2: Some(QuietR(EventNo(2))) / None None / Some(Quiet { no: EventNo(2), side: Right })
R 3 7: Some(EndR(EventNo(3))) / Some(R { no: EventNo(3), row: Row(7) }) None / \
Some(Handled { no: EventNo(3), side: Left, row: Row(7), partners: Partners { alloc: Global, found: Nothing } })";

/// At the left core the left row isn't settled before its end.
const LEFT_FIRST_AT_0: &str = "\
R 0 7: None / Some(R { no: EventNo(0), row: Row(7) }) None / \
Some(Handled { no: EventNo(0), side: Left, row: Row(7), partners: Partners { alloc: Global, found: Nothing } })
S 1 8: Some(S { no: EventNo(1), row: Row(8) }) / Some(AckS(EventNo(1))) Some(EndS(EventNo(1))) / \
Some(Handled { no: EventNo(1), side: Right, row: Row(8), partners: Partners { alloc: Global, found: Nothing } })
EndR 0: Some(EndR(EventNo(0))) / None None / None
QuietL 2: None / Some(QuietL(EventNo(2))) None / Some(Quiet { no: EventNo(2), side: Left })
S 3 8: Some(S { no: EventNo(3), row: Row(8) }) / Some(AckS(EventNo(3))) Some(EndS(EventNo(3))) / \
Some(Handled { no: EventNo(3), side: Right, row: Row(8), partners: \
Partners { alloc: Global, found: One(Partner { no: EventNo(0), row: Row(7) }) } })";

#[test]
fn left_row_comes_first(rt: HostRuntime) {
    run(&rt, rt.alloc(), 1, LEFT_FIRST_AT_1);
    run(&rt, rt.alloc(), 0, LEFT_FIRST_AT_0);
}

/// The right row is the first. At the right core the left row rests, settled.
const RIGHT_FIRST_AT_1: &str = "\
R 1 7: Some(EndR(EventNo(1))) / Some(R { no: EventNo(1), row: Row(7) }) None / \
Some(Handled { no: EventNo(1), side: Left, row: Row(7), partners: Partners { alloc: Global, found: Nothing } })
S 0 8: Some(S { no: EventNo(0), row: Row(8) }) / None None / \
Some(Handled { no: EventNo(0), side: Right, row: Row(8), partners: \
Partners { alloc: Global, found: One(Partner { no: EventNo(1), row: Row(7) }) } })";

/// At the left core the right row meets no left row, which rests at the other core.
const RIGHT_FIRST_AT_0: &str = "\
R 1 7: None / Some(R { no: EventNo(1), row: Row(7) }) None / \
Some(Handled { no: EventNo(1), side: Left, row: Row(7), partners: Partners { alloc: Global, found: Nothing } })
S 0 8: Some(S { no: EventNo(0), row: Row(8) }) / Some(AckS(EventNo(0))) Some(EndS(EventNo(0))) / \
Some(Handled { no: EventNo(0), side: Right, row: Row(8), partners: Partners { alloc: Global, found: Nothing } })
CloseL: None / Some(CloseL) None / None
CloseR: Some(CloseR) / None None / Some(Ended)";

#[test]
fn right_row_comes_first(rt: HostRuntime) {
    run(&rt, rt.alloc(), 1, RIGHT_FIRST_AT_1);
    let (ended, place) = run(&rt, rt.alloc(), 0, RIGHT_FIRST_AT_0);
    assert!(rt; ended);
    assert!(rt; place == CoreNo(0));
}

/// Shows that a core goes to another thread where its rows, its join and its stores do.
fn sent_core<P: Send, J: Join<P> + Send, S: Store<P, J> + Send>(
    core: Core<P, J, S>,
) -> Core<P, J, S> {
    sent(core)
}

#[test]
fn cores_are_sent(rt: HostRuntime) {
    let core = sent_core(core_at(1, rt.alloc()));
    assert!(rt; !core.ended());
    drop(core);
}
