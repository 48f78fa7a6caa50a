//! Events that the driver lets in and lets wait.

ghost use Rattle.std.specs.Prelude.{◌≡◌};

use crate::lines::shows;
use hj_base::{EventNo, Side};
use hj_driver::{Admitted, Closing, Driver, Why};
use hj_msg::{Event, Msg};
use std::alloc::Global;
use std::process::Abort;
use std::test::Fail;

fn arrival(no: u64, side: Side) -> Event<u64>
    ensures { result ≡ Event.Arrive (record { 0 = no }) side 7 }
{
    Event::Arrive {
        no: EventNo(no),
        side,
        row: 7,
    }
}

fn expiry_of_0() -> Event<u64>
    ensures { result ≡ Event.Expire (record { 0 = 1 }) Side.Left (record { 0 = 0 }) }
{
    Event::Expire {
        no: EventNo(1),
        side: Side::Left,
        of: EventNo(0),
    }
}

fn left_row() -> Msg<u64> {
    Msg::R {
        no: EventNo(0),
        row: 7,
    }
}

/// Holds an answer for an event, as it is printed, to what is wanted.
fn answers(rt: &impl Abort, alloc: Global, answer: &Admitted<u64>, want: &str) {
    shows(rt, alloc, "an event", answer, want);
}

/// Holds the number of events under way to what is wanted.
fn has(rt: &impl Abort, driver: &Driver, outstanding: u32) {
    assert!(rt; driver.outstanding() == outstanding);
}

/// Holds an event to wait for this cause, or for none.
fn waits(rt: &impl Abort, driver: &Driver, event: &Event<u64>, cause: Option<Why>) {
    assert!(rt; driver.waits(event) == cause);
}

/// Holds an answer for a close to what is wanted.
fn closes(rt: &impl Abort, answer: Closing, want: Closing) {
    assert!(rt; answer == want);
}

const PUT: &str = "Send(Left, R { no: EventNo(0), row: 7 })";

/// The right row waits for the one event under way.
const HELD: &str = "Wait(Flight(1), Arrive { no: EventNo(1), side: Right, row: 7 })";

const LATE: &str = "Wait(Closed, Arrive { no: EventNo(1), side: Right, row: 7 })";

#[test]
fn one_event_at_a_time(rt: HostRuntime) -> Result<(), Fail> {
    let mut driver = Driver::new(rt.alloc(), 2, 1)?;
    let first = driver.admit(arrival(0, Side::Left));
    answers(&rt, rt.alloc(), &first, PUT);
    let second = driver.admit(arrival(1, Side::Right));
    answers(&rt, rt.alloc(), &second, HELD);
    driver.took(Side::Right, &left_row());
    has(&rt, &driver, 1);
    driver.took::<u64>(Side::Left, &Msg::EndR(EventNo(0)));
    has(&rt, &driver, 0);
    closes(&rt, driver.close(), Closing::Send);
    closes(&rt, driver.close(), Closing::Already);
    let late = driver.admit(arrival(1, Side::Right));
    answers(&rt, rt.alloc(), &late, LATE);
    finishes(&rt, &mut driver);
    Ok(())
}

/// Takes both closes.
fn finishes(rt: &impl Abort, driver: &mut Driver) {
    driver.took::<u64>(Side::Right, &Msg::CloseL);
    assert!(rt; !driver.finished());
    driver.took::<u64>(Side::Left, &Msg::CloseR);
    assert!(rt; driver.finished());
}

const EARLY: &str =
    "Wait(NotMarked(EventNo(0)), Expire { no: EventNo(1), side: Left, of: EventNo(0) })";

const GONE: &str = "Send(Right, ExpR(EventNo(0)))";

#[test]
fn an_expiry_waits_for_its_row(rt: HostRuntime) -> Result<(), Fail> {
    let mut driver = Driver::new(rt.alloc(), 2, 2)?;
    let first = driver.admit(arrival(0, Side::Left));
    answers(&rt, rt.alloc(), &first, PUT);
    waits(
        &rt,
        &driver,
        &expiry_of_0(),
        Some(Why::NotMarked(EventNo(0))),
    );
    let early = driver.admit(expiry_of_0());
    answers(&rt, rt.alloc(), &early, EARLY);
    driver.took(Side::Right, &left_row());
    waits(&rt, &driver, &expiry_of_0(), None);
    let then = driver.admit(expiry_of_0());
    answers(&rt, rt.alloc(), &then, GONE);
    closes(&rt, driver.close(), Closing::Wait(2));
    Ok(())
}
