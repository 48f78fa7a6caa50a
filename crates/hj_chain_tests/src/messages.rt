//! Partners, messages and reports, and the laws that can be called.

use crate::lines::shows;
use crate::rows::sent;
use hj_base::EventNo;
use hj_msg::{
    Msg, Partner, Partners, Report, journals_tell_what_was_handled, matches_are_met_once, no_runs,
    punctuation_never_overtakes, rows_cross_in_one_order, small_logs, small_meetings, small_run,
    small_steps,
};
use std::process::Abort;

/// Puts a partner behind the others.
fn push(rt: &impl Abort, partners: &mut Partners<u64>, no: u64, row: u64) {
    let partner = Partner {
        no: EventNo(no),
        row,
    };
    partners.push(partner).expect(rt, "memory");
}

/// Holds the partner at a place to be this one.
fn stands(rt: &impl Abort, partners: &Partners<u64>, at: usize, no: u64, row: u64) {
    let partner = partners.get(at).expect(rt, "a partner");
    assert!(rt; partner.no.0 == no);
    assert!(rt; partner.row == row);
}

#[test]
fn partners_in_their_order(rt: HostRuntime) {
    let mut partners = Partners::new(rt.alloc());
    assert!(rt; partners.len() == 0);
    assert!(rt; partners.get(0).is_none());
    push(&rt, &mut partners, 4, 40);
    push(&rt, &mut partners, 1, 10);
    push(&rt, &mut partners, 4, 41);
    assert!(rt; partners.len() == 3);
    stands(&rt, &partners, 0, 4, 40);
    stands(&rt, &partners, 1, 1, 10);
    stands(&rt, &partners, 2, 4, 41);
    assert!(rt; partners.get(3).is_none());
}

/// Messages and reports go to another thread where their rows do.
fn sent_between_cores<P: Send>(message: Msg<P>, report: Report<P>) -> (Msg<P>, Report<P>) {
    (sent(message), sent(report))
}

#[test]
fn messages_and_reports_are_sent(rt: HostRuntime) {
    let message = Msg::R {
        no: EventNo(3),
        row: 7u64,
    };
    let (message, report) = sent_between_cores(message, Report::Ended);
    shows(
        &rt,
        rt.alloc(),
        "R 3 7",
        &message,
        "R { no: EventNo(3), row: 7 }",
    );
    shows(&rt, rt.alloc(), "ended", &report, "Ended");
}

#[test]
fn laws_and_examples_can_be_called(_rt: HostRuntime) {
    rows_cross_in_one_order::<u64>();
    journals_tell_what_was_handled::<u64>();
    small_steps();
    matches_are_met_once::<u64>();
    punctuation_never_overtakes::<u64>();
    small_run();
    small_meetings();
    no_runs();
    small_logs();
}
