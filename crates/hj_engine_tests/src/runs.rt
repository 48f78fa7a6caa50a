//! Runs of the cases of a table, and what comes of them.
ghost use Rattle.std.specs.Prelude.{◌≡◌, false};
ghost use Rattle.hj_base.specs.Outside.{unbegun, ChangesOnly};
ghost use Rattle.hj_base.specs.declared.outside.Role.TheVariants as role;
ghost use Rattle.hj_event.specs.Roles.{IsInStep};
ghost use Rattle.hj_engine_tests.specs.Begun.{AreUnbegun};

use crate::cases::{Case, case_of, mode_of, number, query_of, streams_of, unescaped};
use hj_base::{Gate, MemSink, OpenGate, Opened, Outside, Role, Sink};
use hj_crew::Ran;
use hj_engine::{join_serial, join_threads};
use hj_msg::Fin;
use hj_relay::{TwiceOutcome, fits};
use hj_stream::Outcome;
use hj_twice::{Mode, TwoJoins, join_twice};
use std::alloc::Global;
use std::process::Abort;
use std::sync::Wait;
use std::thread::Threads;
use std::time::Clock;

/// Starts a stream under the name of its role, which is ready.
fn start<O: Outside>(rt: &impl Abort, outside: &mut O, role: Role, name: &str)
    requires { (O.state outside.old role).phase ≡ unbegun }
    ensures ready { IsInStep false (O.state outside.new role) }
    ensures others { ChangesOnly role (O.state outside.old) (O.state outside.new) }
{
    let opened = outside.start(role, name);
    assert!(rt; matches!(opened, Opened::Ready));
}

/// Starts the left stream and the right one.
pub(crate) fn start_two<O: Outside>(rt: &impl Abort, outside: &mut O)
    requires { AreUnbegun (O.state outside.old) }
    ensures left { IsInStep false (O.state outside.new role.Left) }
    ensures right { IsInStep false (O.state outside.new role.Right) }
    ensures third { O.state outside.new role.Third ≡ O.state outside.old role.Third }
{
    start(rt, outside, Role::Left, "left");
    start(rt, outside, Role::Right, "right");
}

/// Holds a run on threads to be done.
pub(crate) fn is_done<P: Drop>(rt: &impl Abort, ran: Option<Ran<P>>) {
    let ran = ran.expect(rt, "a run");
    assert!(rt; matches!(ran.fin(), Fin::Done));
}

/// A case, and how it is run.
#[derive(Drop)]
pub(crate) struct CaseRun<'a, R, G> {
    pub(crate) rt: &'a R,
    pub(crate) alloc: Global,
    pub(crate) case: Case<'a>,
    pub(crate) mode: Mode<'a, R, G>,
}

impl<R: Abort + Threads + Wait + Clock + Sync, G: Gate + Sync> CaseRun<'_, R, G> {
    /// Joins the streams left and right, and tells how that ends.
    pub(crate) fn joined<O: Outside, K: Sink>(&self, outside: &mut O, sink: &mut K) -> Outcome
        requires { AreUnbegun (O.state outside.old) }
    {
        let query = query_of(self.rt, self.alloc, self.case.query);
        let limit = self.limit();
        start_two(self.rt, outside);
        let ended = match &self.mode {
            Mode::Serial(plan) => join_serial(self.alloc, &query, plan, limit, outside, sink),
            Mode::Threads(plan) => {
                let (ended, ran) = join_threads(self.alloc, &query, plan, limit, outside, sink);
                is_done(self.rt, ran);
                ended
            }
        };
        drop(query);
        ended
    }

    /// Joins the streams left and right, and their pairs with the third stream, and tells how that ends.
    fn joined_twice<O: Outside, K: Sink>(&self, outside: &mut O, sink: &mut K) -> TwiceOutcome
        requires { AreUnbegun (O.state outside.old) }
    {
        let first = query_of(self.rt, self.alloc, self.case.query);
        let second = query_of(self.rt, self.alloc, self.case.second);
        assert!(self.rt; fits(&first, &second));
        start_two(self.rt, outside);
        start(self.rt, outside, Role::Third, "third");
        let joins = TwoJoins {
            first: &first,
            second: &second,
            limit: self.limit(),
        };
        let ended = join_twice(self.alloc, joins, &self.mode, outside, sink);
        drop(first);
        drop(second);
        ended
    }

    /// Makes the join of the case, or its two joins, in the way of this name, and looks how that ends.
    fn make<O: Outside, K: Sink>(&self, way: &str, outside: &mut O, sink: &mut K)
        requires { AreUnbegun (O.state outside.old) }
    {
        let text = if self.case.second.is_empty() {
            let ended = self.joined(outside, sink);
            format!(in self.alloc; "{ended:?}")
        } else {
            let ended = self.joined_twice(outside, sink);
            format!(in self.alloc; "{ended:?}")
        };
        let found = text.expect(self.rt, "memory");
        assert_eq!(self.rt; found.as_str(), self.case.ended, "{way}");
    }

    /// Tells how many events the case takes at most.
    fn limit(&self) -> u64 {
        u64::from(number(self.rt, Some(self.case.limit)))
    }
}

/// Holds a sink to have the text of a case.
pub(crate) fn is_written(rt: &impl Abort, alloc: Global, sink: &MemSink, case: Case<'_>) {
    let wanted = unescaped(rt, alloc, case.out);
    assert!(rt; sink.bytes() == wanted.as_bytes(), "{wanted}");
}

/// Runs a case in a way, with a gate that is passed before each turn of a core, and compares what comes of it.
pub(crate) fn run<R: Abort + Threads + Wait + Clock + Sync, G: Gate + Sync>(
    rt: &R,
    alloc: Global,
    way: &str,
    line: &str,
    gate: &G,
) {
    let case = case_of(rt, line);
    let mut outside = streams_of(rt, alloc, case);
    let mut sink = MemSink::new(alloc, 100);
    let run = CaseRun {
        rt,
        alloc,
        case,
        mode: mode_of(rt, way, gate),
    };
    run.make(way, &mut outside, &mut sink);
    is_written(rt, alloc, &sink, case);
    drop(outside);
    drop(sink);
}

/// Runs a case in some ways.
fn run_case<R: Abort + Threads + Wait + Clock + Sync>(
    rt: &R,
    alloc: Global,
    ways: &str,
    line: &str,
) {
    for way in ways.split(", ") {
        run(rt, alloc, way, line, &OpenGate);
    }
}

/// Runs each case of a table in some ways.
pub(crate) fn run_all<R: Abort + Threads + Wait + Clock + Sync>(
    rt: &R,
    alloc: Global,
    ways: &str,
    table: &str,
) {
    for line in table.lines() {
        run_case(rt, alloc, ways, line);
    }
}
