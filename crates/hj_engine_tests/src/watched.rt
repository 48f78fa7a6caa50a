//! When a join writes what it found.
ghost use Rattle.std.specs.Prelude.{Some};
ghost use Rattle.hj_base.specs.MemOutside.{role_at, told_under};
ghost use Rattle.hj_engine_tests.specs.Begun.{AreUnbegun};

use crate::cases::{Case, case_of, mode_of, streams_of};
use crate::runs::CaseRun;
use hj_base::{Got, MemOutside, MemSink, OpenGate, Opened, Outside, Put, Role, Sink};
use std::alloc::Global;
use std::cell::Cell;
use std::process::Abort;
use std::sync::Wait;
use std::thread::Threads;
use std::time::Clock;

/// A sink in memory that counts the lines it takes.
#[derive(Drop)]
struct CountingSink<'a> {
    sink: MemSink,
    lines: &'a Cell<u64>,
}

impl Sink for CountingSink<'_> {
    ghost told = { λ s. Some s.sink.bytes };

    ghost faults = { λ s. s.sink.faults };

    ghost refusals = { λ s. s.sink.refusals };

    fn write(&mut self, piece: &[u8]) -> Put {
        self.lines.set(self.lines.get().saturating_add(1));
        self.sink.write(piece)
    }
}

/// Streams in memory that note at each read how many lines were written before it.
#[derive(Drop)]
struct WatchedStreams<'a> {
    streams: MemOutside,
    lines: &'a Cell<u64>,
    seen: Vec<u64>,
}

impl Outside for WatchedStreams<'_> {
    ghost state = { λ w. role_at w.streams };

    ghost under = { λ w. told_under w.streams };

    fn start(&mut self, role: Role, name: &str) -> Opened {
        self.streams.start(role, name)
    }

    fn read(&mut self, role: Role, buf: &mut [u8]) -> Got {
        let _ = self.seen.push(self.lines.get());
        self.streams.read(role, buf)
    }
}

/// Makes the join of a case by four cores, and tells how it ends, and what its streams noted.
fn watch<R: Abort + Threads + Wait + Clock + Sync>(
    rt: &R,
    alloc: Global,
    case: Case<'_>,
    outside: &mut WatchedStreams<'_>,
    sink: &mut CountingSink<'_>,
) -> String
    requires { AreUnbegun (role_at outside.old.streams) }
{
    let run = CaseRun {
        rt,
        alloc,
        case,
        mode: mode_of(rt, "serial 4 32", &OpenGate),
    };
    let ended = run.joined(outside, sink);
    format!(in alloc; "{ended:?}, {:?}", outside.seen).expect(rt, "memory")
}

/// Makes the join of a line, of which the streams and the sink are watched.
fn watched<R: Abort + Threads + Wait + Clock + Sync>(
    rt: &R,
    alloc: Global,
    lines: &Cell<u64>,
    line: &str,
) -> String {
    let case = case_of(rt, line);
    let mut outside = WatchedStreams {
        streams: streams_of(rt, alloc, case),
        lines,
        seen: Vec::new(alloc),
    };
    let mut sink = CountingSink {
        sink: MemSink::new(alloc, 100),
        lines,
    };
    let found = watch(rt, alloc, case, &mut outside, &mut sink);
    drop(outside);
    drop(sink);
    found
}

const FIVE_ROWS: &str = "\
100;left (ts int, k int) right (ts int, k int) window left rows 10 window right rows 10 on l.k = r.k;\
1,7/3,7/5,7/;2,7/4,7/;;";

/// Shows that, where a read gives one row, the streams are read in turn, and a pair is written as soon as of both of
/// them a row is taken that isn't before the later row of the pair.
#[test]
fn writes_what_is_due_before_it_reads_on(rt: HostRuntime) {
    let lines = Cell::new(0);
    let found = watched(&rt, rt.alloc(), &lines, FIVE_ROWS);
    assert_eq!(rt; found.as_str(), "Done { events: 5 }, [0, 0, 0, 0, 1, 2, 4]");
    assert_eq!(rt; lines.get(), 6);
}
