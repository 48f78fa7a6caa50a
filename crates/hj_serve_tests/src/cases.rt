//! Cases of whole runs through `serve`, over streams and sinks in memory. A line of a table is a case: what fails, what stands under
//! `query`, `left` and `right`, what is written, the notes, and the status, with `;` between them; a case of two joins in a row, or
//! of the check of a trace, has besides what stands under `second` and `third`. `/` stands for a line feed and `~` for a carriage
//! return, and a stream that is `?` isn't there. A query that begins with `on` is one of rows of two numbers over windows of ten
//! rows.
ghost use Rattle.std.specs.Prelude.{◌≤◌};
ghost use Rattle.hj_base.specs.declared.outside.Role.{Role};
ghost use Rattle.hj_base.specs.MemOutside.{role_at};
ghost use Rattle.hj_base.specs.Outside.{NoneBegun};

use hj_base::{Gate, MemOutside, MemSink, OpenGate, Role};
use hj_serve::{Parties, serve};
use std::alloc::Global;
use std::process::Abort;
use std::sync::Wait;
use std::thread::Threads;
use std::time::Clock;

pub const EQUI: &str = "equi 10 left right";

pub const JOIN: &str = "join query left right";

/// The join by the calling thread alone.
pub const ALONE: &str = "join --threads 0 query left right";

/// The join of four cores on three threads.
pub const THREE: &str = "join --threads 3 query left right";

/// How much a read gives and a write takes.
#[derive(Clone, Copy)]
pub struct Chunks {
    pub read: usize,
    pub write: usize,
    ghost some_read: { 1 ≤ read },
    ghost some_write: { 1 ≤ write },
}

/// Reads of 4 bytes, and writes of 100.
pub const SHORT: Chunks = Chunks {
    read: 4,
    write: 100,
};

/// Reads and writes of 4,096 bytes.
pub const LARGE: Chunks = Chunks {
    read: 4_096,
    write: 4_096,
};

/// Small portions, and a large one.
const PORTIONS: [Chunks; 3] = [
    Chunks { read: 1, write: 1 },
    Chunks { read: 3, write: 3 },
    LARGE,
];

/// A line of a table.
#[derive(Clone, Copy)]
struct Case<'a> {
    line: &'a str,
    failing: &'a str,
    query: &'a str,
    left: &'a str,
    right: &'a str,
    out: &'a str,
    notes: &'a str,
    status: &'a str,
    second: &'a str,
    third: &'a str,
}

fn case_of<'a>(rt: &impl Abort, line: &'a str) -> Case<'a> {
    let mut fields = line.split(';');
    Case {
        line,
        failing: fields.next().expect(rt, "what fails"),
        query: fields.next().expect(rt, "the query"),
        left: fields.next().expect(rt, "the left stream"),
        right: fields.next().expect(rt, "the right stream"),
        out: fields.next().expect(rt, "the output"),
        notes: fields.next().expect(rt, "the notes"),
        status: fields.next().expect(rt, "the status"),
        second: fields.next().unwrap_or("?"),
        third: fields.next().unwrap_or("?"),
    }
}

/// Returns a text of a table, as it is meant.
fn unescaped(rt: &impl Abort, alloc: Global, text: &str) -> String {
    let mut whole = String::new(alloc);
    if text.starts_with("on ") {
        let columns = "left (ts int, k int) right (ts int, k int) ";
        whole.push_str(columns).expect(rt, "memory");
        let windows = "window left rows 10 window right rows 10 ";
        whole.push_str(windows).expect(rt, "memory");
    }
    whole.push_str(text).expect(rt, "memory");
    let lines = whole.replace(alloc, '/', "\n").expect(rt, "memory");
    lines.replace(alloc, '~', "\r").expect(rt, "memory")
}

/// What fails in a run.
#[derive(Clone, Copy)]
enum Failing {
    Start(Role),
    Read(Role, u64),
    Write(u64),
    Note(u64),
}

/// Reads what fails: `start ROLE`, `read ROLE N`, `write N` or `note N`.
fn failing_of(rt: &impl Abort, text: &str) -> Failing {
    let (kind, what) = text.split_once(' ').expect(rt, "a failure");
    match kind {
        "start" => Failing::Start(role_of(what)),
        "read" => {
            let (role, nth) = what.split_once(' ').expect(rt, "a read");
            Failing::Read(role_of(role), number(rt, nth))
        }
        "write" => Failing::Write(number(rt, what)),
        _ => Failing::Note(number(rt, what)),
    }
}

fn role_of(name: &str) -> Role {
    match name {
        "query" => Role::Query,
        "left" => Role::Left,
        "right" => Role::Right,
        "second" => Role::SecondQuery,
        "third" => Role::Third,
        "trace" => Role::Trace,
        _ => Role::Output,
    }
}

fn number(rt: &impl Abort, text: &str) -> u64 {
    text.parse::<u64>().expect(rt, "a number")
}

/// The outside of a run.
#[derive(Drop)]
pub struct World {
    outside: MemOutside,
    out: MemSink,
    notes: MemSink,
}

impl World {
    pub fn new(alloc: Global, chunks: Chunks) -> World
        ensures { NoneBegun (role_at result.outside) }
    {
        World {
            outside: MemOutside::new(alloc, chunks.read),
            out: MemSink::new(alloc, chunks.write),
            notes: MemSink::new(alloc, chunks.write),
        }
    }

    /// Puts bytes under a name.
    pub fn add(&mut self, rt: &impl Abort, name: &str, bytes: &[u8])
        requires { NoneBegun (role_at self.old.outside) }
        ensures { NoneBegun (role_at self.new.outside) }
    {
        self.outside.add(name, bytes).expect(rt, "memory");
    }

    /// Puts a text of a table under a name.
    fn put(&mut self, rt: &impl Abort, alloc: Global, name: &str, text: &str)
        requires { NoneBegun (role_at self.old.outside) }
        ensures { NoneBegun (role_at self.new.outside) }
    {
        if text != "?" {
            self.add(rt, name, unescaped(rt, alloc, text).as_bytes());
        }
    }

    /// Has a start, a read or a write fail.
    fn fail(&mut self, rt: &impl Abort, failing: Failing)
        requires { NoneBegun (role_at self.old.outside) }
        ensures { NoneBegun (role_at self.new.outside) }
    {
        match failing {
            Failing::Start(role) => self.outside.fail_start(role).expect(rt, "memory"),
            Failing::Read(role, nth) => self
                .outside
                .fail_read(role, nth.clamp(1, 9))
                .expect(rt, "memory"),
            Failing::Write(nth) => self.out.fail_write(nth.clamp(1, 9)).expect(rt, "memory"),
            Failing::Note(nth) => self.notes.fail_write(nth.clamp(1, 9)).expect(rt, "memory"),
        }
    }

    /// Gives what was written.
    pub fn written(self) -> MemSink {
        let World {
            outside,
            out,
            notes,
        } = self;
        drop(outside);
        drop(notes);
        out
    }

    /// Serves words, and answers the status.
    pub fn serve(
        &mut self,
        rt: &(impl Threads + Wait + Clock + Sync),
        alloc: Global,
        words: &[String],
        gate: &(impl Gate + Sync),
    ) -> u8
        requires { NoneBegun (role_at self.old.outside) }
    {
        let served = serve(
            alloc,
            words,
            &Parties { rt, gate },
            &mut self.outside,
            &mut self.out,
            &mut self.notes,
        );
        served.status
    }
}

/// Makes the outside of a case.
fn world_of(rt: &impl Abort, alloc: Global, case: Case<'_>, chunks: Chunks) -> World
    ensures { NoneBegun (role_at result.outside) }
{
    let mut world = World::new(alloc, chunks);
    world.put(rt, alloc, "query", case.query);
    world.put(rt, alloc, "left", case.left);
    world.put(rt, alloc, "right", case.right);
    world.put(rt, alloc, "second", case.second);
    world.put(rt, alloc, "third", case.third);
    for what in case.failing.split_terminator(',') {
        world.fail(rt, failing_of(rt, what));
    }
    world
}

/// Returns the words of a text.
pub fn words_of(rt: &impl Abort, alloc: Global, text: &str) -> Vec<String> {
    let mut words = Vec::new(alloc);
    for word in text.split_whitespace() {
        let word = String::from_str(alloc, word).expect(rt, "memory");
        words.push(word).expect(rt, "memory");
    }
    words
}

/// Compares bytes with a text of a table.
fn assert_written(rt: &impl Abort, alloc: Global, found: &[u8], wanted: &str, line: &str) {
    let wanted = unescaped(rt, alloc, wanted);
    assert!(rt; found == wanted.as_bytes(), "at {line}");
}

/// Serves the words of a command over the outside of a case, and compares what comes of it.
fn serve_case(
    rt: &(impl Abort + Threads + Wait + Clock + Sync),
    alloc: Global,
    command: &str,
    case: Case<'_>,
    world: &mut World,
    gate: &(impl Gate + Sync),
)
    requires { NoneBegun (role_at world.old.outside) }
{
    let line = case.line;
    let words = words_of(rt, alloc, command);
    let status = world.serve(rt, alloc, &words, gate);
    assert_written(rt, alloc, world.out.bytes(), case.out, line);
    assert_written(rt, alloc, world.notes.bytes(), case.notes, line);
    assert!(rt; u64::from(status) == number(rt, case.status), "at {line}");
}

/// Makes the outside of a case, and serves the words of a command over it.
pub fn run(
    rt: &(impl Abort + Threads + Wait + Clock + Sync),
    alloc: Global,
    command: &str,
    line: &str,
    chunks: Chunks,
    gate: &(impl Gate + Sync),
) {
    let case = case_of(rt, line);
    let mut world = world_of(rt, alloc, case, chunks);
    serve_case(rt, alloc, command, case, &mut world, gate);
    drop(world);
}

/// Runs each case of a table by some commands, in each of these portions.
fn run_in(
    rt: &(impl Abort + Threads + Wait + Clock + Sync),
    alloc: Global,
    commands: &[&str],
    table: &str,
    portions: &[Chunks],
) {
    for case in table.lines() {
        for command in commands {
            for chunks in portions {
                run(rt, alloc, command, case, *chunks, &OpenGate);
            }
        }
    }
}

/// Runs each case of a table by some commands, in small portions and in large ones.
pub fn run_all(
    rt: &(impl Abort + Threads + Wait + Clock + Sync),
    alloc: Global,
    commands: &[&str],
    table: &str,
) {
    run_in(rt, alloc, commands, table, &PORTIONS);
}

/// Runs each case of a table by some commands, with short reads.
pub fn run_once(
    rt: &(impl Abort + Threads + Wait + Clock + Sync),
    alloc: Global,
    commands: &[&str],
    table: &str,
) {
    run_in(rt, alloc, commands, table, &[SHORT]);
}
