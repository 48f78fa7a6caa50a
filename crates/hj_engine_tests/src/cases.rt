//! Cases of joins of streams in memory, and the ways to run them. A line of a table is a case: the most events, the query, the left
//! stream, the right one, how the join ends and what it writes, with `;` between them; a case of two joins in a row has besides the
//! second query and the third stream. `/` stands for a line feed, and a third stream that is `?` fails at its first read.
//!
//! A way is `serial CORES FLIGHT`, or `serial CORES FLIGHT SEED`, or `threads CORES FLIGHT THREADS KEPT`.
ghost use Rattle.hj_base.specs.MemOutside.{role_at};
ghost use Rattle.hj_engine_tests.specs.Begun.{AreUnbegun};

use hj_base::{ChainSize, MemOutside, Role};
use hj_chain::Chooser;
use hj_crew::{CrewPlan, CrewSize};
use hj_engine::SerialPlan;
use hj_query::{Query, parse};
use hj_twice::Mode;
use std::alloc::Global;
use std::process::Abort;

/// A line of a table.
#[derive(Clone, Copy)]
pub(crate) struct Case<'a> {
    pub(crate) limit: &'a str,
    pub(crate) query: &'a str,
    left: &'a str,
    right: &'a str,
    pub(crate) ended: &'a str,
    pub(crate) out: &'a str,
    pub(crate) second: &'a str,
    third: &'a str,
}

pub(crate) fn case_of<'a>(rt: &impl Abort, line: &'a str) -> Case<'a> {
    let mut fields = line.split(';');
    Case {
        limit: fields.next().expect(rt, "the limit"),
        query: fields.next().expect(rt, "the query"),
        left: fields.next().expect(rt, "the left stream"),
        right: fields.next().expect(rt, "the right stream"),
        ended: fields.next().expect(rt, "the end"),
        out: fields.next().expect(rt, "the output"),
        second: fields.next().unwrap_or(""),
        third: fields.next().unwrap_or(""),
    }
}

/// Returns a text of a table, as it is meant.
pub(crate) fn unescaped(rt: &impl Abort, alloc: Global, text: &str) -> String {
    text.replace(alloc, '/', "\n").expect(rt, "memory")
}

/// Reads a query.
pub(crate) fn query_of(rt: &impl Abort, alloc: Global, text: &str) -> Query {
    parse(alloc, text.as_bytes()).expect(rt, "a query")
}

/// Reads a number.
pub(crate) fn number(rt: &impl Abort, word: Option<&str>) -> u16 {
    let word = word.expect(rt, "a number");
    word.parse::<u16>().expect(rt, "a number")
}

/// Puts a text of a table under a name.
fn put(rt: &impl Abort, alloc: Global, outside: &mut MemOutside, name: &str, text: &str)
    requires { AreUnbegun (role_at outside.old) }
    ensures { AreUnbegun (role_at outside.new) }
{
    let text = unescaped(rt, alloc, text);
    outside.add(name, text.as_bytes()).expect(rt, "memory");
}

/// Puts the third stream, whose first read fails where the case says so.
fn put_third(rt: &impl Abort, alloc: Global, outside: &mut MemOutside, text: &str)
    requires { AreUnbegun (role_at outside.old) }
    ensures { AreUnbegun (role_at outside.new) }
{
    put(rt, alloc, outside, "third", text);
    if text == "?" {
        outside.fail_read(Role::Third, 1).expect(rt, "memory");
    }
}

/// Makes the streams of a case, of which a read gives at most 4 bytes, under the names of their roles.
pub(crate) fn streams_of(rt: &impl Abort, alloc: Global, case: Case<'_>) -> MemOutside
    ensures { AreUnbegun (role_at result) }
{
    let mut outside = MemOutside::new(alloc, 4);
    put(rt, alloc, &mut outside, "left", case.left);
    put(rt, alloc, &mut outside, "right", case.right);
    put_third(rt, alloc, &mut outside, case.third);
    outside
}

fn chain_size(rt: &impl Abort, cores: u16, flight: u16) -> ChainSize {
    assert!(rt; 1 <= cores && cores <= 64);
    assert!(rt; 1 <= flight && flight <= 256);
    ChainSize { cores, flight }
}

fn crew_size(rt: &impl Abort, chain: ChainSize, threads: u16) -> CrewSize {
    assert!(rt; 1 <= threads);
    CrewSize { chain, threads }
}

fn chooser(rt: &impl Abort, seed: Option<&str>) -> Chooser {
    match seed {
        Some(_) => Chooser::Seeded(u64::from(number(rt, seed))),
        None => Chooser::InTurn,
    }
}

fn serial_plan<'r, G>(rt: &impl Abort, numbers: &str, gate: &'r G) -> SerialPlan<'r, G> {
    let mut numbers = numbers.split(' ');
    let cores = number(rt, numbers.next());
    let flight = number(rt, numbers.next());
    SerialPlan {
        size: chain_size(rt, cores, flight),
        chooser: chooser(rt, numbers.next()),
        gate,
    }
}

pub(crate) fn crew_plan<'r, R: Abort, G>(
    rt: &'r R,
    numbers: &str,
    gate: &'r G,
) -> CrewPlan<'r, R, G> {
    let mut numbers = numbers.split(' ');
    let cores = number(rt, numbers.next());
    let flight = number(rt, numbers.next());
    let chain = chain_size(rt, cores, flight);
    let threads = number(rt, numbers.next());
    CrewPlan {
        rt,
        size: crew_size(rt, chain, threads),
        kept: number(rt, numbers.next()),
        takes_back: false,
        gate,
    }
}

/// Reads a way.
pub(crate) fn mode_of<'r, R: Abort, G>(rt: &'r R, way: &str, gate: &'r G) -> Mode<'r, R, G> {
    let (kind, numbers) = way.split_once(' ').expect(rt, "a way");
    if kind == "serial" {
        Mode::Serial(serial_plan(rt, numbers, gate))
    } else {
        Mode::Threads(crew_plan(rt, numbers, gate))
    }
}
