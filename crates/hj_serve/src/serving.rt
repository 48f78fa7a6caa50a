ghost use Rattle.std.specs.Prelude.{◌≡◌, ◌≢◌, ◌↔◌, IsSome, IfSome, None, Some, map, string_bytes};
ghost use Rattle.hj_base.specs.Outside.{NoneBegun};
ghost use Rattle.hj_words.specs.Ranges.{IsInRange};
ghost use Rattle.hj_opening.specs.Calls.{call};
ghost use Rattle.hj_serve.specs.Crew.{CameToJoin, ShowsRun, crew_in, crew_of, spelled_in};
ghost use Rattle.hj_notes.specs.NoteText.{note_text, status_of};
ghost use Rattle.hj_notes.specs.NoteWritten.{NoteWritten};
ghost use Rattle.hj_serve.specs.OnCrew.{RunsOnCrew};
ghost use Rattle.hj_opening.specs.Serve.{Serves};
ghost use Rattle.hj_serve.specs.OrderPlan.{asked_threads, crew_seen};
ghost use Rattle.hj_opening.specs.Words.{asked_by, order_of};

use crate::ended::OrderEnd;
use crate::generate::generate;
use crate::join::join_on_threads;
use crate::plan::{OrderPlan, ThreadsOrder};
use crate::serial::serve_serial;
use crate::trace::{check_trace, trace_join};
use crate::twice::{join_in_row, mode_of};
use hj_base::{Gate, Outside, Sink};
use hj_crew::{CrewPlan, Ran};
use hj_notes::{Note, report};
use hj_value::SharedRow;
use hj_words::{Order, Usage, read_words};
use std::alloc::Global;
use std::sync::Wait;
use std::thread::Threads;
use std::time::Clock;

/// What a run works with, beside what it reads and writes.
#[derive(Drop)]
pub struct Parties<'r, T, G> {
    /// Starts the threads, and lets them wait.
    pub rt: &'r T,
    /// Is passed before each step of a core.
    pub gate: &'r G,
}

/// What `serve` answers.
#[derive(Drop)]
pub struct Served {
    /// The exit status.
    pub status: u8,
    /// The run of the threads that made the join of the order. There is none where no thread turns a chain for the order, nor
    /// where the call ended before the join, nor for two joins in a row.
    pub ran: Option<Ran<SharedRow>>,
}

/// Does what the words after the program's name say, and answers the exit status.
///
/// `join QUERY LEFT RIGHT` joins two streams of rows under the query whose text stands under the first name; its options say how
/// many cores its chain has, how many threads turn them and how many events are under way, how many events it numbers at most, and
/// in which order its steps come where no thread turns a core. `equi W LEFT RIGHT` joins two streams of rows, each a time and a
/// key, on equal keys, over windows of the last W rows of each side. `check QUERY` writes the canonical text of a query. `gen N
/// KEYS SEED W` makes two streams of N rows each in memory, joins them as `equi W` does, and writes one line that sums the join up.
/// `raw QUERY LEFT RIGHT` joins as `join` does on threads, but writes the pairs as the cores meet them, with marks between them. `trace
/// QUERY LEFT RIGHT` writes the line of each step of such a join, as one thread makes it alone. `verify QUERY LEFT RIGHT TRACE OUTPUT`
/// checks that a trace spells a whole run of the join, and that an output is its text. `twice QUERY LEFT RIGHT QUERY THIRD` joins two
/// streams under the first query, and then, under the second one, the pairs of this join with a third stream: a pair is a row of the
/// second join's left stream, the time of its later row and then the fields of both rows. The options hold for each of the two joins,
/// and `out` gets the lines of the second one.
///
/// `parties` has what starts the threads, and a gate, which is passed before each step of a core. `outside` opens and reads the
/// streams, `out` gets the joined lines, the text or the line, and `notes` a line that says why a run didn't end well. The statuses:
/// 0 done, 1 the words are no order, 2 the text is no query, or a second query doesn't fit the first, 3 a bad record, 4 a stream
/// couldn't be opened or read, 5 `out` failed, 6 memory ran out, 7 more events than the limit, 8 the trace or the output isn't right.
/// The lines are those of the pairs of the sequential sliding-window join (Kang, Naughton and Viglas, ICDE 2003) over the streams'
/// numbered events, each once, and but for `raw` in its order, whatever the options. The call waits for the threads that it starts; the
/// check of a query, and a join with no threads, is done by `serve_serial`.
pub fn serve<T: Threads + Wait + Clock + Sync, O: Outside, K: Sink, N: Sink, G: Gate + Sync>(
    alloc: Global,
    words: &[String],
    parties: &Parties<'_, T, G>,
    outside: &mut O,
    out: &mut K,
    notes: &mut N,
) -> Served
    requires { NoneBegun (O.state outside.old) }

    // What is served, by the status.
    ensures serves { Serves result.status (order_of (map string_bytes words.now))
        (call (O.under outside.old) (O.state outside.old) (O.state outside.new) (K.told out.old) (K.told out.new)
        (K.faults out.old) (K.faults out.new)) (N.told notes.old) (N.told notes.new) (N.refusals notes.old) (N.refusals notes.new) }

    // Unless memory ran out, a run is handed back exactly where threads turn the order's chain and the call came to the join. A run
    // that is handed back made this join.
    ensures ran { result.status ≢ 6
        → (IsSome result.ran ↔ CameToJoin (crew_in (map string_bytes words.now)) result.status (O.state outside.new)) }
    ensures shows { IfSome result.ran (ShowsRun (spelled_in (map string_bytes words.now)) result.status
        (call (O.under outside.old) (O.state outside.old) (O.state outside.new) (K.told out.old) (K.told out.new)
        (K.faults out.old) (K.faults out.new))) }
{
    match read_words(alloc, words) {
        Ok(order) => serve_order(alloc, &order, parties, outside, out, notes),
        Err(Usage::Words) => refused(notes, Note::Usage),
        Err(Usage::Memory) => refused(notes, Note::Memory),
    }
}

/// Does what an order says: on threads, or by the calling thread alone where none turns a core.
fn serve_order<T: Threads + Wait + Clock + Sync, O: Outside, K: Sink, N: Sink, G: Gate + Sync>(
    alloc: Global,
    order: &Order,
    parties: &Parties<'_, T, G>,
    outside: &mut O,
    out: &mut K,
    notes: &mut N,
) -> Served
    requires ranges { IsInRange order.now }
    requires roles { NoneBegun (O.state outside.old) }
    ensures serves { Serves result.status (Some (asked_by order.now))
        (call (O.under outside.old) (O.state outside.old) (O.state outside.new) (K.told out.old) (K.told out.new)
        (K.faults out.old) (K.faults out.new)) (N.told notes.old) (N.told notes.new) (N.refusals notes.old) (N.refusals notes.new) }
    ensures ran { result.status ≢ 6 → (IsSome result.ran ↔ CameToJoin (crew_of order.now) result.status (O.state outside.new)) }
    ensures shows { IfSome result.ran (ShowsRun (Some order.now) result.status
        (call (O.under outside.old) (O.state outside.old) (O.state outside.new) (K.told out.old) (K.told out.new)
        (K.faults out.old) (K.faults out.new))) }
{
    match OrderPlan::of(order) {
        OrderPlan::Alone(asked) => Served {
            status: serve_serial(alloc, asked, outside, out, notes, parties.gate),
            ran: None,
        },
        OrderPlan::Threads(asked, size) => {
            let plan = CrewPlan {
                rt: parties.rt,
                size,
                kept: size.kept(parties.rt),
                takes_back: false,
                gate: parties.gate,
            };
            let ended = run_on_threads(alloc, asked, &plan, outside, out);
            Served {
                status: report(notes, ended.end),
                ran: ended.ran,
            }
        }
        OrderPlan::Trace(join, plan) => Served {
            status: report(notes, trace_join(alloc, join, plan, outside, out)),
            ran: None,
        },
        OrderPlan::Verify(check) => Served {
            status: report(notes, check_trace(alloc, check, outside)),
            ran: None,
        },
        OrderPlan::Twice(joins, plan) => Served {
            status: report(
                notes,
                join_in_row(alloc, joins, &mode_of(plan, parties), outside, out),
            ),
            ran: None,
        },
    }
}

/// Runs an order on threads, by a plan.
fn run_on_threads<T: Threads + Wait + Clock + Sync, O: Outside, K: Sink, G: Gate + Sync>(
    alloc: Global,
    order: ThreadsOrder<'_>,
    plan: &CrewPlan<'_, T, G>,
    outside: &mut O,
    out: &mut K,
) -> OrderEnd
    requires roles { NoneBegun (O.state outside.old) }
    ensures { RunsOnCrew (crew_seen plan.now.size) result (asked_threads order.entry)
        (call (O.under outside.old) (O.state outside.old) (O.state outside.new) (K.told out.old) (K.told out.new)
        (K.faults out.old) (K.faults out.new)) }
{
    match order {
        ThreadsOrder::Join(join, writing) => {
            join_on_threads(alloc, join, writing, plan, outside, out)
        }
        ThreadsOrder::Gen(recipe) => generate(alloc, recipe, plan, out),
    }
}

/// Writes the note that says why no order was read.
fn refused<N: Sink>(notes: &mut N, note: Note) -> Served
    ensures status { result.status ≡ status_of note }
    ensures no_run { result.ran ≡ None }
    ensures note { NoteWritten (note_text note) (N.told notes.old) (N.told notes.new) (N.refusals notes.old) (N.refusals notes.new) }
{
    Served {
        status: report(notes, Err(note)),
        ran: None,
    }
}
