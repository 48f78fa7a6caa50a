ghost use Rattle.std.specs.Prelude.{◌≡◌, false, ℕ, IfNone, IfSome};
ghost use Rattle.hj_base.specs.Outside.{NamesStay};
ghost use Rattle.hj_base.specs.declared.outside.Role.TheVariants as role;
ghost use Rattle.hj_event.specs.Merger.{IsNewMerger};
ghost use Rattle.hj_event.specs.Roles.{IsInStep};
ghost use Rattle.hj_stream.specs.Ends.{IsUnasked};
ghost use Rattle.hj_stream.specs.Joining.{CountsSinkFault};
ghost use Rattle.hj_stream.specs.RawJoining.{JoinsRaw};
ghost use Rattle.hj_engine.specs.ShowingRaw.{ShowsRaw};

use crate::crew::QueryRun;
use crate::ended::EndedJoin;
use hj_base::{Gate, Outside, Sink};
use hj_crew::{CrewPlan, Ran};
use hj_event::Merger;
use hj_query::Query;
use hj_stream::{EventFeed, Outcome, RawLineDrain, raw_outcome_of};
use hj_value::SharedRow;
use std::alloc::Global;
use std::sync::Wait;
use std::thread::Threads;
use std::time::Clock;

/// Joins the streams Left and Right of `outside` under a query on threads, as `join_threads` does, but writes the pairs to `out` as
/// they are met, in whatever order the cores' reports were taken: of each report its pairs, by ascending partner, each with the
/// numbers of both its rows in front, and then the mark up to which all pairs have come, if it is there and isn't what it was before.
/// A line is written as soon as its report was taken. The call waits for the threads.
///
/// - `plan` says how large the chain is, what starts the threads, and what is passed before each turn of a core. There are no more
///   threads than cores, and none has more than one core more than another.
/// - At most `limit` events are numbered.
///
/// `Outcome` says why the join ended, for the same reasons as that of `join_threads`. Beside it stands the run: the text is that of
/// the reports which this run took, and the run shows what it tells of the join. Each pair in it is one of the join's, and none stands
/// twice; before a mark stand all pairs whose later number is within it, and behind it none; the marks rise. Where the streams ended,
/// a record is refused, a read failed or the limit is reached, all pairs of the events before stand in it, the mark of all is last, and
/// all of it was written. There is no run only where memory ran out before a thread was started, so that nothing was read and
/// nothing written.
pub fn join_raw<T: Threads + Wait + Clock + Sync, O: Outside, K: Sink, G: Gate + Sync>(
    alloc: Global,
    query: &Query,
    plan: &CrewPlan<'_, T, G>,
    limit: u64,
    outside: &mut O,
    out: &mut K,
) -> (Outcome, Option<Ran<SharedRow>>)
    requires left { IsInStep false (O.state outside.old role.Left) }
    requires right { IsInStep false (O.state outside.old role.Right) }
    ensures joins { (joins : JoinsRaw result.0 query.now limit (O.state outside.old) (O.state outside.new)
        (K.told out.old) (K.told out.new)) × IfSome result.1 (ShowsRaw joins plan.now.size.chain.cores plan.now.size.chain.flight) }
    ensures no_run { IfNone result.1 (result.0 ≡ Outcome.Memory) }
    ensures untouched { IfNone result.1 ((O.state outside.new ≡ O.state outside.old) × (K.told out.new ≡ K.told out.old)) }
    ensures faults { CountsSinkFault result.0 (K.faults out.old) (K.faults out.new) }
    ensures names { NamesStay (O.under outside.old) (O.under outside.new) }
{
    let Ok(mut merger) = Merger::new(alloc, query, limit) else {
        return (Outcome::Memory, None);
    };
    let joined = join_merged(alloc, query, plan, limit, &mut merger, outside, out);
    // Dropped by a call, which is one step here; let go at the end of the function, it is compiled and proved leaf by leaf.
    drop(merger);
    joined
}

/// Joins the events of a new merger.
fn join_merged<T: Threads + Wait + Clock + Sync, O: Outside, K: Sink, G: Gate + Sync>(
    alloc: Global,
    query: &Query,
    plan: &CrewPlan<'_, T, G>,
    limit: u64,
    merger: &mut Merger,
    outside: &mut O,
    out: &mut K,
) -> (Outcome, Option<Ran<SharedRow>>)
    requires merger { IsNewMerger query.now limit merger.old }
    requires left { IsInStep false (O.state outside.old role.Left) }
    requires right { IsInStep false (O.state outside.old role.Right) }
    ensures joins { (joins : JoinsRaw result.0 query.now limit (O.state outside.old) (O.state outside.new)
        (K.told out.old) (K.told out.new)) × IfSome result.1 (ShowsRaw joins plan.now.size.chain.cores plan.now.size.chain.flight) }
    ensures no_run { IfNone result.1 (result.0 ≡ Outcome.Memory) }
    ensures untouched { IfNone result.1 ((O.state outside.new ≡ O.state outside.old) × (K.told out.new ≡ K.told out.old)) }
    ensures faults { CountsSinkFault result.0 (K.faults out.old) (K.faults out.new) }
    ensures names { NamesStay (O.under outside.old) (O.under outside.new) }
{
    let feed = EventFeed::new(merger, limit, outside);
    let mut line = Vec::new(alloc);
    let drain = RawLineDrain::new(out, &mut line);
    let mut ran = None;
    let joined = join_feed(alloc, query, plan, feed, drain, &mut ran);
    (joined.ended, ran)
}

/// Joins the events of a feed that gave none yet, writes the pairs as they are met, and leaves the run in `ran`.
// The run stands apart, since what the feed and the drain leave behind their references is known only where nothing that owns
// memory is dropped with them.
fn join_feed<'f, 'd, T: Threads + Wait + Clock + Sync, O: Outside, K: Sink, G: Gate + Sync>(
    alloc: Global,
    query: &Query,
    plan: &CrewPlan<'_, T, G>,
    feed: EventFeed<'f, O>,
    drain: RawLineDrain<'d, K>,
    ran: &mut Option<Ran<SharedRow>>,
) -> EndedJoin<'f, O, RawLineDrain<'d, K>>
    requires unasked { (limit : ℕ) × IsUnasked query.now limit feed }
    ensures same_outside { result.feed.outside.ghost_name ≡ feed.entry.outside.ghost_name }
    ensures same_out { result.drain.out.ghost_name ≡ drain.entry.out.ghost_name }
    ensures joins { (limit : ℕ) → IsUnasked query.now limit feed.entry
        → (joins : JoinsRaw result.ended query.now limit
        (O.state feed.entry.outside.now) (O.state result.feed.outside.now)
        (K.told drain.entry.out.now) (K.told result.drain.out.now))
        × IfSome ran.new (ShowsRaw joins plan.now.size.chain.cores plan.now.size.chain.flight) }
    ensures no_run { IfNone ran.new (result.ended ≡ Outcome.Memory) }
    ensures untouched { IfNone ran.new ((O.state result.feed.outside.now ≡ O.state feed.entry.outside.now)
        × (K.told result.drain.out.now ≡ K.told drain.entry.out.now)) }
    ensures faults { CountsSinkFault result.ended (K.faults drain.entry.out.now) (K.faults result.drain.out.now) }
    ensures names { NamesStay (O.under feed.entry.outside.now) (O.under result.feed.outside.now) }
{
    let run = QueryRun { alloc, query, plan };
    let (result, feed, drain) = run.run_raw(feed, drain);
    let Ok(made) = result else {
        *ran = None;
        let ended = Outcome::Memory;
        return EndedJoin { ended, feed, drain };
    };
    let ended = raw_outcome_of(made.fin(), &feed, &drain);
    *ran = Some(made);
    EndedJoin { ended, feed, drain }
}
