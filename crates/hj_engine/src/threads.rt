ghost use Rattle.std.specs.Prelude.{◌≡◌, false, ℕ, IfNone, IfSome};
ghost use Rattle.hj_base.specs.Outside.{NamesStay};
ghost use Rattle.hj_base.specs.declared.outside.Role.TheVariants as role;
ghost use Rattle.hj_event.specs.Merger.{IsNewMerger};
ghost use Rattle.hj_event.specs.Roles.{IsInStep};
ghost use Rattle.hj_stream.specs.Ends.{IsUnasked};
ghost use Rattle.hj_stream.specs.Joining.{CountsSinkFault, Joins, JoinsBy};
ghost use Rattle.hj_engine.specs.Showing.{ShowsJoin, ShowsJoinBy};

use crate::crew::QueryRun;
use crate::ended::EndedJoin;
use crate::lines::LineJoin;
use hj_base::{Gate, Outside, Sink};
use hj_crew::{CrewPlan, Ran};
use hj_event::Merger;
use hj_query::Query;
use hj_stream::{EventFeed, JoinedLine, LineDrain, Outcome, PairLine, outcome_of};
use hj_value::SharedRow;
use std::alloc::Global;
use std::sync::Wait;
use std::thread::Threads;
use std::time::Clock;

/// Joins the streams Left and Right of `outside` under a query, as `join_serial` does, and writes the same text to `out`; but the
/// cores of the chain are turned by threads. The call waits for them.
///
/// - `plan` says how large the chain is, what starts the threads, and what is passed before each turn of a core. There are no more
///   threads than cores, and none has more than one core more than another.
/// - At most `limit` events are numbered.
///
/// `Outcome` says why the join ended. Beside it stands the run, whose journals show that it made the join; there is none only where
/// memory ran out before a thread was started, so that nothing was read and nothing written.
pub fn join_threads<T: Threads + Wait + Clock + Sync, O: Outside, K: Sink, G: Gate + Sync>(
    alloc: Global,
    query: &Query,
    plan: &CrewPlan<'_, T, G>,
    limit: u64,
    outside: &mut O,
    out: &mut K,
) -> (Outcome, Option<Ran<SharedRow>>)
    requires left { IsInStep false (O.state outside.old role.Left) }
    requires right { IsInStep false (O.state outside.old role.Right) }
    ensures joins { (joins : Joins result.0 query.now limit (O.state outside.old) (O.state outside.new)
        (K.told out.old) (K.told out.new)) × IfSome result.1 (ShowsJoin joins plan.now.size.chain.cores plan.now.size.chain.flight) }
    ensures no_run { IfNone result.1 (result.0 ≡ Outcome.Memory) }
    ensures untouched { IfNone result.1 ((O.state outside.new ≡ O.state outside.old) × (K.told out.new ≡ K.told out.old)) }
    ensures faults { CountsSinkFault result.0 (K.faults out.old) (K.faults out.new) }
    ensures names { NamesStay (O.under outside.old) (O.under outside.new) }
{
    let join = LineJoin {
        query,
        limit,
        lines: &JoinedLine,
    };
    join_threads_by(alloc, &join, plan, outside, out)
}

/// Joins the streams Left and Right of `outside` as `join_threads` does, but writes for each pair the line that `join` says.
pub fn join_threads_by<
    L: PairLine,
    T: Threads + Wait + Clock + Sync,
    O: Outside,
    K: Sink,
    G: Gate + Sync,
>(
    alloc: Global,
    join: &LineJoin<'_, L>,
    plan: &CrewPlan<'_, T, G>,
    outside: &mut O,
    out: &mut K,
) -> (Outcome, Option<Ran<SharedRow>>)
    requires left { IsInStep false (O.state outside.old role.Left) }
    requires right { IsInStep false (O.state outside.old role.Right) }
    ensures joins { (joins : JoinsBy (L.line join.now.lines.now) result.0 join.now.query.now join.now.limit (O.state outside.old) (O.state outside.new)
        (K.told out.old) (K.told out.new)) × IfSome result.1 (ShowsJoinBy (L.line join.now.lines.now) joins plan.now.size.chain.cores plan.now.size.chain.flight) }
    ensures no_run { IfNone result.1 (result.0 ≡ Outcome.Memory) }
    ensures untouched { IfNone result.1 ((O.state outside.new ≡ O.state outside.old) × (K.told out.new ≡ K.told out.old)) }
    ensures faults { CountsSinkFault result.0 (K.faults out.old) (K.faults out.new) }
    ensures names { NamesStay (O.under outside.old) (O.under outside.new) }
{
    let Ok(mut merger) = Merger::new(alloc, join.query, join.limit) else {
        return (Outcome::Memory, None);
    };
    let joined = join_merged(alloc, join, plan, &mut merger, outside, out);
    // Dropped by a call, which is one step here; let go at the end of the function, it is compiled and proved leaf by leaf.
    drop(merger);
    joined
}

/// Joins the events of a new merger.
fn join_merged<L: PairLine, T: Threads + Wait + Clock + Sync, O: Outside, K: Sink, G: Gate + Sync>(
    alloc: Global,
    join: &LineJoin<'_, L>,
    plan: &CrewPlan<'_, T, G>,
    merger: &mut Merger,
    outside: &mut O,
    out: &mut K,
) -> (Outcome, Option<Ran<SharedRow>>)
    requires merger { IsNewMerger join.now.query.now join.now.limit merger.old }
    requires left { IsInStep false (O.state outside.old role.Left) }
    requires right { IsInStep false (O.state outside.old role.Right) }
    ensures joins { (joins : JoinsBy (L.line join.now.lines.now) result.0 join.now.query.now join.now.limit (O.state outside.old) (O.state outside.new)
        (K.told out.old) (K.told out.new)) × IfSome result.1 (ShowsJoinBy (L.line join.now.lines.now) joins plan.now.size.chain.cores plan.now.size.chain.flight) }
    ensures no_run { IfNone result.1 (result.0 ≡ Outcome.Memory) }
    ensures untouched { IfNone result.1 ((O.state outside.new ≡ O.state outside.old) × (K.told out.new ≡ K.told out.old)) }
    ensures faults { CountsSinkFault result.0 (K.faults out.old) (K.faults out.new) }
    ensures names { NamesStay (O.under outside.old) (O.under outside.new) }
{
    let feed = EventFeed::new(merger, join.limit, outside);
    let mut line = Vec::new(alloc);
    let drain = LineDrain::new(out, join.lines, &mut line);
    let mut ran = None;
    let joined = join_feed(alloc, join.query, plan, feed, drain, &mut ran);
    (joined.ended, ran)
}

/// Joins the events of a feed that gave none yet, writes the line of each pair, and leaves the run in `ran`.
// The run stands apart, since what the feed and the drain leave behind their references is known only where nothing that owns
// memory is dropped with them.
fn join_feed<
    'f,
    'd,
    T: Threads + Wait + Clock + Sync,
    O: Outside,
    K: Sink,
    L: PairLine,
    G: Gate + Sync,
>(
    alloc: Global,
    query: &Query,
    plan: &CrewPlan<'_, T, G>,
    feed: EventFeed<'f, O>,
    drain: LineDrain<'d, K, L>,
    ran: &mut Option<Ran<SharedRow>>,
) -> EndedJoin<'f, O, LineDrain<'d, K, L>>
    requires unasked { (limit : ℕ) × IsUnasked query.now limit feed }
    ensures same_outside { result.feed.outside.ghost_name ≡ feed.entry.outside.ghost_name }
    ensures same_out { result.drain.out.ghost_name ≡ drain.entry.out.ghost_name }
    ensures joins { (limit : ℕ) → IsUnasked query.now limit feed.entry
        → (joins : JoinsBy (L.line drain.entry.lines.now) result.ended query.now limit
        (O.state feed.entry.outside.now) (O.state result.feed.outside.now)
        (K.told drain.entry.out.now) (K.told result.drain.out.now))
        × IfSome ran.new (ShowsJoinBy (L.line drain.entry.lines.now) joins plan.now.size.chain.cores plan.now.size.chain.flight) }
    ensures no_run { IfNone ran.new (result.ended ≡ Outcome.Memory) }
    ensures untouched { IfNone ran.new ((O.state result.feed.outside.now ≡ O.state feed.entry.outside.now)
        × (K.told result.drain.out.now ≡ K.told drain.entry.out.now)) }
    ensures faults { CountsSinkFault result.ended (K.faults drain.entry.out.now) (K.faults result.drain.out.now) }
    ensures names { NamesStay (O.under feed.entry.outside.now) (O.under result.feed.outside.now) }
{
    let run = QueryRun { alloc, query, plan };
    let (result, feed, drain) = run.run_in_order(feed, drain);
    let Ok(made) = result else {
        *ran = None;
        let ended = Outcome::Memory;
        return EndedJoin { ended, feed, drain };
    };
    let ended = outcome_of(made.fin(), &feed, &drain);
    *ran = Some(made);
    EndedJoin { ended, feed, drain }
}
