ghost use Rattle.std.specs.Prelude.{◌≡◌, ◌≢◌, None, false, List, ℕ, IfOk, OnErr};
ghost use Rattle.hj_base.specs.declared.output.Sent.TheVariants as sending;
ghost use Rattle.hj_base.specs.Output.{CountsFaults};
ghost use Rattle.hj_base.specs.Outside.{NamesStay};
ghost use Rattle.hj_base.specs.declared.outside.Role.TheVariants as role;
ghost use Rattle.hj_msg.specs.Feed.{IsFresh};
ghost use Rattle.hj_eval.specs.Holds.{holds};
ghost use Rattle.hj_event.specs.Merger.{IsNewMerger};
ghost use Rattle.hj_event.specs.Roles.{IsInStep};
ghost use Rattle.hj_stream.specs.Ends.{IsUnasked};
ghost use Rattle.hj_stream.specs.Joining.{CountsSinkFault};
ghost use Rattle.hj_stores.specs.Stores.{AreReady};
ghost use Rattle.hj_replay.specs.Feeds.{roles_of, state_of};
ghost use Rattle.hj_replay.specs.Tracing.{WritesTrace};
ghost use Rattle.hj_replay.specs.Writing.{Makes, WritesRun};

use crate::lines::write_lines;
use crate::{AlwaysReady, TracePlan};
use hj_base::{Memory, Outside, Sent, Sink};
use hj_chain::Chain;
use hj_eval::{QueryJoin, ReadyQuery};
use hj_event::Merger;
use hj_msg::Store;
use hj_query::Query;
use hj_stores::{ChainStores, PlannedStores, planned_stores};
use hj_stream::{EventFeed, Outcome};
use hj_value::SharedRow;
use std::alloc::Global;

/// Writes the trace of a join's run to `out`: of the streams Left and Right of `outside` under a query, on the serial chain and in the
/// order that `plan` says, the line of each step as it is made. At most `limit` events are numbered. The next event counts as there in
/// each step, so no step waits for one. The rows that live are kept, and no more of the trace than one line. `Outcome` says why the
/// trace ended, as of a join.
pub fn write_trace<O: Outside, K: Sink>(
    alloc: Global,
    query: &Query,
    plan: TracePlan,
    limit: u64,
    outside: &mut O,
    out: &mut K,
) -> Outcome
    requires left { IsInStep false (O.state outside.old role.Left) }
    requires right { IsInStep false (O.state outside.old role.Right) }
    ensures writes { WritesTrace result query.now plan.size.cores plan.size.flight plan.chooser limit
        (O.state outside.old) (O.state outside.new) (K.told out.old) (K.told out.new) }
    ensures faults { CountsSinkFault result (K.faults out.old) (K.faults out.new) }
    ensures names { NamesStay (O.under outside.old) (O.under outside.new) }
{
    let Ok(mut merger) = Merger::new(alloc, query, limit) else {
        return Outcome::Memory;
    };
    let outcome = trace_merged(alloc, query, plan, limit, &mut merger, outside, out);
    // Dropped by a call, so that how its parts are let go is proved once for its type.
    drop(merger);
    outcome
}

/// Writes the trace of the events of a new merger.
fn trace_merged<O: Outside, K: Sink>(
    alloc: Global,
    query: &Query,
    plan: TracePlan,
    limit: u64,
    merger: &mut Merger,
    outside: &mut O,
    out: &mut K,
) -> Outcome
    requires merger { IsNewMerger query.now limit merger.old }
    requires left { IsInStep false (O.state outside.old role.Left) }
    requires right { IsInStep false (O.state outside.old role.Right) }
    ensures writes { WritesTrace result query.now plan.size.cores plan.size.flight plan.chooser limit
        (O.state outside.old) (O.state outside.new) (K.told out.old) (K.told out.new) }
    ensures faults { CountsSinkFault result (K.faults out.old) (K.faults out.new) }
    ensures names { NamesStay (O.under outside.old) (O.under outside.new) }
{
    let events = EventFeed::new(merger, limit, outside);
    let mut feed = AlwaysReady { feed: events };
    trace_feed(alloc, query, plan, &mut feed, out)
}

/// Writes the trace of the events of a feed that gave none yet.
fn trace_feed<O: Outside, K: Sink>(
    alloc: Global,
    query: &Query,
    plan: TracePlan,
    feed: &mut AlwaysReady<'_, O>,
    out: &mut K,
) -> Outcome
    requires { (limit : ℕ) × IsUnasked query.now limit feed.old.feed }
    ensures same_outside { feed.new.feed.outside.ghost_name ≡ feed.old.feed.outside.ghost_name }
    ensures names { NamesStay (O.under feed.old.feed.outside.now) (O.under feed.new.feed.outside.now) }
    ensures writes { (limit : ℕ) → IsUnasked query.now limit feed.old.feed
        → WritesTrace result query.now plan.size.cores plan.size.flight plan.chooser limit
        (roles_of feed.old) (roles_of feed.new) (K.told out.old) (K.told out.new) }
    ensures faults { CountsSinkFault result (K.faults out.old) (K.faults out.new) }
{
    let Ok(sent) = trace_run(alloc, query, plan, feed, out) else {
        return Outcome::Memory;
    };
    outcome_of(sent, feed)
}

/// Returns the outcome of a trace whose lines were sent so.
fn outcome_of<O: Outside>(sent: Sent, feed: &AlwaysReady<'_, O>) -> Outcome
    requires { sent ≡ sending.Whole → feed.now.feed.ended ≢ None }
    ensures { Makes sent feed.now.feed.ended result }
{
    match sent {
        Sent::Whole => {
            let Some(outcome) = feed.feed.ended() else {
                unreachable!();
            };
            outcome
        }
        Sent::Failed => Outcome::SinkFault,
        Sent::Memory => Outcome::Memory,
    }
}

/// Writes the lines of the steps of a new chain under a query. Where memory runs out before there is a chain, the feed wasn't asked,
/// and nothing was written.
fn trace_run<O: Outside, K: Sink>(
    alloc: Global,
    query: &Query,
    plan: TracePlan,
    feed: &mut AlwaysReady<'_, O>,
    out: &mut K,
) -> Result<Sent, Memory>
    requires { IsFresh (state_of feed.old) }
    ensures writes { IfOk result (λ sent. WritesRun (holds query.now) plan.chooser plan.size.cores plan.size.flight sent
        feed.old feed.new (K.told out.old) (K.told out.new)) }
    ensures faults { IfOk result (λ sent. CountsFaults sent (K.faults out.old) (K.faults out.new)) }
    ensures refused { OnErr result ((feed.new ≡ feed.old) × (out.new ≡ out.old)) }
{
    let ready = ReadyQuery::new(alloc, query)?;
    trace_planned(alloc, query, &ready, plan, feed, out)
}

/// Writes them under a query that is ready, with stores of the kind that its condition asks for.
fn trace_planned<'q, O: Outside, K: Sink>(
    alloc: Global,
    query: &Query,
    ready: &ReadyQuery<'q>,
    plan: TracePlan,
    feed: &mut AlwaysReady<'_, O>,
    out: &mut K,
) -> Result<Sent, Memory>
    requires ready { ready.now ≡ query.now }
    requires fresh { IsFresh (state_of feed.old) }
    ensures writes { IfOk result (λ sent. WritesRun (holds query.now) plan.chooser plan.size.cores plan.size.flight sent
        feed.old feed.new (K.told out.old) (K.told out.new)) }
    ensures faults { IfOk result (λ sent. CountsFaults sent (K.faults out.old) (K.faults out.new)) }
    ensures refused { OnErr result ((feed.new ≡ feed.old) × (out.new ≡ out.old)) }
{
    match planned_stores(alloc, query, plan.size.cores)? {
        PlannedStores::Hash(stores) => trace_over(alloc, ready, plan, stores, feed, out),
        PlannedStores::Ordered(stores) => trace_over(alloc, ready, plan, stores, feed, out),
        PlannedStores::Columns(stores) => trace_over(alloc, ready, plan, stores, feed, out),
        PlannedStores::List(stores) => trace_over(alloc, ready, plan, stores, feed, out),
    }
}

/// Writes the lines of the steps of a new chain over these stores.
fn trace_over<'r, 'q, S: Store<SharedRow, QueryJoin<'r>> + Drop, O: Outside, K: Sink>(
    alloc: Global,
    query: &'r ReadyQuery<'q>,
    plan: TracePlan,
    stores: ChainStores<S>,
    feed: &mut AlwaysReady<'_, O>,
    out: &mut K,
) -> Result<Sent, Memory>
    requires fresh { IsFresh (state_of feed.old) }
    requires stores { AreReady S.entries S.suits query.now plan.size.cores stores }
    ensures writes { IfOk result (λ sent. WritesRun (holds query.now) plan.chooser plan.size.cores plan.size.flight sent
        feed.old feed.new (K.told out.old) (K.told out.new)) }
    ensures faults { IfOk result (λ sent. CountsFaults sent (K.faults out.old) (K.faults out.new)) }
    ensures refused { OnErr result ((feed.new ≡ feed.old) × (out.new ≡ out.old)) }
{
    let join = QueryJoin::new(query);
    let mut chain = Chain::new(
        alloc,
        join,
        stores.left,
        stores.right,
        plan.size.flight,
        feed,
    )?;
    let sent = write_lines(alloc, &mut chain, plan.chooser, feed, out);
    // Dropped by a call, so that how its parts are let go is proved once for its type.
    drop(chain);
    Ok(sent)
}
