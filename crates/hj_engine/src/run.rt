ghost use Rattle.std.specs.Prelude.{◌≡◌, IfOk, OnErr};
ghost use Rattle.hj_msg.specs.Feed.{IsFresh};
ghost use Rattle.hj_eval.specs.Holds.{holds};
ghost use Rattle.hj_msg.specs.RunsJoin.{RunsJoin};
ghost use Rattle.hj_chain.specs.Steps.{GoesWith};
ghost use Rattle.hj_engine.specs.Running.{IsBegunChain};
ghost use Rattle.hj_stores.specs.Stores.{AreReady, AreReadyFor};

use hj_base::{ChainSize, Gate, Memory};
use hj_chain::{Chain, Chooser};
use hj_eval::{QueryJoin, ReadyQuery};
use hj_msg::{Drain, Feed, Fin, Store};
use hj_query::Query;
use hj_sequential::SequentialJoin;
use hj_stores::{ChainStores, PlannedStores, planned_stores};
use hj_value::SharedRow;
use std::alloc::Global;

/// Says how a join is run on a serial chain.
#[derive(Drop)]
pub struct SerialPlan<'g, G> {
    pub size: ChainSize,
    /// The order of the steps.
    pub chooser: Chooser,
    /// Is passed before each step of a core. One core alone makes a step for each event.
    pub gate: &'g G,
}

/// Runs a join between a feed that gave no event yet and a drain.
pub(crate) fn run_chain<F: Feed<SharedRow>, D: Drain<SharedRow>, G: Gate>(
    alloc: Global,
    query: &Query,
    plan: &SerialPlan<'_, G>,
    feed: &mut F,
    drain: &mut D,
) -> Fin
    requires { IsFresh (F.state feed.old) }
    ensures { RunsJoin F.gives F.state D.takes (holds query.now) result feed.old feed.new drain.old drain.new }
{
    match run_planned(alloc, query, plan, feed, drain) {
        Ok(fin) => fin,
        Err(Memory) => Fin::Memory,
    }
}

/// Runs a join, with stores of the kind that the query's condition asks for. Where memory runs out before it begins, neither the
/// feed nor the drain was asked.
fn run_planned<F: Feed<SharedRow>, D: Drain<SharedRow>, G: Gate>(
    alloc: Global,
    query: &Query,
    plan: &SerialPlan<'_, G>,
    feed: &mut F,
    drain: &mut D,
) -> Result<Fin, Memory>
    requires { IsFresh (F.state feed.old) }
    ensures runs { IfOk result (λ fin. RunsJoin F.gives F.state D.takes (holds query.now) fin feed.old feed.new drain.old drain.new) }
    ensures refused { OnErr result ((feed.new ≡ feed.old) × (drain.new ≡ drain.old)) }
{
    let ready = ReadyQuery::new(alloc, query)?;
    let stores = planned_stores(alloc, query, plan.size.cores)?;
    run_kind(alloc, &ready, plan, stores, feed, drain)
}

/// Runs the join over planned stores, of whichever kind they are.
fn run_kind<F: Feed<SharedRow>, D: Drain<SharedRow>, G: Gate>(
    alloc: Global,
    query: &ReadyQuery<'_>,
    plan: &SerialPlan<'_, G>,
    stores: PlannedStores<'_>,
    feed: &mut F,
    drain: &mut D,
) -> Result<Fin, Memory>
    requires fresh { IsFresh (F.state feed.old) }
    requires stores { AreReadyFor query.now plan.now.size.cores stores }
    ensures runs { IfOk result (λ fin. RunsJoin F.gives F.state D.takes (holds query.now) fin feed.old feed.new drain.old drain.new) }
    ensures refused { OnErr result ((feed.new ≡ feed.old) × (drain.new ≡ drain.old)) }
{
    match stores {
        PlannedStores::Hash(stores) => run_over(alloc, query, plan, stores, feed, drain),
        PlannedStores::Ordered(stores) => run_over(alloc, query, plan, stores, feed, drain),
        PlannedStores::Columns(stores) => run_over(alloc, query, plan, stores, feed, drain),
        PlannedStores::List(stores) => run_over(alloc, query, plan, stores, feed, drain),
    }
}

/// Runs the join over these stores: sequentially where there is one core and no other order of steps to play, else by a new chain.
// Called for each kind of stores, so that the loops of chains are compiled one by one.
#[inline(never)]
fn run_over<
    'r,
    'q,
    S: Store<SharedRow, QueryJoin<'r>> + Drop,
    F: Feed<SharedRow>,
    D: Drain<SharedRow>,
    G: Gate,
>(
    alloc: Global,
    query: &'r ReadyQuery<'q>,
    plan: &SerialPlan<'_, G>,
    stores: ChainStores<S>,
    feed: &mut F,
    drain: &mut D,
) -> Result<Fin, Memory>
    requires fresh { IsFresh (F.state feed.old) }
    requires stores { AreReady S.entries S.suits query.now plan.now.size.cores stores }
    ensures runs { IfOk result (λ fin. RunsJoin F.gives F.state D.takes (holds query.now) fin feed.old feed.new drain.old drain.new) }
    ensures refused { OnErr result ((feed.new ≡ feed.old) × (drain.new ≡ drain.old)) }
{
    if plan.size.cores == 1 && matches!(plan.chooser, Chooser::InTurn) {
        return Ok(run_sequential(alloc, query, stores, feed, drain, plan.gate));
    }
    let mut chain = begun(alloc, query, plan.size, stores, feed)?;
    let fin = chain.run_serial(plan.chooser, feed, drain, plan.gate);
    // Dropped by a call, which is one step here; let go at the end of the function, it is compiled and proved leaf by leaf.
    drop(chain);
    Ok(fin)
}

/// Runs the sequential join over the only store of each stream.
// Called, so that its loop isn't compiled with that of a chain.
#[inline(never)]
fn run_sequential<
    'r,
    'q,
    S: Store<SharedRow, QueryJoin<'r>> + Drop,
    F: Feed<SharedRow>,
    D: Drain<SharedRow>,
    G: Gate,
>(
    alloc: Global,
    query: &'r ReadyQuery<'q>,
    mut stores: ChainStores<S>,
    feed: &mut F,
    drain: &mut D,
    gate: &G,
) -> Fin
    requires fresh { IsFresh (F.state feed.old) }
    requires stores { AreReady S.entries S.suits query.now 1 stores }
    ensures { RunsJoin F.gives F.state D.takes (holds query.now) result feed.old feed.new drain.old drain.new }
{
    let (Some(left), Some(right)) = (stores.left.pop(), stores.right.pop()) else {
        unreachable!()
    };
    let mut join = SequentialJoin {
        join: QueryJoin::new(query),
        left,
        right,
    };
    join.run(alloc, feed, drain, gate)
}

/// Makes a chain of this size over these stores, and asks the feed for the first event.
fn begun<'r, 'q, S: Store<SharedRow, QueryJoin<'r>> + Drop, F: Feed<SharedRow>>(
    alloc: Global,
    query: &'r ReadyQuery<'q>,
    size: ChainSize,
    stores: ChainStores<S>,
    feed: &mut F,
) -> Result<Chain<SharedRow, QueryJoin<'r>, S>, Memory>
    requires fresh { IsFresh (F.state feed.old) }
    requires stores { AreReady S.entries S.suits query.now size.cores stores }
    ensures begun { IfOk result (λ chain. IsBegunChain F.gives query.now chain feed.old feed.new) }
    ensures goes { IfOk result (λ chain. GoesWith holds chain (F.state feed.new)) }
    ensures refused { OnErr result (feed.new ≡ feed.old) }
{
    let join = QueryJoin::new(query);
    Chain::new(alloc, join, stores.left, stores.right, size.flight, feed)
}
