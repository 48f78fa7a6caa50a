ghost use Rattle.std.specs.Prelude.{◌≡◌, IfOk, OnErr};
ghost use Rattle.hj_msg.specs.Feed.{IsFresh};
ghost use Rattle.hj_eval.specs.Holds.{holds};
ghost use Rattle.hj_crew.specs.Ran.{RunsOnThreads};
ghost use Rattle.hj_crew.specs.RanRaw.{RunsRaw};
ghost use Rattle.hj_crew.specs.RunsCrew.{RunsCrew};
ghost use Rattle.hj_stores.specs.Stores.{AreReady, AreReadyFor};

use hj_base::{Gate, Memory};
use hj_crew::{CrewPlan, JoinInput, Ran, Stores};
use hj_desk::{OrderedOutlet, Outlet, RawOutlet};
use hj_eval::{QueryJoin, ReadyQuery};
use hj_msg::{Drain, Feed, Join, Store};
use hj_query::Query;
use hj_raw::RawDrain;
use hj_stores::{ChainStores, PlannedStores, planned_stores};
use hj_value::SharedRow;
use std::alloc::Global;
use std::sync::Wait;
use std::thread::Threads;
use std::time::Clock;

/// A run of a new chain on threads under a query.
#[derive(Drop)]
pub(crate) struct QueryRun<'q, 'p, 'r, T, G> {
    pub(crate) alloc: Global,
    pub(crate) query: &'q Query,
    pub(crate) plan: &'p CrewPlan<'r, T, G>,
}

impl<T: Threads + Wait + Clock + Sync, G: Gate + Sync> QueryRun<'_, '_, '_, T, G> {
    /// Runs the chain between a feed that gave no event yet and a drain of pairs. Both are handed back. Where memory runs out before a
    /// thread is started, neither was asked.
    pub(crate) fn run_in_order<F: Feed<SharedRow> + Drop, D: Drain<SharedRow> + Drop>(
        &self,
        feed: F,
        drain: D,
    ) -> (Result<Ran<SharedRow>, Memory>, F, D)
        requires { IsFresh (F.state feed) }
        ensures runs { IfOk result.0 (RunsOnThreads F.gives F.state D.takes (holds self.now.query.now)
            self.now.plan.now.size.chain.cores self.now.plan.now.size.chain.flight feed result.1 drain result.2) }
        ensures refused { OnErr result.0 ((result.1 ≡ feed) × (result.2 ≡ drain)) }
    {
        let outlet = OrderedOutlet::new(self.alloc, drain);
        let (ran, feed, outlet) = self.run_between(feed, outlet);
        (ran, feed, outlet.drain)
    }

    /// Does the same with a drain of raw items.
    pub(crate) fn run_raw<F: Feed<SharedRow> + Drop, D: RawDrain<SharedRow> + Drop>(
        &self,
        feed: F,
        drain: D,
    ) -> (Result<Ran<SharedRow>, Memory>, F, D)
        requires { IsFresh (F.state feed) }
        ensures runs { IfOk result.0 (RunsRaw F.gives F.state D.takes (holds self.now.query.now)
            self.now.plan.now.size.chain.cores self.now.plan.now.size.chain.flight feed result.1 drain result.2) }
        ensures refused { OnErr result.0 ((result.1 ≡ feed) × (result.2 ≡ drain)) }
    {
        let outlet = RawOutlet::new(self.alloc, drain);
        let (ran, feed, outlet) = self.run_between(feed, outlet);
        (ran, feed, outlet.drain)
    }

    /// Runs the chain, with stores of the kind that the query's condition asks for, between a feed that gave no event yet and an
    /// outlet.
    fn run_between<F: Feed<SharedRow> + Drop, O: Outlet<SharedRow> + Drop>(
        &self,
        feed: F,
        outlet: O,
    ) -> (Result<Ran<SharedRow>, Memory>, F, O)
        requires { IsFresh (F.state feed) }
        ensures runs { IfOk result.0 (RunsCrew F.gives F.state O.gave O.rests (holds self.now.query.now)
            self.now.plan.now.size.chain.cores self.now.plan.now.size.chain.flight feed result.1 outlet result.2) }
        ensures refused { OnErr result.0 ((result.1 ≡ feed) × (result.2 ≡ outlet)) }
    {
        let Ok(ready) = ReadyQuery::new(self.alloc, self.query) else {
            return (Err(Memory), feed, outlet);
        };
        let Ok(stores) = planned_stores(self.alloc, self.query, self.plan.size.chain.cores) else {
            return (Err(Memory), feed, outlet);
        };
        self.run_kind(&ready, stores, feed, outlet)
    }

    /// Runs the chain over planned stores, which the query's join may probe.
    fn run_kind<F: Feed<SharedRow> + Drop, O: Outlet<SharedRow> + Drop>(
        &self,
        ready: &ReadyQuery<'_>,
        stores: PlannedStores<'_>,
        feed: F,
        outlet: O,
    ) -> (Result<Ran<SharedRow>, Memory>, F, O)
        requires fresh { IsFresh (F.state feed) }
        requires ready { ready.now ≡ self.now.query.now }
        requires stores { AreReadyFor self.now.query.now self.now.plan.now.size.chain.cores stores }
        ensures runs { IfOk result.0 (RunsCrew F.gives F.state O.gave O.rests (holds self.now.query.now)
            self.now.plan.now.size.chain.cores self.now.plan.now.size.chain.flight feed result.1 outlet result.2) }
        ensures refused { OnErr result.0 ((result.1 ≡ feed) × (result.2 ≡ outlet)) }
    {
        let join = QueryJoin::new(ready);
        // for stores of which a probe looks at few rows
        let light = self.plan.for_light_cores();
        match stores {
            PlannedStores::Hash(stores) => run_over(
                self.alloc, &light, &join, stores, feed, outlet,
            ),
            PlannedStores::Ordered(stores) => run_over(
                self.alloc, &light, &join, stores, feed, outlet,
            ),
            PlannedStores::Columns(stores) => run_over(
                self.alloc, self.plan, &join, stores, feed, outlet,
            ),
            PlannedStores::List(stores) => run_over(
                self.alloc, self.plan, &join, stores, feed, outlet,
            ),
        }
    }
}

/// Runs a new chain on threads over these stores, which may be probed by the join.
#[tactic(auto, using(crate::proofs::Begins::may_begin))]
fn run_over<
    J: Join<SharedRow> + Send + Drop,
    S: Store<SharedRow, J> + Send + Drop,
    T: Threads + Wait + Clock + Sync,
    F: Feed<SharedRow> + Drop,
    O: Outlet<SharedRow> + Drop,
    G: Gate + Sync,
>(
    alloc: Global,
    plan: &CrewPlan<'_, T, G>,
    join: &J,
    stores: ChainStores<S>,
    feed: F,
    outlet: O,
) -> (Result<Ran<SharedRow>, Memory>, F, O)
    requires fresh { IsFresh (F.state feed) }
    requires stores { AreReady S.entries S.suits join.now plan.now.size.chain.cores stores }
    ensures runs { IfOk result.0 (RunsCrew F.gives F.state O.gave O.rests (J.predicate join.now) plan.now.size.chain.cores plan.now.size.chain.flight feed result.1 outlet result.2) }
    ensures refused { OnErr result.0 ((result.1 ≡ feed) × (result.2 ≡ outlet)) }
{
    let input = JoinInput {
        join,
        stores: Stores {
            left: stores.left,
            right: stores.right,
        },
        feed,
    };
    plan.run_between(alloc, input, outlet)
}
