ghost use Rattle.std.specs.Prelude.{◌≡◌, ◌≢◌, ℕ, List, None, Some, false};
ghost use Rattle.hj_base.specs.Outside.{NamesStay};
ghost use Rattle.hj_base.specs.declared.outside.Role.TheVariants as role;
ghost use Rattle.hj_event.specs.Merger.{IsNewMerger};
ghost use Rattle.hj_event.specs.Roles.{IsInStep};
ghost use Rattle.hj_stream.specs.declared.outcome.Outcome.{Outcome as Outcomes};
ghost use Rattle.hj_stream.specs.Ends.{IsUnasked};
ghost use Rattle.hj_replay.specs.Feeds.{SameOutside, roles_of};
ghost use Rattle.hj_verify.specs.Checked.{ChecksRun, feeding};
ghost use Rattle.hj_verify.specs.Judged.{verdict_by};
ghost use Rattle.hj_verify.specs.Verifying.{Verifies};

use crate::Verdict;
use crate::run::check_over;
use hj_base::{ChainSize, Memory, Outside};
use hj_eval::ReadyQuery;
use hj_event::Merger;
use hj_query::Query;
use hj_replay::AlwaysReady;
use hj_stores::{PlannedStores, planned_stores};
use hj_stream::{EventFeed, Outcome};
use std::alloc::Global;

/// Checks a trace and an output, the streams Trace and Output of `outside`, against the join of the streams Left and Right under a
/// query, on a chain of this size and with at most `limit` events: it plays the steps that the trace's lines name one by one, and
/// compares each line with the step's and the output with the text of the join. The rows that live are kept, and no more of the trace
/// than one line. The verdict is what is wrong, where it comes first; or how the events have ended; or that a read failed, or that
/// memory ran out.
pub fn verify<O: Outside>(
    alloc: Global,
    query: &Query,
    size: ChainSize,
    limit: u64,
    outside: &mut O,
) -> Verdict
    requires left { IsInStep false (O.state outside.old role.Left) }
    requires right { IsInStep false (O.state outside.old role.Right) }
    requires trace { IsInStep false (O.state outside.old role.Trace) }
    requires output { IsInStep false (O.state outside.old role.Output) }
    ensures verifies { Verifies result query.now size.cores size.flight limit (O.state outside.old) (O.state outside.new) }
    ensures names { NamesStay (O.under outside.old) (O.under outside.new) }
{
    let Ok(mut merger) = Merger::new(alloc, query, limit) else {
        return Verdict::Ended(Outcome::Memory);
    };
    let verdict = verify_merged(alloc, query, size, limit, &mut merger, outside);
    // Dropped by a call, so that how its parts are let go is proved once for its type.
    drop(merger);
    verdict
}

/// Checks a trace and an output against the events of a new merger.
fn verify_merged<O: Outside>(
    alloc: Global,
    query: &Query,
    size: ChainSize,
    limit: u64,
    merger: &mut Merger,
    outside: &mut O,
) -> Verdict
    requires merger { IsNewMerger query.now limit merger.old }
    requires left { IsInStep false (O.state outside.old role.Left) }
    requires right { IsInStep false (O.state outside.old role.Right) }
    requires trace { IsInStep false (O.state outside.old role.Trace) }
    requires output { IsInStep false (O.state outside.old role.Output) }
    ensures verifies { Verifies result query.now size.cores size.flight limit (O.state outside.old) (O.state outside.new) }
    ensures names { NamesStay (O.under outside.old) (O.under outside.new) }
{
    let events = EventFeed::new(merger, limit, outside);
    let mut feed = AlwaysReady { feed: events };
    verify_feed(alloc, query, size, &mut feed)
}

/// Checks a trace and an output against the events of a feed that gave none yet.
fn verify_feed<O: Outside>(
    alloc: Global,
    query: &Query,
    size: ChainSize,
    feed: &mut AlwaysReady<'_, O>,
) -> Verdict
    requires unasked { (limit : ℕ) × IsUnasked query.now limit feed.old.feed }
    requires trace { IsInStep false (roles_of feed.old role.Trace) }
    requires output { IsInStep false (roles_of feed.old role.Output) }
    ensures outside { SameOutside feed.old feed.new }
    ensures verifies { (limit : ℕ) → IsUnasked query.now limit feed.old.feed
        → Verifies result query.now size.cores size.flight limit (roles_of feed.old) (roles_of feed.new) }
{
    match check_run(alloc, query, size, feed) {
        Ok(()) => judge_ended(feed),
        Err(verdict) => verdict,
    }
}

/// Returns the verdict on a trace and an output with which nothing is wrong, where the events have ended.
fn judge_ended<O: Outside>(feed: &AlwaysReady<'_, O>) -> Verdict
    requires { feed.now.feed.ended ≢ None }
    ensures { (made : Outcomes) → feed.now.feed.ended ≡ Some made → result ≡ verdict_by made }
{
    let Some(outcome) = feed.feed.ended() else {
        unreachable!();
    };
    judge(outcome)
}

/// Returns the verdict on a trace and an output with which nothing is wrong, by how the events have ended.
fn judge(ended: Outcome) -> Verdict
    ensures { result ≡ verdict_by ended }
{
    match ended {
        Outcome::Done { events } => Verdict::Accepted { events },
        other => Verdict::Ended(other),
    }
}

/// Checks a trace and an output against the steps of a new chain under a query.
fn check_run<O: Outside>(
    alloc: Global,
    query: &Query,
    size: ChainSize,
    feed: &mut AlwaysReady<'_, O>,
) -> Result<(), Verdict>
    requires unasked { (limit : ℕ) × IsUnasked query.now limit feed.old.feed }
    requires trace { IsInStep false (roles_of feed.old role.Trace) }
    requires output { IsInStep false (roles_of feed.old role.Output) }
    ensures outside { SameOutside feed.old feed.new }
    ensures checks { ChecksRun result query.now size.cores size.flight (feeding feed.old) (feeding feed.new) }
{
    match ReadyQuery::new(alloc, query) {
        Ok(ready) => check_planned(alloc, query, &ready, size, feed),
        Err(Memory) => Err(Verdict::Ended(Outcome::Memory)),
    }
}

/// Checks them under a query that is ready, with stores of the kind that its condition asks for.
fn check_planned<'q, O: Outside>(
    alloc: Global,
    query: &Query,
    ready: &ReadyQuery<'q>,
    size: ChainSize,
    feed: &mut AlwaysReady<'_, O>,
) -> Result<(), Verdict>
    requires ready { ready.now ≡ query.now }
    requires unasked { (limit : ℕ) × IsUnasked query.now limit feed.old.feed }
    requires trace { IsInStep false (roles_of feed.old role.Trace) }
    requires output { IsInStep false (roles_of feed.old role.Output) }
    ensures outside { SameOutside feed.old feed.new }
    ensures checks { ChecksRun result query.now size.cores size.flight (feeding feed.old) (feeding feed.new) }
{
    match planned_stores(alloc, query, size.cores) {
        Ok(PlannedStores::Hash(stores)) => check_over(alloc, ready, size, stores, feed),
        Ok(PlannedStores::Ordered(stores)) => check_over(alloc, ready, size, stores, feed),
        Ok(PlannedStores::Columns(stores)) => check_over(alloc, ready, size, stores, feed),
        Ok(PlannedStores::List(stores)) => check_over(alloc, ready, size, stores, feed),
        Err(Memory) => Err(Verdict::Ended(Outcome::Memory)),
    }
}
