ghost use Rattle.std.specs.Prelude.{◌≡◌, false, IfNone, IfSome};
ghost use Rattle.hj_base.specs.declared.outside.Role.TheVariants as role;
ghost use Rattle.hj_base.specs.Outside.{NamesStay, NoneBegun};
ghost use Rattle.hj_event.specs.Roles.{IsInStep};
ghost use Rattle.hj_stream.specs.Joining.{CountsSinkFault};
ghost use Rattle.hj_opening.specs.Calls.{call};
ghost use Rattle.hj_opening.specs.Joining.{JoinsKind};
ghost use Rattle.hj_opening.specs.Orders.{join_seen};
ghost use Rattle.hj_opening.specs.Run.{RunsOrder};
ghost use Rattle.hj_opening.specs.Words.{pair_lines};
ghost use Rattle.hj_serve.specs.Crew.{ShowsKind};
ghost use Rattle.hj_serve.specs.OnCrew.{RunsOnCrew};
ghost use Rattle.hj_serve.specs.OrderPlan.{crew_seen, kind_of};

use crate::ended::OrderEnd;
use crate::plan::Writing;
use hj_base::{Gate, Outside, Sink};
use hj_crew::{CrewPlan, Ran};
use hj_engine::{SerialPlan, join_raw, join_serial, join_threads};
use hj_notes::Note;
use hj_opening::{JoinOrder, end_of, make_ready};
use hj_query::Query;
use hj_stream::Outcome;
use hj_value::SharedRow;
use std::alloc::Global;
use std::sync::Wait;
use std::thread::Threads;
use std::time::Clock;

/// Gets the query of a join, opens its streams, and joins them on the calling thread alone, by a plan. The error is the note that
/// says why that wasn't done: the query, a stream, a record, the number of events, the sink, or memory.
pub fn join_alone<O: Outside, K: Sink, G: Gate>(
    alloc: Global,
    join: JoinOrder<'_>,
    plan: &SerialPlan<'_, G>,
    outside: &mut O,
    out: &mut K,
) -> Result<(), Note>
    requires { NoneBegun (O.state outside.old) }
    ensures { RunsOrder result (join_seen pair_lines join.entry)
        (call (O.under outside.old) (O.state outside.old) (O.state outside.new) (K.told out.old) (K.told out.new)
        (K.faults out.old) (K.faults out.new)) }
{
    let query = make_ready(alloc, join, outside)?;
    let outcome = join_serial(alloc, &query, plan, join.limit, outside, out);
    end_of(join.limit, outcome)
}

/// Gets the query of a join, opens its streams, and joins them on threads, by a plan.
pub fn join_on_threads<T: Threads + Wait + Clock + Sync, O: Outside, K: Sink, G: Gate + Sync>(
    alloc: Global,
    join: JoinOrder<'_>,
    writing: Writing,
    plan: &CrewPlan<'_, T, G>,
    outside: &mut O,
    out: &mut K,
) -> OrderEnd
    requires { NoneBegun (O.state outside.old) }
    ensures { RunsOnCrew (crew_seen plan.now.size) result (join_seen (kind_of writing) join.entry)
        (call (O.under outside.old) (O.state outside.old) (O.state outside.new) (K.told out.old) (K.told out.new)
        (K.faults out.old) (K.faults out.new)) }
{
    let query = match make_ready(alloc, join, outside) {
        Ok(query) => query,
        Err(note) => return OrderEnd::early(note),
    };
    let (outcome, ran) = join_ready(alloc, &query, writing, plan, join.limit, outside, out);
    OrderEnd {
        end: end_of(join.limit, outcome),
        ran,
    }
}

/// Joins streams that are ready on threads, by a plan.
fn join_ready<T: Threads + Wait + Clock + Sync, O: Outside, K: Sink, G: Gate + Sync>(
    alloc: Global,
    query: &Query,
    writing: Writing,
    plan: &CrewPlan<'_, T, G>,
    limit: u64,
    outside: &mut O,
    out: &mut K,
) -> (Outcome, Option<Ran<SharedRow>>)
    requires left { IsInStep false (O.state outside.old role.Left) }
    requires right { IsInStep false (O.state outside.old role.Right) }
    ensures joins { JoinsKind (kind_of writing) result.0 query.now limit (O.state outside.old) (O.state outside.new)
        (K.told out.old) (K.told out.new) }
    ensures shows { IfSome result.1 (ShowsKind (kind_of writing) (crew_seen plan.now.size) result.0 query.now limit
        (O.state outside.old) (O.state outside.new) (K.told out.old) (K.told out.new)) }
    ensures no_run { IfNone result.1 (result.0 ≡ Outcome.Memory) }
    ensures faults { CountsSinkFault result.0 (K.faults out.old) (K.faults out.new) }
    ensures names { NamesStay (O.under outside.old) (O.under outside.new) }
{
    match writing {
        Writing::InOrder => join_threads(alloc, query, plan, limit, outside, out),
        Writing::AsMet => join_raw(alloc, query, plan, limit, outside, out),
    }
}
