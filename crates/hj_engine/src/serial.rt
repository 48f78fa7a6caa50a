ghost use Rattle.std.specs.Prelude.{◌≡◌, false, ℕ};
ghost use Rattle.hj_base.specs.Outside.{NamesStay};
ghost use Rattle.hj_base.specs.declared.outside.Role.TheVariants as role;
ghost use Rattle.hj_event.specs.Merger.{IsNewMerger};
ghost use Rattle.hj_event.specs.Roles.{IsInStep};
ghost use Rattle.hj_stream.specs.Ends.{IsUnasked};
ghost use Rattle.hj_stream.specs.Joining.{CountsSinkFault, Joins, JoinsBy};

use crate::lines::LineJoin;
use crate::run::{SerialPlan, run_chain};
use hj_base::{Gate, Outside, Sink};
use hj_event::Merger;
use hj_query::Query;
use hj_stream::{EventFeed, JoinedLine, LineDrain, Outcome, PairLine, outcome_of};
use std::alloc::Global;

/// Joins the streams Left and Right of `outside` under a query, and writes the line of each pair to `out`: each pair of the
/// sequential sliding-window join (Kang, Naughton and Viglas, ICDE 2003) over the streams' numbered events once, in its order.
/// At most `limit` events are numbered. The rows pass along the serial chain that `plan` says, whose cores have two stores each, of a
/// kind that suits the query's condition; where it says one core, and the steps in turn, they go through such stores alone. Either
/// stream is read only as far as its next row. `Outcome` says why the join ended.
pub fn join_serial<O: Outside, K: Sink, G: Gate>(
    alloc: Global,
    query: &Query,
    plan: &SerialPlan<'_, G>,
    limit: u64,
    outside: &mut O,
    out: &mut K,
) -> Outcome
    requires left { IsInStep false (O.state outside.old role.Left) }
    requires right { IsInStep false (O.state outside.old role.Right) }
    ensures joins { Joins result query.now limit (O.state outside.old) (O.state outside.new)
        (K.told out.old) (K.told out.new) }
    ensures faults { CountsSinkFault result (K.faults out.old) (K.faults out.new) }
    ensures names { NamesStay (O.under outside.old) (O.under outside.new) }
{
    let join = LineJoin {
        query,
        limit,
        lines: &JoinedLine,
    };
    join_serial_by(alloc, &join, plan, outside, out)
}

/// Joins the streams Left and Right of `outside` as `join_serial` does, but writes for each pair the line that `join` says.
pub fn join_serial_by<L: PairLine, O: Outside, K: Sink, G: Gate>(
    alloc: Global,
    join: &LineJoin<'_, L>,
    plan: &SerialPlan<'_, G>,
    outside: &mut O,
    out: &mut K,
) -> Outcome
    requires left { IsInStep false (O.state outside.old role.Left) }
    requires right { IsInStep false (O.state outside.old role.Right) }
    ensures joins { JoinsBy (L.line join.now.lines.now) result join.now.query.now join.now.limit (O.state outside.old) (O.state outside.new)
        (K.told out.old) (K.told out.new) }
    ensures faults { CountsSinkFault result (K.faults out.old) (K.faults out.new) }
    ensures names { NamesStay (O.under outside.old) (O.under outside.new) }
{
    let Ok(mut merger) = Merger::new(alloc, join.query, join.limit) else {
        return Outcome::Memory;
    };
    let joined = join_merged(alloc, join, plan, &mut merger, outside, out);
    // Dropped by a call, which is one step here; let go at the end of the function, it is compiled and proved leaf by leaf.
    drop(merger);
    joined
}

/// Joins the events of a new merger.
fn join_merged<L: PairLine, O: Outside, K: Sink, G: Gate>(
    alloc: Global,
    join: &LineJoin<'_, L>,
    plan: &SerialPlan<'_, G>,
    merger: &mut Merger,
    outside: &mut O,
    out: &mut K,
) -> Outcome
    requires merger { IsNewMerger join.now.query.now join.now.limit merger.old }
    requires left { IsInStep false (O.state outside.old role.Left) }
    requires right { IsInStep false (O.state outside.old role.Right) }
    ensures joins { JoinsBy (L.line join.now.lines.now) result join.now.query.now join.now.limit (O.state outside.old) (O.state outside.new)
        (K.told out.old) (K.told out.new) }
    ensures faults { CountsSinkFault result (K.faults out.old) (K.faults out.new) }
    ensures names { NamesStay (O.under outside.old) (O.under outside.new) }
{
    let mut feed = EventFeed::new(merger, join.limit, outside);
    let mut line = Vec::new(alloc);
    let mut drain = LineDrain::new(out, join.lines, &mut line);
    join_feed(alloc, join.query, plan, &mut feed, &mut drain)
}

/// Joins the events of a feed that gave none yet, and writes the line of each pair.
fn join_feed<O: Outside, K: Sink, L: PairLine, G: Gate>(
    alloc: Global,
    query: &Query,
    plan: &SerialPlan<'_, G>,
    feed: &mut EventFeed<'_, O>,
    drain: &mut LineDrain<'_, K, L>,
) -> Outcome
    requires { (limit : ℕ) × IsUnasked query.now limit feed.old }
    ensures same_outside { feed.new.outside.ghost_name ≡ feed.old.outside.ghost_name }
    ensures same_out { drain.new.out.ghost_name ≡ drain.old.out.ghost_name }
    ensures joins { (limit : ℕ) → IsUnasked query.now limit feed.old → JoinsBy (L.line drain.old.lines.now) result query.now limit
        (O.state feed.old.outside.now) (O.state feed.new.outside.now) (K.told drain.old.out.now) (K.told drain.new.out.now) }
    ensures faults { CountsSinkFault result (K.faults drain.old.out.now) (K.faults drain.new.out.now) }
    ensures names { NamesStay (O.under feed.old.outside.now) (O.under feed.new.outside.now) }
{
    let fin = run_chain(alloc, query, plan, feed, drain);
    outcome_of(fin, feed, drain)
}
