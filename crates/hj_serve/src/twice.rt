ghost use Rattle.std.specs.Prelude.{◌≡◌};
ghost use Rattle.hj_base.specs.Outside.{NoneBegun};
ghost use Rattle.hj_opening.specs.Calls.{call};
ghost use Rattle.hj_opening.specs.RunTwice.{RunsTwice, twice_names};
ghost use Rattle.hj_serve.specs.OrderPlan.{mode_seen, twice_seen};

use crate::plan::TwicePlan;
use crate::serving::Parties;
use hj_base::{Gate, Outside, Sink};
use hj_crew::CrewPlan;
use hj_engine::SerialPlan;
use hj_notes::TwiceNote;
use hj_opening::{TwiceOrder, end_of_twice, make_twice_ready};
use hj_twice::{Mode, TwoJoins, join_twice};
use std::alloc::Global;
use std::sync::Wait;
use std::thread::Threads;
use std::time::Clock;

/// Gets the queries of two joins in a row, opens their streams, and makes both joins, each in this mode. The error is the note that
/// says why that wasn't done: a query, that the second one doesn't fit the first, a stream, a record, the number of events, the sink,
/// or memory.
pub fn join_in_row<T: Threads + Wait + Clock + Sync, O: Outside, K: Sink, G: Gate + Sync>(
    alloc: Global,
    joins: TwiceOrder<'_>,
    mode: &Mode<'_, T, G>,
    outside: &mut O,
    out: &mut K,
) -> Result<(), TwiceNote>
    requires { NoneBegun (O.state outside.old) }
    ensures { RunsTwice result (twice_names joins.entry) joins.entry.limit
        (call (O.under outside.old) (O.state outside.old) (O.state outside.new) (K.told out.old) (K.told out.new)
        (K.faults out.old) (K.faults out.new)) }
{
    let queries = make_twice_ready(alloc, joins, outside)?;
    let two = TwoJoins {
        first: &queries.first,
        second: &queries.second,
        limit: joins.limit,
    };
    let ended = join_twice(alloc, two, mode, outside, out);
    end_of_twice(joins.limit, ended)
}

/// Gives the mode of two joins in a row by a plan.
pub fn mode_of<'r, T: Threads, G>(plan: TwicePlan, parties: &Parties<'r, T, G>) -> Mode<'r, T, G>
    ensures { mode_seen result ≡ twice_seen plan }
{
    match plan {
        TwicePlan::Alone { size, chooser } => Mode::Serial(SerialPlan {
            size,
            chooser,
            gate: parties.gate,
        }),
        TwicePlan::Threads(size) => Mode::Threads(CrewPlan {
            rt: parties.rt,
            size,
            kept: size.kept(parties.rt),
            takes_back: false,
            gate: parties.gate,
        }),
    }
}
