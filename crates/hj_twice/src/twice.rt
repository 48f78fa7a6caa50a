ghost use Rattle.std.specs.Prelude.{◌≡◌, false, Some};
ghost use Rattle.hj_base.specs.declared.outside.Role.TheVariants as role;
ghost use Rattle.hj_base.specs.Outside.{ChangesOnly, NamesStay};
ghost use Rattle.hj_event.specs.Roles.{IsInStep};
ghost use Rattle.hj_held.specs.Held.{HeldState};
ghost use Rattle.hj_stream.specs.Joining.{CountsSinkFault, Joins, JoinsBy};
ghost use Rattle.hj_relay.specs.Fits.{Fits};
ghost use Rattle.hj_relay.specs.Relay.{relay_line};
ghost use Rattle.hj_twice.specs.Relayed.{relayed_role};
ghost use Rattle.hj_relay.specs.Twice.{CountsTwiceFault, JoinsTwice, twice_behind};

use crate::mode::Mode;
use crate::relayed::RelayedOutside;
use hj_base::{Gate, Outside, Role, Sink};
use hj_engine::{LineJoin, join_serial_by, join_threads_by};
use hj_held::{HeldStream, KeptText};
use hj_query::Query;
use hj_relay::{RelayLine, TwiceOutcome};
use hj_stream::{JoinedLine, Outcome, PairLine};
use std::alloc::Global;
use std::sync::Wait;
use std::thread::Threads;
use std::time::Clock;

/// Says which two joins are made in a row.
#[derive(Clone, Copy)]
pub struct TwoJoins<'a> {
    /// The query of the first join.
    pub first: &'a Query,
    /// The query of the second one, which fits the first.
    pub second: &'a Query,
    /// Each join numbers at most so many events.
    pub limit: u64,
}

/// Joins the streams Left and Right of `outside` under the first query, and then the pairs of this join with the stream Third under the
/// second query, and writes the line of each pair of the second join to `out`. A pair of the first join is a row of the second one's
/// left stream: the time of its later row, and then the fields of both rows.
///
/// The first join runs to its end, into memory, before the second one begins; each is run as `mode` says.
/// `TwiceOutcome` says how both ended.
pub fn join_twice<T: Threads + Wait + Clock + Sync, O: Outside, K: Sink, G: Gate + Sync>(
    alloc: Global,
    joins: TwoJoins<'_>,
    mode: &Mode<'_, T, G>,
    outside: &mut O,
    out: &mut K,
) -> TwiceOutcome
    requires fits { Fits joins.first.now joins.second.now }
    requires left { IsInStep false (O.state outside.old role.Left) }
    requires right { IsInStep false (O.state outside.old role.Right) }
    requires third { IsInStep false (O.state outside.old role.Third) }
    ensures joins { JoinsTwice result joins.entry.first.now joins.entry.second.now joins.entry.limit (O.state outside.old) (O.state outside.new)
        (K.told out.old) (K.told out.new) }
    ensures faults { CountsTwiceFault result (K.faults out.old) (K.faults out.new) }
    ensures names { NamesStay (O.under outside.old) (O.under outside.new) }
{
    let mut relay = KeptText::new(alloc);
    match join_first(alloc, joins, mode, outside, &mut relay) {
        Outcome::Done { events } => {
            let mut relay = HeldStream::new(relay.into_bytes());
            let ended = join_relay(alloc, joins, mode, &mut relay, outside, out);
            behind(events, ended)
        }
        ended => TwiceOutcome::First(ended),
    }
}

/// Makes the first join, and writes its relay.
fn join_first<T: Threads + Wait + Clock + Sync, O: Outside, G: Gate + Sync>(
    alloc: Global,
    joins: TwoJoins<'_>,
    mode: &Mode<'_, T, G>,
    outside: &mut O,
    relay: &mut KeptText,
) -> Outcome
    requires left { IsInStep false (O.state outside.old role.Left) }
    requires right { IsInStep false (O.state outside.old role.Right) }
    ensures joins { JoinsBy relay_line result joins.entry.first.now joins.entry.limit (O.state outside.old) (O.state outside.new)
        (Some relay.old.text) (Some relay.new.text) }
    ensures faults { CountsSinkFault result 0 0 }
    ensures names { NamesStay (O.under outside.old) (O.under outside.new) }
{
    let join = LineJoin {
        query: joins.first,
        limit: joins.limit,
        lines: &RelayLine,
    };
    join_by(alloc, &join, mode, outside, relay)
}

/// Makes the second join, of a relay of which nothing was read with the stream Third of `outside`.
fn join_relay<T: Threads + Wait + Clock + Sync, O: Outside, K: Sink, G: Gate + Sync>(
    alloc: Global,
    joins: TwoJoins<'_>,
    mode: &Mode<'_, T, G>,
    relay: &mut HeldStream,
    outside: &mut O,
    out: &mut K,
) -> Outcome
    requires unread { relay.old.ended ≡ false }
    requires third { IsInStep false (O.state outside.old role.Third) }
    ensures joins { (after : HeldState) × Joins result joins.entry.second.now joins.entry.limit
        (relayed_role relay.old (O.state outside.old)) (relayed_role after (O.state outside.new)) (K.told out.old) (K.told out.new) }
    ensures others { ChangesOnly role.Third (O.state outside.old) (O.state outside.new) }
    ensures faults { CountsSinkFault result (K.faults out.old) (K.faults out.new) }
    ensures names { NamesStay (O.under outside.old) (O.under outside.new) }
{
    let mut relayed = RelayedOutside { relay, outside };
    join_relayed(alloc, joins, mode, &mut relayed, out)
}

/// Makes the second join, of the streams that `relayed` refers to.
fn join_relayed<T: Threads + Wait + Clock + Sync, O: Outside, K: Sink, G: Gate + Sync>(
    alloc: Global,
    joins: TwoJoins<'_>,
    mode: &Mode<'_, T, G>,
    relayed: &mut RelayedOutside<'_, O>,
    out: &mut K,
) -> Outcome
    requires unread { relayed.old.relay.now.ended ≡ false }
    requires third { IsInStep false (O.state relayed.old.outside.now role.Third) }
    ensures same_outside { relayed.new.outside.ghost_name ≡ relayed.old.outside.ghost_name }
    ensures joins { Joins result joins.entry.second.now joins.entry.limit
        (relayed_role relayed.old.relay.now (O.state relayed.old.outside.now)) (relayed_role relayed.new.relay.now (O.state relayed.new.outside.now))
        (K.told out.old) (K.told out.new) }
    ensures others { ChangesOnly role.Third (O.state relayed.old.outside.now) (O.state relayed.new.outside.now) }
    ensures faults { CountsSinkFault result (K.faults out.old) (K.faults out.new) }
    ensures names { NamesStay (O.under relayed.old.outside.now) (O.under relayed.new.outside.now) }
{
    let join = LineJoin {
        query: joins.second,
        limit: joins.limit,
        lines: &JoinedLine,
    };
    join_by(alloc, &join, mode, relayed, out)
}

/// Makes one join, as `mode` says, and writes for each pair the line that `join` says.
fn join_by<L: PairLine, T: Threads + Wait + Clock + Sync, O: Outside, K: Sink, G: Gate + Sync>(
    alloc: Global,
    join: &LineJoin<'_, L>,
    mode: &Mode<'_, T, G>,
    outside: &mut O,
    out: &mut K,
) -> Outcome
    requires left { IsInStep false (O.state outside.old role.Left) }
    requires right { IsInStep false (O.state outside.old role.Right) }
    ensures joins { JoinsBy (L.line join.now.lines.now) result join.now.query.now join.now.limit (O.state outside.old) (O.state outside.new)
        (K.told out.old) (K.told out.new) }
    ensures faults { CountsSinkFault result (K.faults out.old) (K.faults out.new) }
    ensures names { NamesStay (O.under outside.old) (O.under outside.new) }
{
    match mode {
        Mode::Serial(plan) => join_serial_by(alloc, join, plan, outside, out),
        Mode::Threads(plan) => join_threads_by(alloc, join, plan, outside, out).0,
    }
}

/// Tells how two joins ended, of which the first had so many events, and the second ended so.
fn behind(first: u64, ended: Outcome) -> TwiceOutcome
    ensures { result ≡ twice_behind first ended }
{
    match ended {
        Outcome::Done { events } => TwiceOutcome::Done {
            first,
            second: events,
        },
        // The relay stands in memory, where no read fails.
        Outcome::SourceFault(_) => TwiceOutcome::Second(Outcome::SourceFault(Role::Third)),
        ended => TwiceOutcome::Second(ended),
    }
}
