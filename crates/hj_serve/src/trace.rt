ghost use Rattle.std.specs.Prelude.{◌≡◌, List, ℕ};
ghost use Rattle.std.specs.declared.option.Option.{Option};
ghost use Rattle.hj_base.specs.Outside.{NoneBegun};
ghost use Rattle.hj_opening.specs.Calls.{call};
ghost use Rattle.hj_opening.specs.Orders.{chain_seen, check_seen, join_seen};
ghost use Rattle.hj_opening.specs.ReadyToCheck.{RunsVerify};
ghost use Rattle.hj_opening.specs.Run.{RunsOrder};
ghost use Rattle.hj_opening.specs.Words.{step_lines};
ghost use Rattle.hj_serve.specs.Verdicts.{end_of_verdict};

use hj_base::{Outside, Sink};
use hj_notes::{Note, VerifyNote};
use hj_opening::{CheckOrder, JoinOrder, end_of, make_ready, make_ready_to_check};
use hj_replay::{TracePlan, write_trace};
use hj_verify::{Verdict, verify};
use std::alloc::Global;

/// Gets the query of a join, opens its streams, and writes each step of the join as the calling thread makes it alone, by a plan. The
/// error is the note that says why that wasn't done: the query, a stream, a record, the number of events, the sink, or memory.
pub fn trace_join<O: Outside, K: Sink>(
    alloc: Global,
    join: JoinOrder<'_>,
    plan: TracePlan,
    outside: &mut O,
    out: &mut K,
) -> Result<(), Note>
    requires { NoneBegun (O.state outside.old) }
    ensures { RunsOrder result (join_seen (step_lines (chain_seen plan.size) plan.chooser) join.entry)
        (call (O.under outside.old) (O.state outside.old) (O.state outside.new) (K.told out.old) (K.told out.new)
        (K.faults out.old) (K.faults out.new)) }
{
    let query = make_ready(alloc, join, outside)?;
    let outcome = write_trace(alloc, &query, plan, join.limit, outside, out);
    end_of(join.limit, outcome)
}

/// Gets the query of a check, opens its streams, its trace and its output, and checks the trace and the output. The error says why they
/// weren't accepted: the query, a stream, a record, the number of events, memory, or a fault of the trace or the output.
pub fn check_trace<O: Outside>(
    alloc: Global,
    check: CheckOrder<'_>,
    outside: &mut O,
) -> Result<(), VerifyNote>
    requires { NoneBegun (O.state outside.old) }
    ensures { (told : Option (List ℕ)) (faults : ℕ) → RunsVerify result (check_seen check.entry)
        (call (O.under outside.old) (O.state outside.old) (O.state outside.new) told told faults faults) }
{
    let query = make_ready_to_check(alloc, check, outside)?;
    let verdict = verify(alloc, &query, check.size, check.limit, outside);
    end_of_verdict(check.limit, verdict)
}

/// Gives the ending of a check with this verdict. `limit` is how many events the join numbers at most.
fn end_of_verdict(limit: u64, verdict: Verdict) -> Result<(), VerifyNote>
    ensures { result ≡ end_of_verdict limit verdict }
{
    match verdict {
        Verdict::Accepted { .. } => Ok(()),
        Verdict::Refused(fault) => Err(VerifyNote::Refused(fault)),
        Verdict::Ended(outcome) => Ok(end_of(limit, outcome)?),
    }
}
