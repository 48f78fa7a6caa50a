ghost use Rattle.std.specs.Prelude.{Some};
ghost use Rattle.hj_base.specs.Outside.{NoneBegun};
ghost use Rattle.hj_opening.specs.Calls.{call};
ghost use Rattle.hj_opening.specs.Run.{RunsOrder};
ghost use Rattle.hj_opening.specs.Serve.{Serves};
ghost use Rattle.hj_serve.specs.OrderPlan.{asked_alone};

use crate::join::join_alone;
use crate::plan::AloneOrder;
use hj_base::{Gate, Outside, Sink};
use hj_engine::SerialPlan;
use hj_notes::{Note, report};
use hj_opening::check;
use std::alloc::Global;

/// Does what an order says for which no thread turns a core, `check` or `join` with `--threads 0`, and answers the exit status, as
/// `serve` does for the words that spell it. It waits for nobody but for `outside`, `out` and `notes`. `gate` is passed before each
/// step of a core.
pub fn serve_serial<O: Outside, K: Sink, N: Sink, G: Gate>(
    alloc: Global,
    order: AloneOrder<'_>,
    outside: &mut O,
    out: &mut K,
    notes: &mut N,
    gate: &G,
) -> u8
    requires roles { NoneBegun (O.state outside.old) }
    ensures serves { Serves result (Some (asked_alone order.entry))
        (call (O.under outside.old) (O.state outside.old) (O.state outside.new) (K.told out.old) (K.told out.new)
        (K.faults out.old) (K.faults out.new)) (N.told notes.old) (N.told notes.new) (N.refusals notes.old) (N.refusals notes.new) }
{
    let ended = run_alone(alloc, order, outside, out, gate);
    report(notes, ended)
}

/// Runs an order for which no thread turns a core.
fn run_alone<O: Outside, K: Sink, G: Gate>(
    alloc: Global,
    order: AloneOrder<'_>,
    outside: &mut O,
    out: &mut K,
    gate: &G,
) -> Result<(), Note>
    requires roles { NoneBegun (O.state outside.old) }
    ensures { RunsOrder result (asked_alone order.entry)
        (call (O.under outside.old) (O.state outside.old) (O.state outside.new) (K.told out.old) (K.told out.new)
        (K.faults out.old) (K.faults out.new)) }
{
    match order {
        AloneOrder::Check(name) => check(alloc, name, outside, out),
        AloneOrder::Join {
            join,
            size,
            chooser,
        } => {
            let plan = SerialPlan {
                size,
                chooser,
                gate,
            };
            join_alone(alloc, join, &plan, outside, out)
        }
    }
}
