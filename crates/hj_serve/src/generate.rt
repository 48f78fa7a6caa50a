ghost use Rattle.std.specs.Prelude.{ℕ, List, IfOk};
ghost use Rattle.std.specs.declared.option.Option.{Option};
ghost use Rattle.hj_base.specs.declared.outside.Role.{Role};
ghost use Rattle.hj_base.specs.Outside.{RoleState, NoneBegun};
ghost use Rattle.hj_opening.specs.Calls.{call};
ghost use Rattle.hj_serve.specs.Crew.{ShowsMade};
ghost use Rattle.hj_opening.specs.Generating.{IsSummary};
ghost use Rattle.hj_serve.specs.Made.{JoinsHeld};
ghost use Rattle.hj_serve.specs.OnCrew.{RunsOnCrew};
ghost use Rattle.hj_serve.specs.Orders.{recipe_seen};
ghost use Rattle.hj_serve.specs.OrderPlan.{crew_seen};
ghost use Rattle.hj_opening.specs.Words.{most_events, sum_up};

use crate::ended::OrderEnd;
use crate::plan::MOST_EVENTS;
use crate::recipe::Recipe;
use hj_base::{Bytes, Gate, Memory, Sent, Sink, put_all};
use hj_crew::{CrewPlan, Ran};
use hj_engine::join_threads;
use hj_gen::{TwoStreams, streams, summary};
use hj_held::{HeldStreams, KeptText};
use hj_notes::Note;
use hj_query::{Query, equi};
use hj_stream::Outcome;
use hj_value::SharedRow;
use std::alloc::Global;
use std::sync::Wait;
use std::thread::Threads;
use std::time::Clock;

/// The line that sums up a join, and the run that made the join.
#[derive(Drop)]
struct Summary {
    line: Bytes,
    ran: Ran<SharedRow>,
}

/// The join of two streams in memory: how it ended, what it wrote, and the run that made it.
#[derive(Drop)]
struct HeldJoin {
    outcome: Outcome,
    text: KeptText,
    ran: Option<Ran<SharedRow>>,
}

/// Makes the two streams of a recipe, joins them in memory on threads, by a plan, and writes the line that sums up their join to
/// `out`. The note of the ending says why that couldn't be done: the sink, or memory.
pub fn generate<T: Threads + Wait + Clock + Sync, K: Sink, G: Gate + Sync>(
    alloc: Global,
    recipe: Recipe,
    plan: &CrewPlan<'_, T, G>,
    out: &mut K,
) -> OrderEnd
    ensures { (under : List ℕ → Option (List ℕ)) (roles : Role → RoleState) → NoneBegun roles
        → RunsOnCrew (crew_seen plan.now.size) result (sum_up (recipe_seen recipe))
        (call under roles roles (K.told out.old) (K.told out.new) (K.faults out.old) (K.faults out.new)) }
{
    let Ok(Summary { line, ran }) = join_summed(alloc, recipe, plan) else {
        return OrderEnd {
            end: Err(Note::Memory),
            ran: None,
        };
    };
    let end = match put_all(out, line.bytes()) {
        Sent::Whole => Ok(()),
        Sent::Failed => Err(Note::Sink),
        Sent::Memory => Err(Note::Memory),
    };
    OrderEnd {
        end,
        ran: Some(ran),
    }
}

/// Joins the two streams of a recipe in memory, and sums their join up.
fn join_summed<T: Threads + Wait + Clock + Sync, G: Gate + Sync>(
    alloc: Global,
    recipe: Recipe,
    plan: &CrewPlan<'_, T, G>,
) -> Result<Summary, Memory>
    ensures line { IfOk result (λ summary. IsSummary summary.line (recipe_seen recipe) most_events) }
    ensures shows { IfOk result (λ summary. ShowsMade (crew_seen plan.now.size) (recipe_seen recipe) most_events summary.ran) }
{
    let query = equi(alloc, recipe.window.rows)?;
    let made = streams(alloc, recipe.rows, recipe.keys, recipe.seed)?;
    let HeldJoin { outcome, text, ran } = join_held(alloc, &query, made, plan);
    match outcome {
        Outcome::Done { events } => {
            let Some(ran) = ran else {
                // A join that is done has its run.
                unreachable!()
            };
            let line = summary(alloc, events, text.bytes())?;
            Ok(Summary { line, ran })
        }
        Outcome::Memory => Err(Memory),
        // Each record is a row, there are few of them, and nothing in memory fails.
        Outcome::Bad { .. } | Outcome::SourceFault(_) | Outcome::SinkFault | Outcome::TooMany => {
            unreachable!()
        }
    }
}

/// Joins two streams that stand in memory, on threads, and keeps the text in memory.
fn join_held<T: Threads + Wait + Clock + Sync, G: Gate + Sync>(
    alloc: Global,
    query: &Query,
    made: TwoStreams,
    plan: &CrewPlan<'_, T, G>,
) -> HeldJoin
    ensures { JoinsHeld query.now most_events made.left made.right (crew_seen plan.now.size) result.outcome result.text.text result.ran }
{
    let mut held = HeldStreams::new(made.left, made.right);
    let mut text = KeptText::new(alloc);
    let (outcome, ran) = join_threads(alloc, query, plan, MOST_EVENTS, &mut held, &mut text);
    HeldJoin { outcome, text, ran }
}
