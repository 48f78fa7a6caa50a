//! What a gate is told before the steps of three cores on one thread.

ghost use Rattle.std.specs.Prelude.{◌≤◌};
ghost use Rattle.hj_chain_tests.specs.TwoRows.{all_match, rows_given};
ghost use Rattle.hj_chain.specs.Steps.{GoesWith};

use crate::chains::{RowChain, TwoRows, chain_of, from};
use crate::last_pair::room_for;
use hj_base::{CoreNo, Gate, Lcg, Side};
use hj_chain::{Actor, Chooser, Stepped};
use hj_msg::Fin;
use std::alloc::Global;
use std::cell::Cell;
use std::process::Abort;

/// Returns the enabled actor that a number draws.
fn drawn(chain: &RowChain, number: u64) -> Option<Actor> {
    let enabled = u64::from(chain.enabled());
    if enabled == 0 {
        return None;
    }
    chain.nth((number % enabled) as u32)
}

/// Notes the core of a step of a core, and how many steps were made before it.
fn note(rt: &impl Abort, steps: &mut Vec<(CoreNo, u64)>, actor: Actor, made: u64) {
    if let Actor::Core(core, _) = actor {
        steps.push((core, made)).expect(rt, "memory");
    }
}

/// Makes the steps that a seed draws until no actor is enabled, and notes those of cores.
fn note_steps(
    rt: &impl Abort,
    chain: &mut RowChain,
    feed: &mut TwoRows,
    seed: u64,
    steps: &mut Vec<(CoreNo, u64)>,
)
    requires { GoesWith all_match chain.old (rows_given feed.old.first feed.old.given feed.old.stopped) }
{
    let mut lcg = Lcg::new(seed);
    for made in 0..100 {
        let Some(actor) = drawn(chain, lcg.draw()) else {
            return;
        };
        note(rt, steps, actor, made);
        assert!(rt; chain.step(actor, feed) == Stepped::Did);
    }
    panic!(rt; "no end after 100 steps");
}

/// Returns the core of each step of a core that a seed draws, with at most `flight` events under way, and how many steps were
/// made before it.
fn steps_drawn(rt: &impl Abort, alloc: Global, seed: u64, flight: u16) -> Vec<(CoreNo, u64)>
    requires { (1 ≤ flight) × (flight ≤ 256) }
{
    let mut feed = from(Side::Left);
    let mut chain = chain_of(rt, alloc, 3, flight, &mut feed);
    let mut steps = Vec::new(alloc);
    note_steps(rt, &mut chain, &mut feed, seed, &mut steps);
    drop(chain);
    steps
}

/// Looks whether it is told these steps, and no other.
#[derive(Drop)]
struct LookingGate<'a> {
    wanted: &'a [(CoreNo, u64)],
    passes: Cell<usize>,
    astray: Cell<bool>,
}

impl Gate for LookingGate<'_> {
    fn pass(&self, core: CoreNo, call: u64) {
        let passes = self.passes.get();
        if self.wanted.get(passes) != Some(&(core, call)) {
            self.astray.set(true);
        }
        self.passes.set(passes.saturating_add(1));
    }
}

/// Runs the chain serially by a seed, and looks whether the gate is told these steps.
fn runs_so(rt: &impl Abort, alloc: Global, seed: u64, flight: u16, steps: &[(CoreNo, u64)])
    requires { (1 ≤ flight) × (flight ≤ 256) }
{
    let gate = LookingGate {
        wanted: steps,
        passes: Cell::new(0),
        astray: Cell::new(false),
    };
    let mut feed = from(Side::Left);
    let mut chain = chain_of(rt, alloc, 3, flight, &mut feed);
    let mut drain = room_for(1);
    let fin = chain.run_serial(Chooser::Seeded(seed), &mut feed, &mut drain, &gate);
    drop(chain);
    assert!(rt; fin == Fin::Done);
    assert!(rt; gate.passes.get() == steps.len());
    assert!(rt; !gate.astray.get());
}

/// Returns the steps of cores that a seed draws, of which the gate of a serial run by that seed is told.
fn told_steps(rt: &impl Abort, alloc: Global, seed: u64, flight: u16) -> Vec<(CoreNo, u64)>
    requires { (1 ≤ flight) × (flight ≤ 256) }
{
    let steps = steps_drawn(rt, alloc, seed, flight);
    runs_so(rt, alloc, seed, flight, &steps);
    steps
}

#[test]
fn the_gate_is_told_each_step_in_its_order(rt: HostRuntime) {
    let first = told_steps(&rt, rt.alloc(), 1, 32);
    let second = told_steps(&rt, rt.alloc(), 2, 32);
    let one_at_a_time = told_steps(&rt, rt.alloc(), 1, 1);
    assert!(rt; first.as_slice() != second.as_slice());
    assert!(rt; first.as_slice() != one_at_a_time.as_slice());
}
