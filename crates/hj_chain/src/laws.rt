ghost use Rattle.std.specs.Prelude.{◌≡◌, ℕ, Bool, false, List, None};
ghost use Rattle.hj_base.specs.Journals.{IsPrefix};
ghost use Rattle.hj_msg.specs.Kang.{kang};
ghost use Rattle.hj_msg.specs.declared.event.Event.{Event};
ghost use Rattle.hj_msg.specs.Event.{IsWellFormed};
ghost use Rattle.hj_msg.specs.Emission.{emitted};
ghost use Rattle.hj_msg.specs.Run.{IsRun};
ghost use Rattle.hj_msg.specs.Met.{AreAllReportsOf};
ghost use Rattle.hj_msg.specs.Quiet.{IsQuietWithin};
ghost use Rattle.hj_chain.specs.declared.actor.Actor.{Actor};
ghost use Rattle.hj_chain.specs.Chain.{ChainState, Contents};
ghost use Rattle.hj_chain.specs.Progress.{IsDone};
ghost use Rattle.hj_chain.specs.Prompt.{GaveAllButLast, WaitsForEvents};
ghost use Rattle.hj_chain.specs.Reached.{Reached, StandsFor, collected_of, next_pair, pairs_given, run_of};
ghost use Rattle.hj_chain.specs.Steps.{HasRoom};

/// States, whatever the rows and the join, however many cores there are, and in whatever order the actors make their
/// steps: the steps over well-formed events give a run, each step under a turn number of its own; what was collected
/// is what the run shows as taken of the cores' reports; and the queues hold so few messages that each put of a next
/// step finds room.
pub fn steps_give_a_run<P>()
    ensures run { (matches : P → P → Bool) (n flight : ℕ) (schedule : List Actor) (events : List (Event P)) (chain : ChainState P) (reached : Reached matches n flight schedule events chain)
        → IsWellFormed events → IsRun (run_of reached) }
    ensures collected { (matches : P → P → Bool) (n flight : ℕ) (schedule : List Actor) (events : List (Event P)) (chain : ChainState P) (reached : Reached matches n flight schedule events chain)
        → IsWellFormed events → AreAllReportsOf (run_of reached) (collected_of reached) }
    ensures room { (matches : P → P → Bool) (n flight : ℕ) (schedule : List Actor) (events : List (Event P)) (chain : ChainState P)
        → Reached matches n flight schedule events chain → IsWellFormed events → HasRoom chain }
{}

/// States that what a chain emits begins the sequential join of its events (`begins`), and is the whole of it where
/// the chain is done (`whole`).
pub fn emission_begins_the_join<P, J>()
    ensures begins { (predicate : J → P → P → Bool) (chain : Contents P J) (schedule : List Actor) (events : List (Event P)) (given : ℕ) (stands : StandsFor predicate chain schedule events given)
        → IsWellFormed events → IsPrefix (emitted (collected_of stands.reached)) (kang (predicate chain.join) events) }
    ensures whole { (predicate : J → P → P → Bool) (chain : Contents P J) (schedule : List Actor) (events : List (Event P)) (given : ℕ) (stands : StandsFor predicate chain schedule events given)
        → IsWellFormed events → IsDone chain.state → emitted (collected_of stands.reached) ≡ kang (predicate chain.join) events }
{}

/// States that the pairs that a chain gave begin the sequential join of its events (`in_order`). Where it is done,
/// memory never ran out, and no pair is to be given, they are the whole of it (`whole`).
pub fn chains_give_the_join<P, J>()
    ensures in_order { (predicate : J → P → P → Bool) (chain : Contents P J) (schedule : List Actor) (events : List (Event P)) (given : ℕ) (stands : StandsFor predicate chain schedule events given)
        → IsWellFormed events → IsPrefix (pairs_given stands) (kang (predicate chain.join) events) }
    ensures whole { (predicate : J → P → P → Bool) (chain : Contents P J) (schedule : List Actor) (events : List (Event P)) (given : ℕ) (stands : StandsFor predicate chain schedule events given)
        → IsWellFormed events → chain.state.over ≡ false → IsDone chain.state → next_pair stands ≡ None → pairs_given stands ≡ kang (predicate chain.join) events }
{}

/// States of a chain that waits for events, that is, no actor is enabled but, perhaps, the driver's put
/// (`Chain::enabled`, `Chain::nth`), no pair is to be given (`Chain::pair`) and memory didn't run out: if its events
/// are quiet within some number of arrivals, each pair of the sequential join of the events that were put so far was
/// given, or its later row is among the last that many of their arrivals.
pub fn chains_hold_back_few<P, J>()
    ensures { (predicate : J → P → P → Bool) (chain : Contents P J) (schedule : List Actor) (events : List (Event P)) (given : ℕ) (stands : StandsFor predicate chain schedule events given) (most : ℕ)
        → IsWellFormed events → IsQuietWithin most events → chain.state.over ≡ false → WaitsForEvents chain.state → next_pair stands ≡ None → GaveAllButLast most stands }
{}
