ghost use Rattle.std.specs.Prelude.{◌≡◌, ◌≢◌, ◌≤◌, ◌⊎◌, ◌+◌, ◌*◌, ℕ, Bool, List, length, None};
ghost use Rattle.hj_msg.specs.declared.event.Event.{Event};
ghost use Rattle.hj_msg.specs.Event.{IsWellFormed};
ghost use Rattle.hj_msg.specs.Run.{IsRun, IsComplete};
ghost use Rattle.hj_chain.specs.declared.actor.Actor.{Actor};
ghost use Rattle.hj_chain.specs.Chain.{ChainState, cause};
ghost use Rattle.hj_chain.specs.Progress.{IsDone, EnabledActor};
ghost use Rattle.hj_chain.specs.Reached.{Reached, run_of};

/// States that, however the steps are chosen, there are at most 4n + 4 of them for each event and for the closes, in
/// a chain of n cores.
pub fn steps_are_few<P>()
    ensures few { (matches : P → P → Bool) (n flight : ℕ) (schedule : List Actor) (events : List (Event P)) (chain : ChainState P)
        → Reached matches n flight schedule events chain → length schedule ≤ (4 * n + 4) * (length events + 1) }
{}

/// States that, where at least one event may be outstanding, a chain always goes on until it is done: as long as it
/// isn't, some actor is enabled, and in a chain that is done none is.
pub fn some_actor_is_enabled<P>()
    ensures goes_on { (matches : P → P → Bool) (n flight : ℕ) (schedule : List Actor) (events : List (Event P)) (chain : ChainState P)
        → Reached matches n flight schedule events chain → 1 ≤ flight → IsDone chain ⊎ EnabledActor chain }
    ensures stuck { (matches : P → P → Bool) (n flight : ℕ) (schedule : List Actor) (events : List (Event P)) (chain : ChainState P)
        → Reached matches n flight schedule events chain → 1 ≤ flight → ((actor : Actor) → cause chain actor ≢ None) → IsDone chain }
    ensures done { (matches : P → P → Bool) (n flight : ℕ) (schedule : List Actor) (events : List (Event P)) (chain : ChainState P)
        → Reached matches n flight schedule events chain → IsDone chain → (actor : Actor) → cause chain actor ≢ None }
{}

/// States that over well-formed events a chain is done exactly where the run that its steps give is complete.
pub fn done_is_complete<P>()
    ensures complete { (matches : P → P → Bool) (n flight : ℕ) (schedule : List Actor) (events : List (Event P)) (chain : ChainState P) (reached : Reached matches n flight schedule events chain)
        → IsWellFormed events → IsDone chain → (is : IsRun (run_of reached)) × IsComplete is }
    ensures done { (matches : P → P → Bool) (n flight : ℕ) (schedule : List Actor) (events : List (Event P)) (chain : ChainState P) (reached : Reached matches n flight schedule events chain)
        → (is : IsRun (run_of reached)) → IsComplete is → IsDone chain }
{}
