ghost use Rattle.std.specs.Prelude.{◌≡◌, ◌++◌, [], ◌∷◌, ℕ, List};
ghost use Rattle.hj_msg.specs.Met.{AreAllReportsOf};
ghost use Rattle.hj_msg.specs.Run.{IsComplete, IsRun, Run};
ghost use Rattle.hj_raw.specs.Items.{TakenReport, items_of_report, lists_of, raw_items};
ghost use Rattle.hj_raw.specs.Telling.{AreTakenOf, TellsAll, TellsMatches};

/// Shows of any reports that were taken of some cores, and of the one taken next: the items of all are those of the first ones, and
/// behind them the items of that one.
#[tactic(auto, using(crate::proofs::Behind::one_behind))]
pub fn raw_items_grow<P>()
    ensures { (cores : ℕ) (taken : List (TakenReport P)) (next : TakenReport P) → raw_items cores (taken ++ next ∷ []) ≡ raw_items cores taken ++ items_of_report (lists_of cores taken) next }
{}

/// Shows of every run, and of any reports that were taken of its cores, that their raw items tell of the join of its events: each pair
/// among them is a match, none stands twice, before a mark stand all matches within it and behind it none, and marks rise (`tells`).
/// At the end of a complete run, of which all reports were taken, every match stands among them, and the mark of all is last (`all`).
pub fn raw_items_tell_of_the_join<P>()
    ensures tells { (run : Run P) → IsRun run → (taken : List (TakenReport P)) → AreTakenOf run taken → TellsMatches run.matches run.events (raw_items run.cores taken) }
    ensures all { (run : Run P) (is : IsRun run) → IsComplete is → (taken : List (TakenReport P)) → AreTakenOf run taken → AreAllReportsOf run (lists_of run.cores taken) → TellsAll run.matches run.events (raw_items run.cores taken) }
{}
