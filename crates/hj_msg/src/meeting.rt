ghost use Rattle.hj_msg.specs.Run.{Run, IsRun};
ghost use Rattle.hj_msg.specs.Meeting.{MeetsOnce, MeetsOnlyMatches, MeetsAll, MeetsAtPlaces, MeetsTheJoin};

/// Shows that in every run, whatever its rows, its join, the number of its cores and the order of its steps, and for
/// any lists of what was taken of the cores' reports so far, the cores meet each pair at most once (`once`), only valid
/// pairs that satisfy the join (`only`), and each of these both of whose rows every core reported (`each`), at the core
/// and in the report that go with the place where its rows cross (`place`). At the end of a complete run the pairs that
/// were met are those of the sequential join, each once (`complete`).
pub fn matches_are_met_once<P>()
    ensures once { (run : Run P) → IsRun run → MeetsOnce run }
    ensures only { (run : Run P) → IsRun run → MeetsOnlyMatches run }
    ensures each { (run : Run P) → IsRun run → MeetsAll run }
    ensures place { (run : Run P) (is : IsRun run) → MeetsAtPlaces is }
    ensures complete { (run : Run P) (is : IsRun run) → MeetsTheJoin is }
{}
