ghost use Rattle.hj_msg.specs.Run.{Run, IsRun};
ghost use Rattle.hj_msg.specs.Quiet.{EmitsAllButLast};
ghost use Rattle.hj_msg.specs.Overtaking.{MeetsAllWithin, EmitsJoinedWithin, EmitsPrefix, EmitsAll, PunctuationStays, EmissionGrows};

/// Shows that in every run, and for any lists of what was taken of the cores' reports so far, the punctuation never
/// overtakes a pair: each match within it was met (`met`), so that what is emitted are the pairs of the sequential join
/// within the punctuation (`within`). These begin the join (`in_order`), and are the whole of it at the end of a
/// complete run (`whole`). As more is reported the punctuation doesn't fall (`stays`), and what was emitted begins what
/// is emitted then (`grows`).
pub fn punctuation_never_overtakes<P>()
    ensures met { (run : Run P) → IsRun run → MeetsAllWithin run }
    ensures within { (run : Run P) → IsRun run → EmitsJoinedWithin run }
    ensures in_order { (run : Run P) → IsRun run → EmitsPrefix run }
    ensures whole { (run : Run P) (is : IsRun run) → EmitsAll is }
    ensures stays { (run : Run P) → IsRun run → PunctuationStays run }
    ensures grows { (run : Run P) → IsRun run → EmissionGrows run }
{}

/// Shows of every run and every count n: if nothing tells of a side for at most n arrivals of the other one, and every
/// core reported all that was put, each pair of the sequential join of what was put is emitted, or its later row is
/// among the last n arrivals.
pub fn silence_holds_back_few<P>()
    ensures { (run : Run P) (is : IsRun run) → EmitsAllButLast is }
{}
