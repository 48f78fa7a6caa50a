ghost use Rattle.hj_msg.specs.Run.{Run, IsRun};
ghost use Rattle.hj_msg.specs.Crossing.{HandlesOnce, KeepsOrder, HandleTheSame};

/// Shows that in every run, whatever its rows, its join, the number of its cores and the order of its steps, every core
/// handles each row at most once, and two rows that cross do so in one order along the chain: if core k handled the
/// right arrival j before the left arrival i, and core k+1 handled both, core k+1 handled j before i.
pub fn rows_cross_in_one_order<P>()
    ensures once { (run : Run P) (is : IsRun run) → HandlesOnce is }
    ensures order { (run : Run P) (is : IsRun run) → KeepsOrder is }
{}

/// Shows that the journals of a run tell which messages each core handled, and in which order: whatever turns leave
/// these journals, they handle the same messages.
pub fn journals_tell_what_was_handled<P>()
    ensures { (run : Run P) (one other : IsRun run) → HandleTheSame one other }
{}
