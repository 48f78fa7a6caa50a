ghost use Rattle.std.specs.Prelude.{◌≡◌, [], ◌∷◌, None, Some};
ghost use Rattle.hj_msg.specs.Run.{IsRun, IsComplete};
ghost use Rattle.hj_msg.specs.Met.{AreReportsOf, met};
ghost use Rattle.hj_msg.specs.Punctuation.{punctuation, up_to, all};
ghost use Rattle.hj_msg.specs.Emission.{emitted};
ghost use Rattle.hj_msg.specs.Examples.{MeetInFlight, MeetAtRest, OneCore, ThreeCores, OtherMessages, PartnersByNumber, Outstanding, Marks, whole_run, whole_lists, joined, unacknowledged, early_report, overfull, crossed, KeepsAllElse};
ghost use Rattle.hj_msg.specs.MeetingExamples.{Meets, reports_of, left_first_run, left_first_queue, right_first_run, right_first_queue};

/// Shows a core's step on small chains: each core's state, sends and report.
pub fn small_steps()
    ensures in_flight { MeetInFlight }
    ensures at_rest { MeetAtRest }
    ensures one_core { OneCore }
    ensures three_cores { ThreeCores }
    ensures other_messages { OtherMessages }
    ensures partners { PartnersByNumber }
{}

/// Shows a whole run of two cores over a left row and a right row that join.
pub fn small_run()
    ensures run { IsRun whole_run }
    ensures complete { (is : IsRun whole_run) × IsComplete is }
    ensures reports { AreReportsOf whole_run whole_lists }
    ensures met_once { met whole_lists ≡ joined 0 1 ∷ [] }
    ensures emitted { emitted whole_lists ≡ joined 0 1 ∷ [] }
{}

/// Shows runs of two cores to which the laws of meeting apply, one for each way in which a pair is met: both cores
/// handle the left row first, one of them does, and none.
pub fn small_meetings()
    ensures left_first { Meets left_first_run (reports_of left_first_queue) (joined 0 1) 2 }
    ensures between { Meets whole_run whole_lists (joined 0 1) 1 }
    ensures right_first { Meets right_first_run (reports_of right_first_queue) (joined 1 0) 0 }
{}

/// Shows that the same run with one rule broken is no run.
pub fn no_runs()
    ensures unacknowledged { ¬ (IsRun unacknowledged) }
    ensures early_report { ¬ (IsRun early_report) }
    ensures overfull { ¬ (IsRun overfull) }
    ensures crossed { ¬ (IsRun crossed) }
    ensures crossed_keeps_all_else { KeepsAllElse }
{}

/// Shows the driver's outstanding events, and the marks of two cores with what is emitted by them.
pub fn small_logs()
    ensures outstanding { Outstanding }
    ensures marks { Marks }
{}
