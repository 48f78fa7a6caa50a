ghost use Rattle.std.specs.Prelude.{◌≡◌, Bool, List, [], false};
ghost use Rattle.hj_base.specs.Journals.{IsPrefix};
ghost use Rattle.hj_msg.specs.declared.event.Pair.{Pair};
ghost use Rattle.hj_msg.specs.Driver.{IsLawful};
ghost use Rattle.hj_msg.specs.Feed.{FeedState};
ghost use Rattle.hj_msg.specs.Kang.{kang};
ghost use Rattle.hj_msg.specs.Met.{AreAllReportsOf};
ghost use Rattle.hj_msg.specs.Run.{IsRun};
ghost use Rattle.hj_desk.specs.declared.desk.Desk.{Desk};
ghost use Rattle.hj_desk.specs.Desk.{DeskHistory, StandsFor, collected, turns_of};
ghost use Rattle.hj_desk.specs.Releases.{Releases};
ghost use Rattle.hj_desk.specs.Runs.{Workers, AreUncut, DoTheirPart, IsDone, run_of};

/// Shows that the log of a desk is lawful over the events that the feed gave (`lawful`). If the workers of the cores do
/// their part, its journals and theirs make a run over these events (`run`), of which it took its reports (`reports`).
/// Pairs that are given in order of these reports begin the sequential join of these events (`in_order`), and are the
/// whole of it if the desk is done, no last turn of a worker is cut, and no pair is kept (`whole`).
pub fn desks_give_the_join<P>()
    ensures lawful { (desk : Desk P) (feed : FeedState) (history : DeskHistory P) → StandsFor desk feed history → IsLawful desk.driver.flight history.events (turns_of history.log) }
    ensures run { (workers : Workers P) (desk : Desk P) (feed : FeedState) (history : DeskHistory P) → StandsFor desk feed history → DoTheirPart workers desk history.events → IsRun (run_of workers desk history.events) }
    ensures reports { (workers : Workers P) (desk : Desk P) (feed : FeedState) (history : DeskHistory P) → StandsFor desk feed history → DoTheirPart workers desk history.events
        → AreAllReportsOf (run_of workers desk history.events) (collected desk.reports.items) }
    ensures in_order { (workers : Workers P) (desk : Desk P) (feed : FeedState) (history : DeskHistory P) → StandsFor desk feed history → DoTheirPart workers desk history.events
        → (over : Bool) (kept given : List (Pair P)) → Releases (collected desk.reports.items) over kept given → IsPrefix given (kang workers.matches history.events) }
    ensures whole { (workers : Workers P) (desk : Desk P) (feed : FeedState) (history : DeskHistory P) → StandsFor desk feed history → (parts : DoTheirPart workers desk history.events) → AreUncut parts
        → IsDone desk → (given : List (Pair P)) → Releases (collected desk.reports.items) false [] given → given ≡ kang workers.matches history.events }
{}
