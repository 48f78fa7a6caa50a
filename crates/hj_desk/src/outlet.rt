//! What becomes of the reports that the calling thread takes.
ghost use Rattle.std.specs.Prelude.{◌≡◌, ℕ, List, Bool, OnErr, OnOk};
ghost use Rattle.hj_collect.specs.Collector.{CollectorState};
ghost use Rattle.hj_raw.specs.Items.{TakenReport};

use hj_base::Memory;
use hj_collect::Collector;
use hj_msg::{Drained, Report};

/// What becomes of the reports that are taken of the cores: it keeps what it makes of them, and gives it where that is due.
pub trait Outlet<P> {
    ghost use Rattle.hj_msg.specs.declared.drain.Drained.{Drained};
    ghost use Rattle.hj_msg.specs.declared.drain.Drained.TheVariants.{Kept};
    ghost use Rattle.hj_desk.specs.Outlet.{GivesDue, KeepsReport, LosesReport};

    /// An outlet may become another one over the reports that were taken of so many cores. The last thing that it gave had an
    /// answer; and maybe memory ran out for what is made of a report.
    ghost gave: { Self → ℕ → List (TakenReport P) → Bool → Drained → Self → Type 0 };

    /// Nothing that it keeps is due, by what the collector knows.
    ghost rests: { Self → CollectorState → Type 0 };

    /// Keeps what it makes of a report, of which the collector took note. After an error that is lost.
    fn keep(&mut self, collector: &Collector, report: &Report<P>) -> Result<(), Memory>
        ensures kept { OnOk result (KeepsReport gave collector.now report.now self.old self.new) }
        ensures lost { OnErr result (LosesReport gave collector.now report.now self.old self.new) };

    /// Gives what is due, by what the collector knows, up to the first thing that is refused.
    fn release(&mut self, collector: &Collector) -> Drained
        ensures due { GivesDue gave collector.now result self.old self.new }
        ensures rests { result ≡ Kept → rests self.new collector.now };
}
