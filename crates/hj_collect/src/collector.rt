ghost use Rattle.std.specs.Prelude.{◌≡◌, ◌≢◌, ◌<◌, ◌++◌, [], ◌∷◌, List, length, IfNone, IfOk, IfSome, OnOk, OnErr};
ghost use Rattle.hj_msg.specs.declared.message.Report.{Report};
ghost use Rattle.hj_msg.specs.Met.{pairs_of};
ghost use Rattle.hj_msg.specs.Punctuation.{lesser};
ghost use Rattle.hj_collect.specs.Marks.{least_of, meaning_of, with_end, with_raised};
ghost use Rattle.hj_collect.specs.Reach.{reached};
ghost use Rattle.hj_collect.specs.Collector.{after_report, first_stopped, has_ended, least_mark, nothing_taken};
ghost use Rattle.hj_collect.specs.StandsFor.{StandsFor, with_report};

use crate::Mark;
use crate::marks::Marks;
use crate::pairs::{only_pair, pairs_of, push_pairs};
use crate::reach::Reach;
use hj_base::{CoreNo, EventNo, Memory, Share, Side};
use hj_msg::{Pair, Report};
use std::alloc::Global;
use std::marker::Model;

/// How far the cores have come, by the reports that were taken of them.
#[derive(Debug, Drop)]
pub struct Collector {
    alloc: Global,
    left: Marks,
    right: Marks,
    /// The least mark of all cores and both sides.
    least: Reach,
    stopped: Option<CoreNo>,
}

impl Model for Collector {
    ghost use Rattle.std.specs.Prelude.{◌≡◌, length};
    ghost use Rattle.hj_msg.specs.Punctuation.{lesser};
    ghost use Rattle.hj_collect.specs.Collector.{CollectorState};
    ghost use Rattle.hj_collect.specs.Marks.{least_of};
    ghost use Rattle.hj_collect.specs.Reach.{reached};

    ghost Value = { CollectorState };

    ghost view = { λ c. record { left = c.left; right = c.right; stopped = c.stopped } };

    ghost invariant = { λ c. record {
      cores : length c.left ≡ length c.right;
      least : reached c.least ≡ lesser (least_of c.left) (least_of c.right);
    } };
}

impl Collector {
    /// Makes the collector of `cores` cores, of which no report was taken.
    pub fn new(alloc: Global, cores: u16) -> Result<Self, Memory>
        ensures { IfOk result (λ collector. collector ≡ nothing_taken cores) }
    {
        let left = Marks::new(alloc, cores)?;
        let right = Marks::new(alloc, cores)?;
        let least = least_of(&left, &right);
        Ok(Collector {
            alloc,
            left,
            right,
            least,
            stopped: None,
        })
    }

    /// Takes the next report of a core, and gives its pairs. A report without partners takes no memory. After an error
    /// the report isn't taken.
    pub fn take<P: Share + Drop>(
        &mut self,
        core: CoreNo,
        report: &Report<P>,
    ) -> Result<Vec<Pair<P>>, Memory>
        requires { core.0 < length self.old.left }
        ensures pairs { IfOk result (λ pairs. pairs.items ≡ pairs_of report.now) }
        ensures taken { OnOk result ((lists : List (List (Report P))) → StandsFor self.old lists → StandsFor self.new (with_report core.0 report.now lists)) }
        ensures stopped { OnOk result (self.new.stopped ≡ first_stopped self.old.stopped core report.now) }
        ensures cores { length self.new.left ≡ length self.old.left }
        ensures err { OnErr result (self.new ≡ self.old) }
    {
        let pairs = self.pairs(report)?;
        self.update_marks(core, report);
        Ok(pairs)
    }

    /// Makes the pairs of a report, each with rows of its own. A report without partners takes no memory.
    #[inline(always)]
    pub fn pairs<P: Share + Drop>(&self, report: &Report<P>) -> Result<Vec<Pair<P>>, Memory>
        ensures { IfOk result (λ pairs. pairs.items ≡ pairs_of report.now) }
    {
        pairs_of(self.alloc, report)
    }

    /// Puts the pairs of a report behind those of a list, each with rows of its own. A report without partners takes no memory. After an
    /// error a part of its pairs may be there.
    #[inline(always)]
    pub fn push_pairs<P: Share + Drop>(
        &self,
        pairs: &mut Vec<Pair<P>>,
        report: &Report<P>,
    ) -> Result<(), Memory>
        ensures { OnOk result (pairs.new.items ≡ pairs.old.items ++ pairs_of report.now) }
    {
        push_pairs(pairs, report)
    }

    /// Makes the pair of a report that has one, with rows of its own: it takes no list. None where there is none, or where there are
    /// several.
    #[inline(always)]
    pub fn only_pair<P: Share + Drop>(&self, report: &Report<P>) -> Result<Option<Pair<P>>, Memory>
        ensures one { IfOk result (λ found. IfSome found (λ pair. pairs_of report.now ≡ pair ∷ [])) }
        ensures none { IfOk result (λ found. IfNone found (length (pairs_of report.now) ≢ 1)) }
    {
        only_pair(report)
    }

    /// Takes note of the next report of a core: of the marks that it gives, or that the core stopped.
    #[inline(always)]
    pub fn update_marks<P>(&mut self, core: CoreNo, report: &Report<P>)
        requires { core.0 < length self.old.left }
        ensures { self.new ≡ after_report core report.now self.old }
    {
        let at = usize::from(core.0);
        let (no, side) = match report {
            Report::Handled { no, side, .. } | Report::Quiet { no, side } => (*no, *side),
            Report::Ended => return self.mark_ended(at),
            Report::NoMemory => {
                self.stopped = self.stopped.or(Some(core));
                return;
            }
        };
        match side {
            Side::Left => self.raise_left(at, no),
            Side::Right => self.raise_right(at, no),
        }
    }

    /// Takes note that a core reported a left arrival, or a quiet event of the left side.
    #[inline(always)]
    fn raise_left(&mut self, core: usize, no: EventNo)
        requires { core < length self.old.left }
        ensures { self.new ≡ record self.old { left = with_raised core no.0 self.old.left } }
    {
        if self.left.raise(core, no) {
            self.least = least_of(&self.left, &self.right);
        }
    }

    /// Takes note of the same of the right side.
    #[inline(always)]
    fn raise_right(&mut self, core: usize, no: EventNo)
        requires { core < length self.old.left }
        ensures { self.new ≡ record self.old { right = with_raised core no.0 self.old.right } }
    {
        if self.right.raise(core, no) {
            self.least = least_of(&self.left, &self.right);
        }
    }

    /// Takes note that a core reported its end.
    fn mark_ended(&mut self, core: usize)
        requires { core < length self.old.left }
        ensures { self.new ≡ record self.old { left = with_end core self.old.left; right = with_end core self.old.right } }
    {
        self.left.mark_ended(core);
        self.right.mark_ended(core);
        self.least = least_of(&self.left, &self.right);
    }

    /// Returns up to which number all pairs have come: None if some core that hasn't ended hasn't reported both sides.
    #[inline(always)]
    pub fn punctuation(&self) -> Option<Mark>
        ensures { meaning_of result ≡ least_mark self.now }
    {
        self.least.mark()
    }

    /// Returns whether every core reported its end.
    pub fn ended(&self) -> bool
        ensures { result ≡ has_ended self.now }
    {
        self.punctuation() == Some(Mark::All)
    }

    /// Returns the first core that reported that memory ran out.
    pub fn stopped(&self) -> Option<CoreNo>
        ensures { result ≡ self.now.stopped }
    {
        self.stopped
    }
}

/// Returns the least mark of both sides.
#[inline(always)]
fn least_of(left: &Marks, right: &Marks) -> Reach
    ensures { reached result ≡ lesser (least_of left.now) (least_of right.now) }
{
    left.least().min(right.least())
}
