//! What the calling thread does of a run: it drives the chain at its two ends, and takes the cores' reports.
ghost use Rattle.std.specs.Prelude.{◌≡◌, ◌↔◌, ◌<◌, ◌≤◌, ◌&&◌, true, false, [], length, Some, None, All, IfOk};
ghost use Rattle.hj_msg.specs.Driver.{port_of};
ghost use Rattle.hj_driver.specs.Driver.{cause_of, closing_of, count_of, is_finished};
ghost use Rattle.hj_collect.specs.Collector.{has_ended};

use crate::outlet::Outlet;
use crate::ports::Ports;
use crate::step::DeskStep;
use hj_base::{CoreNo, Memory, Share, Side};
use hj_collect::Collector;
use hj_driver::{Admitted, Closing, Driver};
use hj_link::{LeftEnd, Receiver, RightEnd};
use hj_msg::{Drained, Event, Feed, Fin, Given, Msg, Report};
use std::alloc::Global;

/// The calling thread's part of a run. It holds the two ends of the chain and the receivers of the cores' reports, and
/// no thread.
#[derive(Drop)]
pub struct Desk<P: Drop> {
    pub driver: Driver,
    pub ports: Ports<P>,
    /// The receiver of each core's reports, by the place of the core.
    pub reports: Vec<Receiver<Report<P>>>,
    pub collector: Collector,
    /// What the feed said last, if it isn't used up.
    pub next: Option<Given<P>>,
    /// The number of the next turn.
    pub turns: u64,
    /// Whether memory ran out for what is made of a report.
    pub over: bool,
}

impl<P: Share + Drop> Desk<P> {
    ghost use Rattle.std.specs.Prelude.{ℕ};
    ghost use Rattle.hj_msg.specs.declared.event.Event.{Event as SomeEvent};
    ghost use Rattle.hj_msg.specs.declared.feed.Given.{Given as Answer};
    ghost use Rattle.hj_msg.specs.Feed.{FeedState, event_in, first_numbering};
    ghost use Rattle.hj_desk.specs.Ports.{end_at};
    ghost use Rattle.hj_desk.specs.Desk.{DeskHistory, StandsFor, Stands, nothing_happened};
    ghost use Rattle.hj_desk.specs.Steps.{IsSpent, Receives, Admits, Collects, Gives, end_of, reports_of, with_events};

    /// Makes the part of a run in which nothing happened yet, over the two ends of the chain and the receivers of the
    /// cores' reports, with at most `flight` events outstanding.
    pub fn new(
        alloc: Global,
        flight: u16,
        left: LeftEnd<Msg<P>>,
        right: RightEnd<Msg<P>>,
        reports: Vec<Receiver<Report<P>>>,
    ) -> Result<Self, Memory>
        requires few { length reports.items ≤ 64 }
        requires left_unused { left.journal ≡ [] }
        requires right_unused { right.journal ≡ [] }
        requires reports_unused { All (λ receiver. receiver.journal ≡ []) reports.items }
        ensures stands { IfOk result (λ desk. (feed : FeedState) → feed.numbering ≡ first_numbering → StandsFor desk feed nothing_happened) }
        ensures parts { IfOk result (λ desk. (desk.ports.left ≡ left) × (desk.ports.right ≡ right) × (desk.reports ≡ reports)) }
        ensures flight { IfOk result (λ desk. desk.driver.flight ≡ flight) }
        ensures unasked { IfOk result (λ desk. (desk.next ≡ None) × (desk.turns ≡ 0) × (desk.over ≡ false)) }
    {
        let cores = reports.len() as u16;
        let driver = Driver::new(alloc, cores, flight)?;
        let collector = Collector::new(alloc, cores)?;
        Ok(Desk {
            driver,
            ports: Ports { left, right },
            reports,
            collector,
            next: None,
            turns: 0,
            over: false,
        })
    }

    /// Returns whether no turn number is left. Then no step puts or takes any more.
    #[inline(always)]
    pub fn is_spent(&self) -> bool
        ensures { (result ≡ true) ↔ IsSpent self.now }
    {
        self.turns == u64::MAX
    }

    /// Returns whether the feed is to be asked before the driver can put anything.
    #[inline(always)]
    pub fn is_unasked(&self) -> bool
        ensures { (result ≡ true) ↔ (self.now.next ≡ None) }
    {
        self.next.is_none()
    }

    /// Takes the first message that comes out at a port, and lets the driver take note of it.
    #[inline(always)]
    pub fn receive(&mut self, port: Side) -> DeskStep
        ensures { Receives port result self.old self.new }
    {
        if self.is_spent() {
            return DeskStep::Spent;
        }
        let Some(message) = self.ports.take(port, self.turns) else {
            return DeskStep::Idle;
        };
        self.turns += 1;
        self.driver.took(port, &message);
        DeskStep::Did
    }

    /// Asks the feed for the next event.
    pub fn ask<F: Feed<P>>(&mut self, feed: &mut F)
        requires { self.old.next ≡ None }
        ensures gives { (given : Answer P) × (self.new ≡ record self.old { next = Some given }) × F.gives feed.old given feed.new }
        ensures stands { (history : DeskHistory P) → StandsFor self.old (F.state feed.old) history → StandsFor self.new (F.state feed.new) (with_events (event_in self.new.next) history) }
    {
        self.next = Some(feed.next());
    }

    /// Puts the next event, or both closes if no event is to come: if the driver may, and the links have room.
    #[inline(always)]
    pub fn admit(&mut self) -> DeskStep
        requires { (feed : FeedState) × Stands self.old feed }
        ensures { Admits result self.old self.new }
    {
        if self.is_spent() {
            return DeskStep::Spent;
        }
        match &self.next {
            None => DeskStep::Idle,
            Some(Given::Stop) => self.close(),
            Some(Given::Event(event)) => {
                if self.driver.waits(event).is_some() {
                    return DeskStep::Idle;
                }
                let port = event.port();
                if !self.ports.has_room(port) {
                    return DeskStep::Idle;
                }
                self.put_event();
                DeskStep::Did
            }
        }
    }

    /// Takes the next report of a core, and lets an outlet keep what it makes of it. If memory runs out for that, it is lost.
    #[inline(always)]
    pub fn collect<O: Outlet<P>>(&mut self, core: CoreNo, outlet: &mut O) -> DeskStep
        requires stands { (feed : FeedState) × Stands self.old feed }
        requires in_range { core.0 < length self.old.reports.items }
        ensures { Collects O.gave core result self.old outlet.old self.new outlet.new }
    {
        if self.is_spent() {
            return DeskStep::Spent;
        }
        let Some(report) = self.reports[usize::from(core.0)].take(self.turns) else {
            return DeskStep::Idle;
        };
        self.turns += 1;
        self.collector.update_marks(core, &report);
        if outlet.keep(&self.collector, &report).is_err() {
            self.over = true;
            return DeskStep::Memory;
        }
        DeskStep::Did
    }

    /// Lets an outlet give what is due, up to the first thing that is refused. Where memory ran out for a report nothing is given.
    pub fn release<O: Outlet<P>>(&self, outlet: &mut O) -> Drained
        ensures { Gives O.gave O.rests result self.now outlet.old outlet.new }
    {
        if self.over {
            return Drained::Kept;
        }
        outlet.release(&self.collector)
    }

    /// Returns whether the driver took both closes, and of each core the report of its end was taken.
    pub fn is_done(&self) -> bool
        ensures { result ≡ (is_finished self.now.driver.closes && has_ended self.now.collector) }
    {
        self.driver.finished() && self.collector.ended()
    }

    /// Returns how the run ended, if it did: memory ran out, at the desk or at a core; or all is done.
    pub fn end(&self) -> Option<Fin>
        ensures { result ≡ end_of self.now }
    {
        if self.over || self.collector.stopped().is_some() {
            return Some(Fin::Memory);
        }
        self.is_done().then_some(Fin::Done)
    }

    /// Returns how many cores there are.
    pub fn cores(&self) -> u16
        requires { length self.now.reports.items ≤ 64 }
        ensures { result ≡ length self.now.reports.items }
    {
        self.reports.len() as u16
    }

    /// Returns how many events are outstanding.
    #[inline(always)]
    pub fn outstanding(&self) -> u32
        ensures { result ≡ count_of self.now.driver }
    {
        self.driver.outstanding()
    }

    /// Returns how many reports come of what is known next: each core reports a row that arrives, and a quiet event.
    #[inline(always)]
    pub fn reports_of_next(&self) -> u64
        ensures { result ≡ reports_of self.now.next (length self.now.reports.items) }
    {
        match &self.next {
            Some(Given::Event(Event::Arrive { .. } | Event::Quiet { .. })) => {
                self.reports.len() as u64
            }
            _ => 0,
        }
    }

    /// Puts the next event, which needn't wait and has room.
    fn put_event(&mut self)
        requires number { ¬ (IsSpent self.old) }
        requires stands { (feed : FeedState) × Stands self.old feed }
        requires event { (event : SomeEvent P) × (self.old.next ≡ Some (Given.Event event)) × (cause_of event self.old.driver ≡ None) × (0 < (end_at (port_of event) self.old.ports).room) }
        ensures { Admits DeskStep.Did self.old self.new }
    {
        let Some(Given::Event(event)) = self.next.take() else {
            unreachable!()
        };
        let Admitted::Send(port, message) = self.driver.admit(event) else {
            unreachable!()
        };
        self.ports.put(port, self.turns, message);
        self.turns += 1;
    }

    /// Puts both closes, if no event is outstanding and both links have room.
    fn close(&mut self) -> DeskStep
        requires number { ¬ (IsSpent self.old) }
        requires last { self.old.next ≡ Some Given.Stop }
        ensures { Admits result self.old self.new }
    {
        if self.driver.closing() != Closing::Send {
            return DeskStep::Idle;
        }
        if !self.ports.has_room(Side::Left) {
            return DeskStep::Idle;
        }
        if !self.ports.has_room(Side::Right) {
            return DeskStep::Idle;
        }
        self.driver.close();
        self.ports.put_closes(self.turns);
        self.turns += 1;
        DeskStep::Did
    }
}
