ghost use Rattle.std.specs.Prelude.{◌≡◌, ◌<◌, ◌≤◌, List, None, [], ◌∷◌, ◌++◌, IfOk, IsTrue};
ghost use Rattle.std.specs.Bool.{OnTrue, OnFalse};
ghost use Rattle.hj_msg.specs.Driver.{DriverTurn, admission, receipt, admitted, message_of, port_of};
ghost use Rattle.hj_msg.specs.Event.{IsWellFormed};
ghost use Rattle.hj_driver.specs.Driver.{IsNewEvent, after_put, after_take, answer_to, awaits, cause_of, closed, closing_of, count_of, is_finished, is_send, new_driver};
ghost use Rattle.hj_driver.specs.StandsFor.{StandsFor, cause_after};

use crate::closes::Closes;
use crate::lane::{Departure, Lane};
use crate::leaving::Leaving;
use crate::{Admitted, Closing, Why};
use hj_base::{EventNo, Memory, Side};
use hj_msg::{Event, Msg};
use std::alloc::Global;
use std::marker::Model;

/// What is outstanding of the events that were put into the chain, and how far the closes have come.
#[derive(Debug, Drop)]
pub struct Driver {
    left: Lane,
    right: Lane,
    left_quiets: Leaving,
    right_quiets: Leaving,
    flight: u16,
    closes: Closes,
}

impl Model for Driver {
    ghost use Rattle.hj_driver.specs.Driver.{DriverState, HasRoom};

    ghost Value = { DriverState };

    ghost view = { λ d. record {
      flight = d.flight;
      left_arrivals = d.left.arrivals;
      left_expiries = d.left.expiries;
      right_arrivals = d.right.arrivals;
      right_expiries = d.right.expiries;
      left_quiets = d.left_quiets.numbers;
      right_quiets = d.right_quiets.numbers;
      closes = d.closes;
    } };

    ghost invariant = { λ d. HasRoom d.flight d.left d.right d.left_quiets d.right_quiets };
}

impl Driver {
    /// Makes the driver of a chain in which nothing was put, with at most `flight` events outstanding. Its rules are
    /// the same for every number of cores. All memory of the driver is taken here.
    pub fn new(alloc: Global, _cores: u16, flight: u16) -> Result<Self, Memory>
        ensures { IfOk result (λ driver. driver ≡ new_driver flight) }
    {
        let room = usize::from(flight);
        Ok(Driver {
            left: Lane::new(alloc, room)?,
            right: Lane::new(alloc, room)?,
            left_quiets: Leaving::new(alloc, room)?,
            right_quiets: Leaving::new(alloc, room)?,
            flight,
            closes: Closes::Unsent,
        })
    }

    /// Returns how many events are outstanding: put, and not yet left.
    #[inline(always)]
    pub fn outstanding(&self) -> u32
        ensures { result ≡ count_of self.now }
    {
        (self.left.len()
            + self.right.len()
            + self.left_quiets.len()
            + self.right_quiets.len()) as u32
    }

    /// Returns whether both closes were taken.
    pub fn finished(&self) -> bool
        ensures { result ≡ is_finished self.now.closes }
    {
        self.closes.are_taken()
    }

    /// Returns why `admit` of this event would answer Wait now; None exactly if it would answer Send.
    #[inline(always)]
    pub fn waits<P>(&self, event: &Event<P>) -> Option<Why>
        ensures kept { result ≡ cause_of event.now self.now }
        ensures log { (log : List (DriverTurn P)) → StandsFor self.now log → IsWellFormed (admitted log ++ event.now ∷ []) → result ≡ cause_after self.now.flight event.now log }
        ensures few { count_of self.now ≤ self.now.flight }
    {
        self.cause(event)
    }

    /// Puts the next event into the chain, or says why not.
    #[inline(always)]
    pub fn admit<P>(&mut self, event: Event<P>) -> Admitted<P>
        // the events put so far, in some log that the driver stands for, and this one after them are well formed
        requires { (log : List (DriverTurn P)) × StandsFor self.old log × IsWellFormed (admitted log ++ event ∷ []) }
        ensures answer { (log : List (DriverTurn P)) → StandsFor self.old log → IsWellFormed (admitted log ++ event ∷ []) → result ≡ answer_to event (cause_after self.old.flight event log) }
        ensures sent { (log : List (DriverTurn P)) → StandsFor self.old log → IsWellFormed (admitted log ++ event ∷ []) → OnTrue (is_send result) (StandsFor self.new (log ++ admission event ∷ [])) }
        ensures waits { OnFalse (is_send result) (self.new ≡ self.old) }
        ensures flight { self.new.flight ≡ self.old.flight }
    {
        match self.cause(&event) {
            Some(why) => Admitted::Wait(why, event),
            None => {
                let (port, msg) = self.admit_now(event);
                Admitted::Send(port, msg)
            }
        }
    }

    /// Puts the next event into the chain, for which `waits` gave no cause. Returns the end of the chain at which its message is to be put,
    /// and the message.
    #[inline(always)]
    pub fn admit_now<P>(&mut self, event: Event<P>) -> (Side, Msg<P>)
        // the events put so far, in some log that the driver stands for, and this one after them are well formed
        requires log { (log : List (DriverTurn P)) × StandsFor self.old log × IsWellFormed (admitted log ++ event ∷ []) }
        requires free { cause_of event self.old ≡ None }
        requires few { count_of self.old ≤ self.old.flight }
        ensures answer { (log : List (DriverTurn P)) → StandsFor self.old log → IsWellFormed (admitted log ++ event ∷ []) → Admitted.Send result.0 result.1 ≡ answer_to event (cause_after self.old.flight event log) }
        ensures sent { (log : List (DriverTurn P)) → StandsFor self.old log → IsWellFormed (admitted log ++ event ∷ []) → StandsFor self.new (log ++ admission event ∷ []) }
        ensures flight { self.new.flight ≡ self.old.flight }
    {
        self.put(event)
    }

    /// Takes note of a message that was taken at a port.
    #[inline(always)]
    pub fn took<P>(&mut self, port: Side, msg: &Msg<P>)
        ensures turn { (log : List (DriverTurn P)) → StandsFor self.old log → StandsFor self.new (log ++ receipt port msg.now ∷ []) }
        ensures others { ¬ (IsTrue (awaits port msg.now self.old)) → self.new ≡ self.old }
        ensures flight { self.new.flight ≡ self.old.flight }
    {
        match port {
            Side::Left => self.take_at_left(msg),
            Side::Right => self.take_at_right(msg),
        }
    }

    /// Returns what `close` would answer now.
    pub fn closing(&self) -> Closing
        ensures { result ≡ closing_of self.now }
    {
        if self.closes.are_sent() {
            return Closing::Already;
        }
        match self.outstanding() {
            0 => Closing::Send,
            count => Closing::Wait(count),
        }
    }

    /// Answers a wish to close: both closes are to be put now if no event is outstanding and they weren't sent before.
    pub fn close(&mut self) -> Closing
        ensures answer { result ≡ closing_of self.old }
        ensures sent { result ≡ Closing.Send → self.new ≡ closed self.old }
        ensures waits { ¬ (result ≡ Closing.Send) → self.new ≡ self.old }
    {
        let answer = self.closing();
        if answer == Closing::Send {
            self.closes = Closes::Sent {
                left: false,
                right: false,
            };
        }
        answer
    }

    /// Returns why an event waits, if it does.
    #[inline(always)]
    fn cause<P>(&self, event: &Event<P>) -> Option<Why>
        ensures cause { result ≡ cause_of event.now self.now }
        ensures few { count_of self.now ≤ self.now.flight }
    {
        if self.closes.are_sent() {
            return Some(Why::Closed);
        }
        let count = self.outstanding();
        if count == u32::from(self.flight) {
            return Some(Why::Flight(count));
        }
        match event {
            Event::Arrive { .. } | Event::Quiet { .. } => None,
            Event::Expire { side, of, .. } => {
                let waits = match side {
                    Side::Left => self.left.waits_for_row(*of),
                    Side::Right => self.right.waits_for_row(*of),
                };
                waits.then_some(Why::NotMarked(*of))
            }
        }
    }

    /// Takes note that an event is put; returns the end of the chain at which it is put, and its message.
    #[inline(always)]
    fn put<P>(&mut self, event: Event<P>) -> (Side, Msg<P>)
        requires room { count_of self.old < self.old.flight }
        requires new { IsNewEvent event self.old }
        ensures port { result.0 ≡ port_of event }
        ensures message { result.1 ≡ message_of event }
        ensures state { self.new ≡ after_put event self.old }
    {
        match event {
            Event::Arrive { no, side, row } => self.put_row(no, side, row),
            Event::Expire {
                side: Side::Left,
                of,
                ..
            } => {
                self.left.expire(of);
                (Side::Right, Msg::ExpR(of))
            }
            Event::Expire {
                side: Side::Right,
                of,
                ..
            } => {
                self.right.expire(of);
                (Side::Left, Msg::ExpS(of))
            }
            Event::Quiet {
                no,
                side: Side::Left,
            } => {
                self.left_quiets.put(no);
                (Side::Left, Msg::QuietL(no))
            }
            Event::Quiet {
                no,
                side: Side::Right,
            } => {
                self.right_quiets.put(no);
                (Side::Right, Msg::QuietR(no))
            }
        }
    }

    /// Takes note that a row is put; returns the end of the chain at which it is put, and its message.
    #[inline(always)]
    fn put_row<P>(&mut self, no: EventNo, side: Side, row: P) -> (Side, Msg<P>)
        requires room { count_of self.old < self.old.flight }
        requires new { IsNewEvent (Event.Arrive no side row) self.old }
        ensures port { result.0 ≡ port_of (Event.Arrive no side row) }
        ensures message { result.1 ≡ message_of (Event.Arrive no side row) }
        ensures state { self.new ≡ after_put (Event.Arrive no side row) self.old }
    {
        match side {
            Side::Left => {
                self.left.arrive(no);
                (Side::Left, Msg::R { no, row })
            }
            Side::Right => {
                self.right.arrive(no);
                (Side::Right, Msg::S { no, row })
            }
        }
    }

    /// Takes note of a message that was taken at the left port.
    #[inline(always)]
    fn take_at_left<P>(&mut self, msg: &Msg<P>)
        ensures { self.new ≡ after_take Side.Left msg.now self.old }
    {
        match msg {
            Msg::S { no, .. } => self.right.take(*no, Departure::Row),
            Msg::EndR(no) => self.left.take(*no, Departure::End),
            Msg::ExpR(of) => self.left.take_expiry(*of),
            Msg::QuietR(no) => self.right_quiets.take(*no),
            Msg::CloseR => self.closes = self.closes.take(Side::Right),
            _ => {}
        }
    }

    /// Takes note of a message that was taken at the right port.
    #[inline(always)]
    fn take_at_right<P>(&mut self, msg: &Msg<P>)
        ensures { self.new ≡ after_take Side.Right msg.now self.old }
    {
        match msg {
            Msg::R { no, .. } => self.left.take(*no, Departure::Row),
            Msg::EndS(no) => self.right.take(*no, Departure::End),
            Msg::ExpS(of) => self.right.take_expiry(*of),
            Msg::QuietL(no) => self.left_quiets.take(*no),
            Msg::CloseL => self.closes = self.closes.take(Side::Left),
            _ => {}
        }
    }
}
