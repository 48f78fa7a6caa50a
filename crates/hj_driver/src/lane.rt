ghost use Rattle.std.specs.Prelude.{◌≡◌, ◌+◌, ◌<◌, [], ◌∷◌, ◌++◌, ◌==◌, ◌^◌, length, not, position, IfOk, IfErr};
ghost use Rattle.std.specs.List.{All, Contains, filter, filter_map, list_any, remove};
ghost use Rattle.std.specs.VecDeque.{deque_capacity};
ghost use Rattle.hj_driver.specs.Lane.{after_departure, is_other, is_taken, waits_for, with_departure, IsAt, IsAbsent};

use hj_base::{EventNo, Memory};
use std::alloc::Global;
use std::collections::VecDeque;
use std::marker::Model;

/// One of the two messages by which an arrival leaves the chain.
#[derive(Clone, Copy, Debug, PartialEq, Eq)]
pub enum Departure {
    /// The row itself, at the far end.
    Row,
    /// The mark that the row has been at every core, at the end where the row came in.
    End,
}

/// An outstanding arrival, with the message of it that was taken, if any.
#[derive(Clone, Copy, Debug, PartialEq, Eq)]
pub struct OutstandingArrival {
    pub no: EventNo,
    pub taken: Option<Departure>,
}

impl OutstandingArrival {
    /// Returns whether its row is still to be taken.
    #[inline(always)]
    fn is_before_its_row(self) -> bool
        ensures { result ≡ not (is_taken Departure.Row self.taken) }
    {
        !matches!(self.taken, Some(Departure::Row))
    }

    /// Returns the arrival after one of its messages; None exactly if the other one was taken before, so that it has
    /// left.
    #[inline(always)]
    fn after(self, departure: Departure) -> Option<OutstandingArrival>
        ensures { result ≡ with_departure departure self self.taken }
    {
        match (self.taken, departure) {
            (None, _) => Some(OutstandingArrival {
                no: self.no,
                taken: Some(departure),
            }),
            (Some(Departure::Row), Departure::Row) | (Some(Departure::End), Departure::End) => Some(
                self,
            ),
            (Some(Departure::Row), Departure::End) | (Some(Departure::End), Departure::Row) => None,
        }
    }
}

/// The outstanding events of one side: its arrivals by rising number, and its expiries, each by the number of its row,
/// in the order in which they were put, which is mostly that in which they leave.
#[derive(Debug, Drop)]
pub struct Lane {
    arrivals: VecDeque<OutstandingArrival>,
    expiries: VecDeque<EventNo>,
    room: usize,
    /// Where the arrival is thought to stand whose row is taken next: rows are taken in the order in which they were put.
    next_row: usize,
}

impl Model for Lane {
    ghost use Rattle.std.specs.Prelude.{◌≤◌};
    ghost use Rattle.std.specs.VecDeque.{deque_capacity};
    ghost use Rattle.hj_driver.specs.Lane.{LaneState, IsRising, AreDistinct};

    ghost Value = { LaneState };

    ghost view = { λ l. record { arrivals = l.arrivals.items; expiries = l.expiries.items; room = l.room } };

    ghost invariant = { λ l. record {
      rising : IsRising l.arrivals.items;
      distinct : AreDistinct l.expiries.items;
      for_arrivals : l.room ≤ deque_capacity l.arrivals;
      for_expiries : l.room ≤ deque_capacity l.expiries;
    } };
}

impl Lane {
    /// Makes a lane with no events, and room for `room` of each kind.
    pub fn new(alloc: Global, room: usize) -> Result<Self, Memory>
        ensures { IfOk result (λ lane. lane ≡ record { arrivals = []; expiries = []; room = room }) }
    {
        Ok(Lane {
            arrivals: VecDeque::with_capacity(alloc, room)?,
            expiries: VecDeque::with_capacity(alloc, room)?,
            room,
            next_row: 0,
        })
    }

    /// Returns how many events are outstanding.
    #[inline(always)]
    pub fn len(&self) -> usize
        requires { length self.now.arrivals + length self.now.expiries < 2 ^ 64 }
        ensures { result ≡ length self.now.arrivals + length self.now.expiries }
    {
        self.arrivals.len() + self.expiries.len()
    }

    /// Returns whether the row of an arrival is still to be taken.
    #[inline(always)]
    pub fn waits_for_row(&self, no: EventNo) -> bool
        ensures { result ≡ list_any (waits_for no.0 Departure.Row) self.now.arrivals }
    {
        match self.search(no) {
            Ok(at) => self.arrivals[at].is_before_its_row(),
            Err(_) => false,
        }
    }

    /// Takes note that an arrival is put.
    #[inline(always)]
    pub fn arrive(&mut self, no: EventNo)
        requires room { length self.old.arrivals < self.old.room }
        requires rising { All (λ arrival. arrival.no.0 < no.0) self.old.arrivals }
        ensures { self.new ≡ record self.old { arrivals = self.old.arrivals ++ record { no = no; taken = None } ∷ [] } }
    {
        self.arrivals
            .push_back_reserved(OutstandingArrival { no, taken: None });
    }

    /// Takes note that the expiry of a row is put.
    #[inline(always)]
    pub fn expire(&mut self, of: EventNo)
        requires room { length self.old.expiries < self.old.room }
        requires once { ¬ (Contains self.old.expiries of) }
        ensures { self.new ≡ record self.old { expiries = self.old.expiries ++ of ∷ [] } }
    {
        self.expiries.push_back_reserved(of);
    }

    /// Takes note that a message of an arrival was taken.
    #[inline(always)]
    pub fn take(&mut self, no: EventNo, departure: Departure)
        ensures { self.new ≡ record self.old { arrivals = filter_map (after_departure no.0 departure) self.old.arrivals } }
    {
        match self.arrivals.front() {
            Some(first) if no.0 == first.no.0 => self.take_first(no, departure),
            Some(first) if no.0 < first.no.0 => {}
            _ => self.take_behind(no, departure),
        }
    }

    /// Takes note of the same, where the arrival is the first.
    #[inline(always)]
    fn take_first(&mut self, no: EventNo, departure: Departure)
        requires { IsAt self.old.arrivals no.0 0 }
        ensures { self.new ≡ record self.old { arrivals = filter_map (after_departure no.0 departure) self.old.arrivals } }
    {
        let count = self.arrivals.len();
        self.take_at(0, no, departure);
        self.next_row = if self.arrivals.len() < count {
            self.next_row.saturating_sub(1)
        } else {
            self.next_row.max(1)
        };
    }

    /// Takes note of the same, where the arrival isn't the first.
    #[inline(always)]
    fn take_behind(&mut self, no: EventNo, departure: Departure)
        ensures { self.new ≡ record self.old { arrivals = filter_map (after_departure no.0 departure) self.old.arrivals } }
    {
        let at = self.next_row;
        match self.arrivals.get(at) {
            Some(arrival) if no.0 == arrival.no.0 => {
                self.next_row = at + 1;
                self.take_at(at, no, departure);
            }
            _ => self.take_anywhere(no, departure),
        }
    }

    /// Takes note of the same, wherever the arrival stands.
    // Called, so that what is mostly done stays short.
    #[inline(never)]
    fn take_anywhere(&mut self, no: EventNo, departure: Departure)
        ensures { self.new ≡ record self.old { arrivals = filter_map (after_departure no.0 departure) self.old.arrivals } }
    {
        if let Ok(at) = self.search_all(no) {
            self.next_row = at + 1;
            self.take_at(at, no, departure);
        }
    }

    /// Takes note that a message of the arrival at a place was taken.
    #[inline(always)]
    fn take_at(&mut self, at: usize, no: EventNo, departure: Departure)
        requires { IsAt self.old.arrivals no.0 at }
        ensures { self.new ≡ record self.old { arrivals = filter_map (after_departure no.0 departure) self.old.arrivals } }
    {
        let arrival = &mut self.arrivals[at];
        match arrival.after(departure) {
            Some(after) => *arrival = after,
            None => take_out(&mut self.arrivals, at),
        }
    }

    /// Takes note that the message of the expiry of a row was taken.
    #[inline(always)]
    pub fn take_expiry(&mut self, of: EventNo)
        ensures { self.new ≡ record self.old { expiries = filter (is_other of.0) self.old.expiries } }
    {
        if let Some(at) = self.find(of) {
            take_out(&mut self.expiries, at);
        }
    }

    /// Finds the place of an arrival: mostly that of the first one, or none if it left before that one came.
    #[inline(always)]
    fn search(&self, no: EventNo) -> Result<usize, usize>
        ensures found { IfOk result (IsAt self.now.arrivals no.0) }
        ensures absent { IfErr result (λ _. IsAbsent self.now.arrivals no.0) }
    {
        match self.arrivals.front() {
            Some(first) if no.0 == first.no.0 => Ok(0),
            Some(first) if no.0 < first.no.0 => Err(0),
            _ => self.search_all(no),
        }
    }

    /// Finds the place of an arrival among all.
    fn search_all(&self, no: EventNo) -> Result<usize, usize>
        ensures found { IfOk result (IsAt self.now.arrivals no.0) }
        ensures absent { IfErr result (λ _. IsAbsent self.now.arrivals no.0) }
    {
        self.arrivals
            .binary_search_by_key(&no.0, |arrival| arrival.no.0)
    }

    /// Finds the place of an expiry: in a chain its message comes out as the first of its side.
    #[inline(always)]
    fn find(&self, of: EventNo) -> Option<usize>
        ensures { result ≡ position (λ other. of.0 == other.0) self.now.expiries }
    {
        match self.expiries.front() {
            Some(first) if of.0 == first.0 => Some(0),
            _ => self.find_behind(of),
        }
    }

    /// Finds the place of an expiry, wherever it is.
    // Called, so that what is mostly done stays short.
    #[inline(never)]
    fn find_behind(&self, of: EventNo) -> Option<usize>
        ensures { result ≡ position (λ other. of.0 == other.0) self.now.expiries }
    {
        self.expiries.iter().position(|other| of.0 == other.0)
    }
}

/// Removes the element at a place, which is mostly the first.
#[inline(always)]
pub(crate) fn take_out<T: Drop>(items: &mut VecDeque<T>, at: usize)
    requires { at < length items.old.items }
    ensures items { items.new.items ≡ remove items.old.items at }
    ensures capacity { deque_capacity items.new ≡ deque_capacity items.old }
{
    if at == 0 {
        items.pop_front();
    } else {
        items.remove(at);
    }
}
