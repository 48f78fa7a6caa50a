ghost use Rattle.std.specs.Prelude.{◌≡◌, ◌<◌, [], ◌∷◌, ◌++◌, ◌==◌, length, position, IfOk};
ghost use Rattle.std.specs.List.{Contains, filter};
ghost use Rattle.hj_driver.specs.Lane.{is_other};

use crate::lane::take_out;
use hj_base::{EventNo, Memory};
use std::alloc::Global;
use std::collections::VecDeque;
use std::marker::Model;

/// Outstanding events that leave by one message each, by their numbers, in the order in which they were put.
#[derive(Debug, Drop)]
pub struct Leaving {
    numbers: VecDeque<EventNo>,
    room: usize,
}

impl Model for Leaving {
    ghost use Rattle.std.specs.Prelude.{◌≤◌};
    ghost use Rattle.std.specs.VecDeque.{deque_capacity};
    ghost use Rattle.hj_driver.specs.Lane.{AreDistinct};
    ghost use Rattle.hj_driver.specs.Leaving.{LeavingState};

    ghost Value = { LeavingState };

    ghost view = { λ l. record { numbers = l.numbers.items; room = l.room } };

    ghost invariant = { λ l. record {
      distinct : AreDistinct l.numbers.items;
      for_numbers : l.room ≤ deque_capacity l.numbers;
    } };
}

impl Leaving {
    /// Makes an empty list, with room for `room` events.
    pub fn new(alloc: Global, room: usize) -> Result<Self, Memory>
        ensures { IfOk result (λ leaving. leaving ≡ record { numbers = []; room = room }) }
    {
        Ok(Leaving {
            numbers: VecDeque::with_capacity(alloc, room)?,
            room,
        })
    }

    /// Returns how many events are outstanding.
    #[inline(always)]
    pub fn len(&self) -> usize
        ensures { result ≡ length self.now.numbers }
    {
        self.numbers.len()
    }

    /// Takes note that an event is put.
    #[inline(always)]
    pub fn put(&mut self, no: EventNo)
        requires room { length self.old.numbers < self.old.room }
        requires once { ¬ (Contains self.old.numbers no) }
        ensures { self.new ≡ record self.old { numbers = self.old.numbers ++ no ∷ [] } }
    {
        self.numbers.push_back_reserved(no);
    }

    /// Takes note that the message of an event was taken.
    #[inline(always)]
    pub fn take(&mut self, no: EventNo)
        ensures { self.new ≡ record self.old { numbers = filter (is_other no.0) self.old.numbers } }
    {
        if let Some(at) = self.find(no) {
            take_out(&mut self.numbers, at);
        }
    }

    /// Finds the place of an event, which is mostly the first.
    #[inline(always)]
    fn find(&self, no: EventNo) -> Option<usize>
        ensures { result ≡ position (λ other. no.0 == other.0) self.now.numbers }
    {
        self.numbers.iter().position(|other| no.0 == other.0)
    }
}
