ghost use Rattle.std.specs.Prelude.{◌≡◌, ◌<◌, ◌↔◌, ◌++◌, [], ◌∷◌, length, drop, slice_get, IsOk, IsNone, IfOk, IfErr, OnOk, OnErr, IfSome};
ghost use Rattle.std.specs.Option.{option_copied};
ghost use Rattle.hj_chain.specs.Queues.{no_messages};

use crate::short_queue::ShortQueue;
use hj_base::{Full, Memory};
use std::alloc::Global;
use std::collections::VecDeque;
use std::marker::Model;

/// A link between two neighbours: a queue of messages in each direction, each with the same capacity. Of its calls `new`
/// alone takes memory. In a run in turn a message that goes left waits for a round at each core, mostly alone, while those that go
/// right wait in a line.
#[derive(Drop)]
pub struct PlainLink<M> {
    rightwards: VecDeque<M>,
    leftwards: ShortQueue<M>,
    capacity: usize,
}

impl<M> Model for PlainLink<M> {
    ghost use Rattle.std.specs.Prelude.{◌≡◌, ◌≤◌, length};
    ghost use Rattle.std.specs.VecDeque.{deque_capacity};
    ghost use Rattle.hj_chain.specs.Queues.{Queues};

    ghost Value = { Queues M };

    ghost view = { λ l. record { capacity = l.capacity; rightwards = l.rightwards.items; leftwards = l.leftwards.items } };

    ghost invariant = { λ l. record {
      right_room : l.capacity ≤ deque_capacity l.rightwards;
      left_room : l.leftwards.capacity ≡ l.capacity;
      rightwards : length l.rightwards.items ≤ l.capacity;
      leftwards : length l.leftwards.items ≤ l.capacity;
    } };
}

impl<M: Drop> PlainLink<M> {
    /// Makes a link on which nothing is under way, with room for `capacity` messages in each direction.
    pub fn new(alloc: Global, capacity: usize) -> Result<Self, Memory>
        ensures { IfOk result (λ link. link ≡ no_messages capacity) }
    {
        Ok(PlainLink {
            rightwards: VecDeque::with_capacity(alloc, capacity)?,
            leftwards: ShortQueue::with_capacity(alloc, capacity)?,
            capacity,
        })
    }

    /// Puts a message after those under way to the right; hands it back exactly if there are as many as the capacity.
    #[inline(always)]
    pub fn put_right(&mut self, m: M) -> Result<(), Full<M>>
        ensures room { IsOk result ↔ (length self.old.rightwards < self.old.capacity) }
        ensures put { OnOk result (self.new ≡ record self.old { rightwards = self.old.rightwards ++ m ∷ [] }) }
        ensures full { IfErr result (λ full. (full.0 ≡ m) × (length self.old.rightwards ≡ self.old.capacity)) }
        ensures same { OnErr result (self.new ≡ self.old) }
    {
        if self.rightwards.len() == self.capacity {
            return Err(Full(m));
        }
        self.send_right(m);
        Ok(())
    }

    /// Puts a message after those under way to the right, where there is room.
    #[inline(always)]
    pub fn send_right(&mut self, m: M)
        requires { length self.old.rightwards < self.old.capacity }
        ensures { self.new ≡ record self.old { rightwards = self.old.rightwards ++ m ∷ [] } }
    {
        self.rightwards.push_back_reserved(m);
    }

    /// Takes the first message under way to the right; None exactly if there is none.
    #[inline(always)]
    pub fn take_right(&mut self) -> Option<M>
        ensures first { result ≡ slice_get self.old.rightwards 0 }
        ensures rest { self.new ≡ record self.old { rightwards = drop 1 self.old.rightwards } }
        ensures taken { IfSome result (λ m. self.old.rightwards ≡ m ∷ self.new.rightwards) }
        ensures empty { IsNone result ↔ (self.old.rightwards ≡ []) }
    {
        self.rightwards.pop_front()
    }

    /// Puts a message back in front of those under way to the right, where there is room: the one that was taken last.
    pub fn put_back_right(&mut self, m: M)
        requires { length self.old.rightwards < self.old.capacity }
        ensures { self.new ≡ record self.old { rightwards = m ∷ self.old.rightwards } }
    {
        self.rightwards.push_front_reserved(m);
    }

    /// Returns the first message under way to the right, which stays; None exactly if there is none.
    #[inline(always)]
    pub fn look_right(&self) -> Option<&M>
        ensures first { option_copied result ≡ slice_get self.now.rightwards 0 }
        ensures empty { IsNone result ↔ (self.now.rightwards ≡ []) }
    {
        self.rightwards.front()
    }

    /// Puts a message after those under way to the left; hands it back exactly if there are as many as the capacity.
    #[inline(always)]
    pub fn put_left(&mut self, m: M) -> Result<(), Full<M>>
        ensures room { IsOk result ↔ (length self.old.leftwards < self.old.capacity) }
        ensures put { OnOk result (self.new ≡ record self.old { leftwards = self.old.leftwards ++ m ∷ [] }) }
        ensures full { IfErr result (λ full. (full.0 ≡ m) × (length self.old.leftwards ≡ self.old.capacity)) }
        ensures same { OnErr result (self.new ≡ self.old) }
    {
        if self.leftwards.len() == self.capacity {
            return Err(Full(m));
        }
        self.send_left(m);
        Ok(())
    }

    /// Puts a message after those under way to the left, where there is room.
    #[inline(always)]
    pub fn send_left(&mut self, m: M)
        requires { length self.old.leftwards < self.old.capacity }
        ensures { self.new ≡ record self.old { leftwards = self.old.leftwards ++ m ∷ [] } }
    {
        self.leftwards.push_back(m);
    }

    /// Takes the first message under way to the left; None exactly if there is none.
    #[inline(always)]
    pub fn take_left(&mut self) -> Option<M>
        ensures first { result ≡ slice_get self.old.leftwards 0 }
        ensures rest { self.new ≡ record self.old { leftwards = drop 1 self.old.leftwards } }
        ensures taken { IfSome result (λ m. self.old.leftwards ≡ m ∷ self.new.leftwards) }
        ensures empty { IsNone result ↔ (self.old.leftwards ≡ []) }
    {
        self.leftwards.pop_front()
    }

    /// Puts a message back in front of those under way to the left, where there is room: the one that was taken last.
    pub fn put_back_left(&mut self, m: M)
        requires { length self.old.leftwards < self.old.capacity }
        ensures { self.new ≡ record self.old { leftwards = m ∷ self.old.leftwards } }
    {
        self.leftwards.push_front(m);
    }

    /// Returns the first message under way to the left, which stays; None exactly if there is none.
    #[inline(always)]
    pub fn look_left(&self) -> Option<&M>
        ensures first { option_copied result ≡ slice_get self.now.leftwards 0 }
        ensures empty { IsNone result ↔ (self.now.leftwards ≡ []) }
    {
        self.leftwards.front()
    }
}
