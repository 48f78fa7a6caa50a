ghost use Rattle.std.specs.Prelude.{◌≡◌, ◌<◌, ◌≤◌, ◌==◌, ◌↔◌, ◌++◌, [], ◌∷◌, drop, length, slice_get, IfOk, IsNone};
ghost use Rattle.std.specs.Option.{option_copied};
ghost use Rattle.circular_buffer.specs.Buffer.{buffer, last_item};

use hj_base::Memory;
use std::alloc::Global;
use std::collections::VecDeque;
use std::marker::Model;
use std::mem;

/// A queue with room for so many items, which mostly holds one or none: the first item stands apart from the ring of the others, so
/// that one that is taken before another comes needs no place there. It is seen as the kit's circular buffer is.
#[derive(Drop)]
pub struct ShortQueue<T> {
    first: Option<T>,
    /// The items behind the first one.
    behind: VecDeque<T>,
    capacity: usize,
}

impl<T> Model for ShortQueue<T> {
    ghost use Rattle.std.specs.Prelude.{◌≡◌, ◌≤◌, ◌++◌, [], length, option_to_list, IfNone};
    ghost use Rattle.std.specs.VecDeque.{deque_capacity};
    ghost use Rattle.circular_buffer.specs.Buffer.{Buffer, buffer};

    ghost Value = { Buffer T };

    ghost view = { λ queue. buffer (option_to_list queue.first ++ queue.behind.items) queue.capacity };

    ghost invariant = { λ queue. record {
      none_behind : IfNone queue.first (queue.behind.items ≡ []);
      room : queue.capacity ≤ deque_capacity queue.behind;
      within : length (option_to_list queue.first ++ queue.behind.items) ≤ queue.capacity;
    } };
}

impl<T: Drop> ShortQueue<T> {
    /// Makes an empty queue with room for so many items.
    pub fn with_capacity(alloc: Global, capacity: usize) -> Result<Self, Memory>
        ensures { IfOk result (λ queue. queue ≡ buffer [] capacity) }
    {
        Ok(ShortQueue {
            first: None,
            behind: VecDeque::with_capacity(alloc, capacity)?,
            capacity,
        })
    }

    /// Returns how many items there are.
    #[inline(always)]
    pub fn len(&self) -> usize
        ensures len { result ≡ length self.now.items }
        ensures within { result ≤ self.now.capacity }
    {
        match self.first {
            None => 0,
            Some(_) => self.behind.len() + 1,
        }
    }

    /// Returns whether there is room for no other item.
    #[inline(always)]
    pub fn is_full(&self) -> bool
        ensures { result ≡ (length self.now.items == self.now.capacity) }
    {
        self.len() == self.capacity
    }

    /// Returns the first item; None exactly if there is none.
    #[inline(always)]
    pub fn front(&self) -> Option<&T>
        ensures first { option_copied result ≡ slice_get self.now.items 0 }
        ensures empty { IsNone result ↔ (self.now.items ≡ []) }
    {
        self.first.as_ref()
    }

    /// Returns the last item; None exactly if there is none.
    pub fn back(&self) -> Option<&T>
        ensures { option_copied result ≡ last_item self.now.items }
    {
        match self.behind.back() {
            None => self.first.as_ref(),
            last => last,
        }
    }

    /// Puts an item behind the others, where there is room.
    #[inline(always)]
    pub fn push_back(&mut self, item: T)
        requires { length self.old.items < self.old.capacity }
        ensures { self.new ≡ buffer (self.old.items ++ item ∷ []) self.old.capacity }
    {
        if self.first.is_none() {
            self.first = Some(item);
        } else {
            self.behind.push_back_reserved(item);
        }
    }

    /// Takes the first item; None exactly if there is none.
    #[inline(always)]
    pub fn pop_front(&mut self) -> Option<T>
        ensures value { result ≡ slice_get self.old.items 0 }
        ensures items { self.new ≡ buffer (drop 1 self.old.items) self.old.capacity }
    {
        if self.behind.is_empty() {
            return mem::replace(&mut self.first, None);
        }
        let second = self.behind.pop_front();
        mem::replace(&mut self.first, second)
    }

    /// Puts an item in front of the others, where there is room.
    pub fn push_front(&mut self, item: T)
        requires { length self.old.items < self.old.capacity }
        ensures { self.new ≡ buffer (item ∷ self.old.items) self.old.capacity }
    {
        if let Some(second) = mem::replace(&mut self.first, Some(item)) {
            self.behind.push_front_reserved(second);
        }
    }
}
