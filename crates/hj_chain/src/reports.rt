ghost use Rattle.std.specs.Prelude.{◌≡◌, ◌+◌, ◌==◌, ◌<◌, ◌≤◌, [], ◌∷◌, ◌++◌, drop, length, option_to_list, All, IfOk};
ghost use Rattle.std.specs.Option.{option_copied};
ghost use Rattle.hj_chain.specs.Chain.{first};
ghost use Rattle.hj_chain.specs.Links.{changed_at};
ghost use Rattle.hj_chain.specs.Looks.{last};
ghost use Rattle.hj_chain.specs.Reports.{no_reports, queue_at};

use crate::short_queue::ShortQueue;
use hj_base::Memory;
use hj_msg::Report;
use std::alloc::Global;
use std::marker::Model;

/// The queues in which the reports of the cores wait.
#[derive(Drop)]
pub struct Reports<P> {
    queues: Vec<ShortQueue<Report<P>>>,
    capacity: usize,
    /// Each queue has room for so many reports at least: while there is some, no queue need be looked at.
    room: usize,
}

impl<P> Model for Reports<P> {
    ghost use Rattle.std.specs.Prelude.{◌≡◌, ◌+◌, ◌≤◌, All, length, map};
    ghost use Rattle.hj_chain.specs.Reports.{ReportQueues};

    ghost Value = { ReportQueues P };

    ghost view = { λ r. record { capacity = r.capacity; queues = map (λ q. q.items) r.queues.items } };

    ghost invariant = { λ r. record {
      capacity : All (λ q. q.capacity ≡ r.capacity) r.queues.items;
      room : All (λ q. length q.items + r.room ≤ r.capacity) r.queues.items;
    } };
}

impl<P: Drop> Reports<P> {
    /// Makes the queues of this many cores, with no reports and with room for `capacity` in each.
    pub fn new(alloc: Global, cores: usize, capacity: usize) -> Result<Self, Memory>
        ensures { IfOk result (λ reports. reports ≡ no_reports cores capacity) }
    {
        let mut queues = Vec::with_capacity(alloc, cores)?;
        for _at in 0..cores {
            queues.push(ShortQueue::with_capacity(alloc, capacity)?)?;
        }
        Ok(Reports {
            queues,
            capacity,
            room: capacity,
        })
    }

    /// Returns a core's first report; None exactly where it has none, as where there is no such core.
    #[inline(always)]
    pub fn first(&self, core: usize) -> Option<&Report<P>>
        ensures { option_copied result ≡ first (queue_at self.now.queues core) }
    {
        self.queues.get(core)?.front()
    }

    /// Returns the first report of a core that is there; None exactly where it has none.
    #[inline(always)]
    pub fn first_of(&self, core: usize) -> Option<&Report<P>>
        requires { core < length self.now.queues }
        ensures { option_copied result ≡ first (queue_at self.now.queues core) }
    {
        self.queues[core].front()
    }

    /// Returns a core's last report; None exactly where it has none, as where there is no such core.
    pub fn last(&self, core: usize) -> Option<&Report<P>>
        ensures { option_copied result ≡ last (queue_at self.now.queues core) }
    {
        self.queues.get(core)?.back()
    }

    /// Returns how many reports a core has. One that isn't there has none.
    pub fn waiting(&self, core: usize) -> usize
        ensures { result ≡ length (queue_at self.now.queues core) }
    {
        match self.queues.get(core) {
            Some(queue) => queue.len(),
            None => 0,
        }
    }

    /// Returns whether a core has as many reports as a queue holds. One that isn't there has none.
    #[inline(always)]
    pub fn is_full(&self, core: usize) -> bool
        ensures { result ≡ (length (queue_at self.now.queues core) == self.now.capacity) }
    {
        self.waiting(core) == self.capacity
    }

    /// Returns whether a core that is there has as many reports as a queue holds.
    #[inline(always)]
    pub fn is_queue_full(&self, core: usize) -> bool
        requires { core < length self.now.queues }
        ensures { result ≡ (length (queue_at self.now.queues core) == self.now.capacity) }
    {
        self.room == 0 && self.queues[core].is_full()
    }

    /// Puts a core's report after its others, if there is one.
    #[inline(always)]
    pub fn put(&mut self, core: usize, report: Option<Report<P>>)
        requires in_range { core < length self.old.queues }
        requires room { length (queue_at self.old.queues core) < self.old.capacity }
        ensures { self.new ≡ record self.old { queues = changed_at core (λ queue. queue ++ option_to_list report) self.old.queues } }
    {
        let Some(report) = report else {
            return;
        };
        self.queues[core].push_back(report);
        self.room = if self.room == 0 {
            least_room(&self.queues, self.capacity)
        } else {
            self.room - 1
        };
    }

    /// Takes a core's first report.
    #[inline(always)]
    pub fn take_first(&mut self, core: usize) -> Option<Report<P>>
        requires { core < length self.old.queues }
        ensures first { result ≡ first (queue_at self.old.queues core) }
        ensures rest { self.new ≡ record self.old { queues = changed_at core (drop 1) self.old.queues } }
    {
        self.queues[core].pop_front()
    }
}

/// Returns the room of the queue that has the least of all.
#[cold]
fn least_room<P: Drop>(queues: &[ShortQueue<Report<P>>], capacity: usize) -> usize
    requires { All (λ q. q.capacity ≡ capacity) queues.now }
    ensures { All (λ q. length q.items + result ≤ capacity) queues.now }
{
    let mut room = capacity;
    for queue in queues {
        room = room.min(capacity - queue.len());
    }
    room
}
