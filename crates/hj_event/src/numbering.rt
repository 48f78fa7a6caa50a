ghost use Rattle.std.specs.Prelude.{◌≡◌, OnOk, IfErr, true, false, []};
ghost use Rattle.hj_event.specs.declared.stop.MergeEnd.TheVariants as last;
ghost use Rattle.hj_event.specs.Arrivals.{Arrivals, then_arrivals};
ghost use Rattle.hj_event.specs.Events.{no_silence};
ghost use Rattle.hj_event.specs.Numbering.{nothing_due, has_due, numbered_ahead, GivesDueEvent};

use crate::due::DueEvents;
use crate::silence::Silence;
use crate::stop::MergeEnd;
use hj_base::{EventNo, Side, Window};
use hj_msg::Event;
use hj_value::SharedRow;
use hj_window::Live;
use std::alloc::Global;
use std::marker::Model;

/// No arrival has this number or a higher one.
const MOST_NUMBERS: u64 = 1 << 63;

/// The numbering of the events of arrivals, up to a limit.
#[derive(Drop)]
pub(crate) struct Numbering {
    live: Live,
    silence: Silence,
    /// After how many rows of one side the other one, where it is silent, has a quiet event; 0: never.
    quiet: u32,
    due: DueEvents,
    /// The number of the next event.
    next: u64,
    limit: u64,
}

impl Model for Numbering {
    ghost use Rattle.hj_event.specs.Numbering.{NumberingState, IsCounted};

    ghost Value = { NumberingState };

    ghost view = { λ n. record { live = n.live; silence = n.silence; quiet = n.quiet; due = n.due; next = n.next; limit = n.limit } };

    ghost invariant = { λ n. IsCounted n.live n.silence n.due n.next n.limit };
}

impl Numbering {
    /// Makes a numbering that has given nothing, of at most `limit` events.
    pub(crate) fn new(alloc: Global, left: Window, right: Window, quiet: u32, limit: u64) -> Self
        ensures { result ≡ record { live = record { left = left; right = right; rows = [] }; silence = no_silence; quiet = quiet; due = nothing_due; next = 0; limit = limit } }
    {
        Numbering {
            live: Live::new(alloc, left, right),
            silence: Silence::new(),
            quiet,
            due: DueEvents::new(alloc),
            next: 0,
            limit,
        }
    }

    /// Returns whether an event is due.
    #[inline(always)]
    pub(crate) fn has_due(&self) -> bool
        ensures { result ≡ has_due self.now.due }
    {
        self.due.is_some()
    }

    /// Takes a row that arrives on a side, whose events are due then.
    #[inline(always)]
    pub(crate) fn arrive(&mut self, side: Side, row: SharedRow) -> Result<(), MergeEnd>
        requires { has_due self.old.due ≡ false }
        ensures ok { OnOk result ((arrivals : Arrivals) → numbered_ahead self.old (then_arrivals side row arrivals) ≡ numbered_ahead self.new arrivals) }
        ensures due { OnOk result (has_due self.new.due ≡ true) }
        ensures err { IfErr result (λ why. why ≡ last.Memory) }
    {
        if self.next >= MOST_NUMBERS {
            return Err(MergeEnd::Memory);
        }
        let time = row.row().time();
        let expired = self.live.arrive(side, time, EventNo(self.next))?;
        let quiet = self.silence.arrive(side, self.quiet);
        self.due = DueEvents::of_arrival(side, row, expired, quiet);
        Ok(())
    }

    /// Takes the next event that is due, unless that is one too many.
    #[inline(always)]
    pub(crate) fn give(&mut self) -> Result<Event<SharedRow>, MergeEnd>
        requires { has_due self.old.due ≡ true }
        ensures { (arrivals : Arrivals) → GivesDueEvent result (numbered_ahead self.old arrivals) (numbered_ahead self.new arrivals) }
    {
        if self.next >= self.limit {
            return Err(MergeEnd::TooMany);
        }
        let no = EventNo(self.next);
        let Some(event) = self.due.take(no) else {
            unreachable!();
        };
        self.next += 1;
        Ok(event)
    }
}
