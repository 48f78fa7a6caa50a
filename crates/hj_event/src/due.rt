ghost use Rattle.std.specs.Prelude.{◌≡◌};
ghost use Rattle.hj_event.specs.Numbering.{nothing_due, has_due, due_of, TakesDue};

use hj_base::{EventNo, Side};
use hj_msg::Event;
use hj_value::SharedRow;
use hj_window::{Expired, Numbers};
use std::alloc::Global;
use std::marker::Model;

/// What came of an arrival and wasn't given yet.
#[derive(Drop)]
pub(crate) struct DueEvents {
    /// The rows that expire before it, of which the first `given` were given.
    before: Numbers,
    given: usize,
    arrival: Option<(Side, SharedRow)>,
    /// The row that expires after it.
    after: Option<(Side, EventNo)>,
    /// The side that has a quiet event after these.
    quiet: Option<Side>,
}

impl Model for DueEvents {
    ghost use Rattle.std.specs.Prelude.{drop};
    ghost use Rattle.hj_event.specs.Numbering.{DueState};

    ghost Value = { DueState };

    ghost view = { λ d. record { before = drop d.given d.before; arrival = d.arrival; after = d.after; quiet = d.quiet } };
}

impl DueEvents {
    /// Makes one of which nothing is due.
    pub(crate) fn new(alloc: Global) -> Self
        ensures { result ≡ nothing_due }
    {
        DueEvents {
            before: Numbers::new(alloc),
            given: 0,
            arrival: None,
            after: None,
            quiet: None,
        }
    }

    /// Makes what comes of the arrival of a row by which these rows expire and this side has a quiet event.
    #[inline(always)]
    pub(crate) fn of_arrival(
        side: Side,
        row: SharedRow,
        expired: Expired,
        quiet: Option<Side>,
    ) -> Self
        ensures { result ≡ due_of side row expired.before expired.after quiet }
    {
        DueEvents {
            before: expired.before,
            given: 0,
            arrival: Some((side, row)),
            after: expired.after.map(|of| (side, of)),
            quiet,
        }
    }

    /// Returns whether anything is due.
    #[inline(always)]
    pub(crate) fn is_some(&self) -> bool
        ensures { result ≡ has_due self.now }
    {
        self.after.is_some()
            || self.given < self.before.len()
            || self.arrival.is_some()
            || self.quiet.is_some()
    }

    /// Takes the first event that is due, under the number `no`; None where none is.
    #[inline(always)]
    pub(crate) fn take(&mut self, no: EventNo) -> Option<Event<SharedRow>>
        ensures { TakesDue result no.0 self.old self.new }
    {
        if self.given < self.before.len() {
            let Some(&(side, of)) = self.before.get(self.given) else {
                unreachable!();
            };
            self.given += 1;
            return Some(Event::Expire { no, side, of });
        }
        if let Some((side, row)) = self.arrival.take() {
            return Some(Event::Arrive { no, side, row });
        }
        if let Some((side, of)) = self.after.take() {
            return Some(Event::Expire { no, side, of });
        }
        let side = self.quiet.take()?;
        Some(Event::Quiet { no, side })
    }
}
