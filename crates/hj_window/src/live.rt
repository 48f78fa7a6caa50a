ghost use Rattle.std.specs.Prelude.{◌≡◌, ◌<◌, ◌^◌, ◌++◌, [], ◌∷◌, IfOk, OnOk, OnErr, filter};
ghost use Rattle.hj_window.specs.LiveRows.{arrive, is_gone, AllBelow, IsInOrder};
ghost use Rattle.hj_window.specs.Numbers.{numbers_of, number_of_some};
ghost use Rattle.hj_window.specs.SideRows.{IsAsBefore, unaged, overflow, entered, first_of};

use crate::numbers::Numbers;
use crate::side_rows::{AgedRow, HeldRow, SideRows};
use hj_base::{EventNo, Memory, Side, Window};
use std::alloc::Global;
use std::marker::Model;

/// The rows that expire where a row arrives.
#[derive(Debug, Drop)]
pub struct Expired {
    /// Those that expire before it, by their age, in the order of their arrival. They take the numbers from the
    /// arrival's on, and the arrival takes the one after them.
    pub before: Numbers,
    /// The row of the arrival's side that expires after it, if the window has one row too many.
    pub after: Option<EventNo>,
}

/// The live rows of both sides, seen as the list of them in the order of their arrival, beside the windows of the sides.
#[derive(Drop)]
pub struct Live {
    alloc: Global,
    left: SideRows,
    right: SideRows,
}

impl Model for Live {
    ghost use Rattle.hj_window.specs.LiveRows.{LiveRows, IsInOrder};
    ghost use Rattle.hj_window.specs.LiveView.{live_of};

    ghost Value = { LiveRows };

    ghost view = { λ l. live_of l.left l.right };

    ghost invariant = { λ l. IsInOrder (live_of l.left l.right).rows };
}

impl Live {
    /// Makes one with no live rows, under the windows of the two sides. It takes no memory.
    pub fn new(alloc: Global, left: Window, right: Window) -> Self
        ensures { result ≡ record { left = left; right = right; rows = [] } }
    {
        Live {
            alloc,
            left: SideRows::new(alloc, left),
            right: SideRows::new(alloc, right),
        }
    }

    /// Lets a row of a side arrive at a time, in the streams' own units; returns which rows expire by that. `no` is the
    /// number that the row has if none expires before it; each that does takes a number, and the row is kept under the
    /// next one. If memory runs out, nothing changes.
    #[inline(always)]
    pub fn arrive(&mut self, side: Side, time: i64, no: EventNo) -> Result<Expired, Memory>
        requires above { AllBelow no.0 self.old.rows }
        requires small { no.0 < 2 ^ 63 }
        ensures before { IfOk result (λ expired. expired.before ≡ numbers_of (arrive self.old side time no.0).before) }
        ensures after { IfOk result (λ expired. expired.after ≡ number_of_some (arrive self.old side time no.0).after) }
        ensures live { OnOk result (self.new ≡ (arrive self.old side time no.0).live) }
        ensures err { OnErr result (self.new ≡ self.old) }
        ensures order { IsInOrder self.new.rows }
    {
        let before = self.gone_at(time)?;
        let no = EventNo(no.0 + before.len() as u64);
        let held = HeldRow { no, time };
        let after = match side {
            Side::Left => enter(&mut self.left, &mut self.right, held)?,
            Side::Right => enter(&mut self.right, &mut self.left, held)?,
        };
        Ok(Expired { before, after })
    }

    /// Returns the rows that are gone by their age at this time, in the order of their arrival. Windows of rows look at none.
    #[inline(always)]
    fn gone_at(&self, now: i64) -> Result<Numbers, Memory>
        ensures { IfOk result (λ gone. gone ≡ numbers_of (filter (is_gone self.now now) self.now.rows)) }
    {
        if self.left.counts_rows() && self.right.counts_rows() {
            return Ok(Numbers::new(self.alloc));
        }
        self.find_gone(now)
    }

    /// Finds the rows that are gone by their age at this time, in the order of their arrival.
    #[inline(never)]
    fn find_gone(&self, now: i64) -> Result<Numbers, Memory>
        ensures { IfOk result (λ gone. gone ≡ numbers_of (filter (is_gone self.now now) self.now.rows)) }
    {
        let mut gone = Numbers::new(self.alloc);
        let mut left = self.left.due_from(0, now);
        let mut right = self.right.due_from(0, now);
        'rows: loop {
            match first_of(left, right) {
                Some((Side::Left, due)) => {
                    gone.push((Side::Left, due.held.no))?;
                    left = self.left.due_from(due.next, now);
                }
                Some((Side::Right, due)) => {
                    gone.push((Side::Right, due.held.no))?;
                    right = self.right.due_from(due.next, now);
                }
                None => return Ok(gone),
            }
        }
    }
}

/// Removes the rows of both sides that are gone by their age, and appends a row to those of its own side; returns the
/// number of the row that expires by that. If memory runs out, nothing changes.
#[inline(always)]
fn enter(own: &mut SideRows, other: &mut SideRows, held: HeldRow) -> Result<Option<EventNo>, Memory>
    ensures windows { (own.new.window ≡ own.old.window) × (other.new.window ≡ other.old.window) }
    ensures gone { IfOk result (λ gone. gone ≡ (overflow own.old.window (entered own.old held)).gone) }
    ensures own_rows { OnOk result (own.new.rows ≡ (overflow own.old.window (entered own.old held)).rows) }
    ensures other_rows { OnOk result (other.new.rows ≡ unaged other.old.window held.time other.old.rows) }
    ensures err { OnErr result (IsAsBefore own.old own.new × IsAsBefore other.old other.new) }
{
    if own.counts_rows() && other.counts_rows() {
        own.enter_counted(held)
    } else {
        enter_by_age(own, other, held)
    }
}

/// Does the same where a window may be one of time.
#[inline(never)]
fn enter_by_age(
    own: &mut SideRows,
    other: &mut SideRows,
    held: HeldRow,
) -> Result<Option<EventNo>, Memory>
    ensures windows { (own.new.window ≡ own.old.window) × (other.new.window ≡ other.old.window) }
    ensures gone { IfOk result (λ gone. gone ≡ (overflow own.old.window (entered own.old held)).gone) }
    ensures own_rows { OnOk result (own.new.rows ≡ (overflow own.old.window (entered own.old held)).rows) }
    ensures other_rows { OnOk result (other.new.rows ≡ unaged other.old.window held.time other.old.rows) }
    ensures err { OnErr result (IsAsBefore own.old own.new × IsAsBefore other.old other.new) }
{
    own.reserve(held.time)?;
    own.remove_aged(held.time);
    other.remove_aged(held.time);
    Ok(own.enter(held))
}

/// Returns the one of two rows that arrived first.
fn first_of(left: Option<AgedRow>, right: Option<AgedRow>) -> Option<(Side, AgedRow)>
    ensures { result ≡ first_of left right }
{
    match (left, right) {
        (Some(left), Some(right)) if left.held.no < right.held.no => Some((Side::Left, left)),
        (_, Some(right)) => Some((Side::Right, right)),
        (Some(left), None) => Some((Side::Left, left)),
        (None, None) => None,
    }
}
