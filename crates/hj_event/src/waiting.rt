ghost use Rattle.std.specs.Prelude.{◌≡◌, ◌-ℤ◌, List, [], OnOk, int_le, pos};
ghost use Rattle.hj_value.specs.declared.field.Field.{Field};
ghost use Rattle.hj_value.specs.Row.{time_of};
ghost use Rattle.hj_event.specs.Rows.{put_in};
ghost use Rattle.hj_event.specs.Timed.{timed_rows, AreTimed};
ghost use Rattle.hj_event.specs.Waiting.{first_time, last_time, is_before, has_sure, is_held, AreInOrder, TakesFirst, TakesSure};

use crate::late::LateRows;
use hj_base::Memory;
use hj_value::SharedRow;
use std::alloc::Global;
use std::collections::VecDeque;
use std::marker::Model;

/// A row beside its time.
#[derive(Drop)]
struct TimedRow {
    time: i64,
    row: SharedRow,
}

/// Rows in order of time, rows of equal time in the order in which they came.
#[derive(Drop)]
pub(crate) struct WaitingRows {
    /// The rows that came in order.
    queue: VecDeque<TimedRow>,
    /// The rows that came late: each is earlier than the last row of the queue.
    late: LateRows,
}

impl Model for WaitingRows {
    ghost use Rattle.std.specs.Prelude.{List};
    ghost use Rattle.hj_value.specs.declared.field.Field.{Field};
    ghost use Rattle.hj_event.specs.Rows.{put_all};
    ghost use Rattle.hj_event.specs.Timed.{timed_rows, AreTimed};
    ghost use Rattle.hj_event.specs.Waiting.{AreWaiting};

    ghost Value = { List (List Field) };

    ghost view = { λ w. put_all (timed_rows w.queue.items) w.late };

    ghost invariant = { λ w. AreTimed w.queue.items × AreWaiting (timed_rows w.queue.items) w.late };
}

impl WaitingRows {
    /// Makes one that keeps no rows, for rows that are late by at most this slack.
    pub(crate) fn new(alloc: Global, slack: u64) -> Self
        ensures { result ≡ [] }
    {
        WaitingRows {
            queue: VecDeque::new(alloc),
            late: LateRows::new(alloc, slack),
        }
    }

    /// Puts a row of this time after all that aren't later. An error drops the row.
    #[inline(always)]
    pub(crate) fn put(&mut self, time: i64, row: SharedRow) -> Result<(), Memory>
        requires { time ≡ time_of row }
        ensures { OnOk result (self.new ≡ put_in row self.old) }
    {
        if is_before(Some(time), last_time(&self.queue)) {
            self.late.put(time, row)
        } else {
            self.queue.push_back(TimedRow { time, row })?;
            Ok(())
        }
    }

    /// Takes the first row; None where there is none.
    #[inline(always)]
    pub(crate) fn take(&mut self) -> Option<SharedRow>
        ensures { TakesFirst result self.old self.new }
    {
        if is_before(self.late.first_time(), first_time(&self.queue)) {
            self.late.take()
        } else {
            let first = self.queue.pop_front()?;
            Some(first.row)
        }
    }

    /// Takes the first row, if it is sure; None where there is none that is.
    #[inline(always)]
    pub(crate) fn take_sure(&mut self, slack: u64, greatest: Option<i64>) -> Option<SharedRow>
        ensures takes { TakesSure result slack greatest self.old self.new }
        ensures in_order { AreInOrder self.old }
    {
        let late = self.late.first_time();
        let queue = first_time(&self.queue);
        if is_before(late, queue) {
            if !has_sure(slack, greatest, late) {
                return None;
            }
            return self.late.take();
        }
        if !has_sure(slack, greatest, queue) {
            return None;
        }
        let first = self.queue.pop_front()?;
        Some(first.row)
    }
}

/// Returns the time of the first row; None where there is none.
fn first_time(rows: &VecDeque<TimedRow>) -> Option<i64>
    requires { AreTimed rows.now.items }
    ensures { result ≡ first_time (timed_rows rows.now.items) }
{
    let first = rows.front()?;
    Some(first.time)
}

/// Returns the time of the last row; None where there is none.
fn last_time(rows: &VecDeque<TimedRow>) -> Option<i64>
    requires { AreTimed rows.now.items }
    ensures { result ≡ last_time (timed_rows rows.now.items) }
{
    let last = rows.back()?;
    Some(last.time)
}

/// Returns whether there are two times, the first one below the second.
fn is_before(time: Option<i64>, other: Option<i64>) -> bool
    ensures { result ≡ is_before time other }
{
    match (time, other) {
        (Some(time), Some(other)) => time < other,
        _ => false,
    }
}

/// Returns whether the first of some rows, which has this time, is sure; false where there is none.
fn has_sure(slack: u64, greatest: Option<i64>, first: Option<i64>) -> bool
    ensures { (rows : List (List Field)) → first ≡ first_time rows → result ≡ has_sure slack greatest rows }
{
    let (Some(greatest), Some(time)) = (greatest, first) else {
        return false;
    };
    is_sure(slack, greatest, time)
}

/// Returns whether a row of this time makes no row sure, nor is sure itself, where the greatest time, with its own, is this: where it
/// is below that one, by less than the slack.
#[inline(always)]
pub(crate) fn is_held(slack: u64, greatest: Option<i64>, time: i64) -> bool
    ensures { result ≡ is_held slack greatest time }
{
    match greatest {
        Some(greatest) => time < greatest && !is_sure(slack, greatest, time),
        None => false,
    }
}

/// Returns whether a time is at most the greatest one less the slack.
fn is_sure(slack: u64, greatest: i64, time: i64) -> bool
    ensures { result ≡ int_le time (greatest -ℤ pos slack) }
{
    time <= greatest && slack <= greatest.abs_diff(time)
}
