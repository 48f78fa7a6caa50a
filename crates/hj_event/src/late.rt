ghost use Rattle.std.specs.Prelude.{◌≡◌, true, false, [], ◌∷◌, OnErr, OnOk};
ghost use Rattle.std.specs.BinaryHeap.{heap_items, IsHeap};
ghost use Rattle.std.specs.List.Sorted.{IsPermutation};
ghost use Rattle.hj_value.specs.Row.{time_of};
ghost use Rattle.hj_event.specs.Rows.{put_in};
ghost use Rattle.hj_event.specs.Late.{late_cmp, TakesFirstRow, HaveFirst};
ghost use Rattle.hj_event.specs.Days.{late_on, all_late, AreOnDays};
ghost use Rattle.hj_event.specs.Waiting.{first_time, TakesFirst};

use crate::days::{Days, put_among};
use crate::late_row::LateRow;
use hj_base::Memory;
use hj_value::SharedRow;
use std::alloc::Global;
use std::collections::BinaryHeap;
use std::marker::Model;

/// Where fewer rows wait than this, most days would have none, and going over them would cost more than a heap.
const FEW: usize = 16;

/// Rows in order of time, rows of equal time in the order in which they came.
#[derive(Drop)]
pub(crate) struct LateRows {
    /// The rows that came while few waited, and those that had no place on a day.
    others: BinaryHeap<LateRow>,
    days: Days,
    /// The number of the next row that comes.
    next: u64,
}

impl Model for LateRows {
    ghost use Rattle.std.specs.Prelude.{List};
    ghost use Rattle.std.specs.BinaryHeap.{heap_items, IsHeap};
    ghost use Rattle.hj_value.specs.declared.field.Field.{Field};
    ghost use Rattle.hj_event.specs.Late.{late_cmp, rows_in_order, AreLate};
    ghost use Rattle.hj_event.specs.Days.{all_late, AreOnDays};

    ghost Value = { List (List Field) };

    ghost view = { λ l. rows_in_order (all_late (heap_items l.others) l.days) };

    ghost invariant = { λ l. IsHeap late_cmp (heap_items l.others) × AreOnDays l.days × AreLate l.next (all_late (heap_items l.others) l.days) };
}

impl LateRows {
    /// Makes one that keeps no rows, for rows that are late by at most this slack.
    pub(crate) fn new(alloc: Global, slack: u64) -> Self
        ensures { result ≡ [] }
    {
        LateRows {
            others: BinaryHeap::new(alloc),
            days: Days::new(alloc, slack),
            next: 0,
        }
    }

    /// Puts a row of this time after all that aren't later. An error changes nothing, and drops the row.
    #[inline(never)]
    pub(crate) fn put(&mut self, time: i64, row: SharedRow) -> Result<(), Memory>
        requires { time ≡ time_of row }
        ensures ok { OnOk result (self.new ≡ put_in row self.old) }
        ensures err { OnErr result (self.new ≡ self.old) }
    {
        let no = self.next;
        let Some(next) = no.checked_add(1) else {
            return Err(refuse(row));
        };
        self.next = next;
        put_row(&mut self.others, &mut self.days, LateRow { time, no, row })
    }

    /// Takes the first row; None where there is none.
    #[inline(never)]
    pub(crate) fn take(&mut self) -> Option<SharedRow>
        ensures { TakesFirst result self.old self.new }
    {
        if is_on_day(&self.others, &self.days) {
            let first = self.days.take()?;
            return Some(first.row);
        }
        take_from(&mut self.others)
    }

    /// Returns the time of the first row, in the stream's own units; None where there is none.
    #[inline(always)]
    pub(crate) fn first_time(&self) -> Option<i64>
        ensures { result ≡ first_time self.now }
    {
        match (self.others.peek(), self.days.first()) {
            (Some(other), Some(first)) => Some(other.time.min(first.time)),
            (Some(other), None) => Some(other.time),
            (None, Some(first)) => Some(first.time),
            (None, None) => None,
        }
    }
}

/// Puts a late row on its day where many wait, or among the others.
#[inline(always)]
fn put_row(others: &mut BinaryHeap<LateRow>, days: &mut Days, late: LateRow) -> Result<(), Memory>
    requires heap { IsHeap late_cmp (heap_items others.old) }
    requires days { AreOnDays days.old }
    ensures heap { IsHeap late_cmp (heap_items others.new) }
    ensures days { AreOnDays days.new }
    ensures ok { OnOk result (IsPermutation (late ∷ all_late (heap_items others.old) days.old) (all_late (heap_items others.new) days.new)) }
    ensures err { OnErr result (all_late (heap_items others.new) days.new ≡ all_late (heap_items others.old) days.old) }
{
    if others.len() < FEW {
        return put_among(others, late);
    }
    days.put(late, others)
}

/// Drops a row for which no number is left. It stands apart, as do those below that are seldom called, so that what calls them has
/// no registers to save.
#[inline(never)]
fn refuse(_row: SharedRow) -> Memory {
    Memory
}

/// Takes the row that comes first of those on no day; None where there is none.
#[inline(never)]
fn take_from(others: &mut BinaryHeap<LateRow>) -> Option<SharedRow>
    requires { IsHeap late_cmp (heap_items others.old) }
    ensures heap { IsHeap late_cmp (heap_items others.new) }
    ensures takes { TakesFirstRow result (heap_items others.old) (heap_items others.new) }
{
    let first = others.pop()?;
    Some(first.row)
}

/// Returns whether the late row that comes first stands on a day.
#[inline(always)]
fn is_on_day(others: &BinaryHeap<LateRow>, days: &Days) -> bool
    requires heap { IsHeap late_cmp (heap_items others.now) }
    requires days { AreOnDays days.now }
    ensures day { result ≡ true → HaveFirst (late_on days.now) (heap_items others.now) }
    ensures other { result ≡ false → HaveFirst (heap_items others.now) (late_on days.now) }
{
    match (others.peek(), days.first()) {
        (Some(other), Some(first)) => first.comes_before(other),
        (_, first) => first.is_some(),
    }
}
