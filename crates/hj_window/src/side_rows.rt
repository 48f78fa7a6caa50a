ghost use Rattle.std.specs.Prelude.{◌≡◌, ◌<◌, ◌≤◌, ◌-ℤ◌, ◌+◌, ◌++◌, [], ◌∷◌, true, length, drop, IfOk, OnOk, OnErr};
ghost use Rattle.hj_window.specs.LiveRows.{is_gone_at};
ghost use Rattle.std.specs.VecDeque.{deque_len, deque_capacity};
ghost use Rattle.hj_window.specs.SideRows.{aged, unaged, counts_rows, due_rows, has_room, overflow, IsAsBefore, IsInTime, OnceInTime};

use hj_base::{EventNo, Memory, Window};
use std::alloc::Global;
use std::collections::VecDeque;
use std::marker::Model;

/// A live row: the number of its arrival, and its time.
#[derive(Clone, Copy)]
pub(crate) struct HeldRow {
    pub(crate) no: EventNo,
    pub(crate) time: i64,
}

/// A row that is gone by its age, and the place after it.
#[derive(Clone, Copy)]
pub(crate) struct AgedRow {
    pub(crate) held: HeldRow,
    pub(crate) next: usize,
}

/// The live rows of one side, the oldest first.
#[derive(Drop)]
pub(crate) struct SideRows {
    window: Window,
    rows: VecDeque<HeldRow>,
    /// It is known that no row's time is below that of a row before it.
    in_time: bool,
}

impl Model for SideRows {
    ghost use Rattle.hj_window.specs.SideRows.{SideRowsState, OnceInTime};
    ghost use Rattle.std.specs.Prelude.{◌-◌};
    ghost use Rattle.std.specs.VecDeque.{deque_len, deque_capacity};

    ghost Value = { SideRowsState };

    ghost view = { λ s. record { window = s.window; rows = s.rows.items; room = deque_capacity s.rows - deque_len s.rows } };

    ghost invariant = { λ s. OnceInTime s.in_time s.rows.items };
}

impl SideRows {
    /// Makes an empty list of live rows.
    pub(crate) fn new(alloc: Global, window: Window) -> Self
        ensures window { result.window ≡ window }
        ensures rows { result.rows ≡ [] }
    {
        SideRows {
            window,
            rows: VecDeque::new(alloc),
            in_time: true,
        }
    }

    /// Returns whether the window counts its rows, so that none is gone by its age.
    #[inline(always)]
    pub(crate) fn counts_rows(&self) -> bool
        ensures { result ≡ counts_rows self.now.window }
    {
        matches!(self.window, Window::Rows(_))
    }

    /// Finds the first row from a place on that is gone by its age at this time.
    pub(crate) fn due_from(&self, from: usize, now: i64) -> Option<AgedRow>
        ensures { aged self.now.window now (drop from self.now.rows) ≡ due_rows self.now.window now self.now.rows result }
    {
        if let Window::Rows(_) = self.window {
            return None;
        }
        for at in from..self.rows.len() {
            let held = self.rows[at];
            if is_aged(self.window, now, held.time) {
                return Some(AgedRow { held, next: at + 1 });
            }
            if self.in_time {
                // No later row is older.
                return None;
            }
        }
        None
    }

    /// Makes room for a row that arrives at this time, unless a row that leaves by its age makes it.
    pub(crate) fn reserve(&mut self, now: i64) -> Result<(), Memory>
        ensures same { IsAsBefore self.old self.new }
        ensures room { OnOk result (0 < self.new.room + length (aged self.old.window now self.old.rows)) }
    {
        if self.due_from(0, now).is_none() {
            self.rows.reserve(1)?;
        }
        Ok(())
    }

    /// Removes the rows that are gone by their age at this time.
    pub(crate) fn remove_aged(&mut self, now: i64)
        ensures window { self.new.window ≡ self.old.window }
        ensures rows { self.new.rows ≡ unaged self.old.window now self.old.rows }
        ensures room { self.old.room + length (aged self.old.window now self.old.rows) ≤ self.new.room }
    {
        let window = self.window;
        if self.in_time {
            pop_aged(&mut self.rows, window, now);
        } else {
            self.rows.retain(|held| !is_aged(window, now, held.time));
        }
    }

    /// Appends a row. If the window then has one row too many, removes the oldest, and returns its number.
    #[inline(always)]
    pub(crate) fn enter(&mut self, held: HeldRow) -> Option<EventNo>
        requires { 0 < self.old.room }
        ensures window { self.new.window ≡ self.old.window }
        ensures gone { result ≡ (overflow self.old.window (self.old.rows ++ held ∷ [])).gone }
        ensures rows { self.new.rows ≡ (overflow self.old.window (self.old.rows ++ held ∷ [])).rows }
    {
        self.in_time = self.stays_in_time(held);
        self.rows.push_back_reserved(held);
        pop_overflow(&mut self.rows, self.window)
    }

    /// Appends a row where the window counts its rows. If it then has one too many, removes the oldest, and returns its number.
    /// If memory runs out, no row changes.
    #[inline(never)]
    pub(crate) fn enter_counted(&mut self, held: HeldRow) -> Result<Option<EventNo>, Memory>
        requires { counts_rows self.old.window ≡ true }
        ensures window { self.new.window ≡ self.old.window }
        ensures gone { IfOk result (λ gone. gone ≡ (overflow self.old.window (self.old.rows ++ held ∷ [])).gone) }
        ensures rows { OnOk result (self.new.rows ≡ (overflow self.old.window (self.old.rows ++ held ∷ [])).rows) }
        ensures err { OnErr result (IsAsBefore self.old self.new) }
    {
        self.in_time = false;
        if self.has_room() {
            self.rows.push_back(held)?;
            return Ok(None);
        }
        Ok(Some(replace_oldest(&mut self.rows, held).no))
    }

    /// Returns whether the window counts its rows, and holds one more.
    #[inline(always)]
    fn has_room(&self) -> bool
        ensures { result ≡ has_room self.now.window self.now.rows }
    {
        match self.window {
            Window::Rows(count) => self.rows.len() < count as usize,
            Window::Time(_) => false,
        }
    }

    /// Returns whether it is known that the times never fall, also with this row after the others.
    #[inline(always)]
    fn stays_in_time(&self, held: HeldRow) -> bool
        ensures { OnceInTime result (self.now.rows ++ held ∷ []) }
    {
        match self.rows.back() {
            Some(newest) => self.in_time && newest.time <= held.time,
            None => true,
        }
    }
}

/// Removes the rows that are gone by their age at this time, where the times never fall: they come first.
fn pop_aged(rows: &mut VecDeque<HeldRow>, window: Window, now: i64)
    requires { IsInTime rows.old.items }
    ensures items { rows.new.items ≡ unaged window now rows.old.items }
    ensures in_time { IsInTime rows.new.items }
    ensures capacity { deque_capacity rows.new ≡ deque_capacity rows.old }
{
    while let Some(oldest) = rows.front() {
        if !is_aged(window, now, oldest.time) {
            return;
        }
        let _ = rows.pop_front();
    }
}

/// Appends a row and removes the first one, which it returns: the same row where there was none before.
#[inline(always)]
fn replace_oldest(rows: &mut VecDeque<HeldRow>, held: HeldRow) -> HeldRow
    ensures { rows.old.items ++ held ∷ [] ≡ result ∷ rows.new.items }
{
    match rows.pop_front() {
        Some(oldest) => {
            rows.push_back_reserved(held);
            oldest
        }
        None => held,
    }
}

/// Removes the first row if there is one too many for the window, and returns its number.
fn pop_overflow(rows: &mut VecDeque<HeldRow>, window: Window) -> Option<EventNo>
    ensures gone { result ≡ (overflow window rows.old.items).gone }
    ensures items { rows.new.items ≡ (overflow window rows.old.items).rows }
{
    match window {
        Window::Rows(count) if rows.len() > count as usize => {
            rows.pop_front().map(|oldest| oldest.no)
        }
        _ => None,
    }
}

/// Returns whether a row of this time is gone by its age. An age may need more than 64 bits.
#[inline(always)]
fn is_aged(window: Window, now: i64, time: i64) -> bool
    ensures { result ≡ is_gone_at window (now -ℤ time) }
{
    match window {
        Window::Rows(_) => false,
        Window::Time(span) => i128::from(span) <= i128::from(now) - i128::from(time),
    }
}
