ghost use Rattle.std.specs.Prelude.{◌≡◌, ◌≤◌, ◌<◌, ◌+◌, ◌^◌, [], ◌∷◌, ◌++◌, Some, nat_eq, is_some, length, OnOk, IfSome, option_map};
ghost use Rattle.indexmap.specs.IndexMap.{get, spare, insert_entry, shift_remove_entry, IsUnique};
ghost use Rattle.hj_msg.specs.Store.{AreDistinct, holds, with_entry, with_settled, without_entry};
ghost use Rattle.hj_rows.specs.NumberedRows.{places_in, room_in, rows_in};
ghost use Rattle.hj_rows.specs.Places.{entry_at, row_at, rows_of, StayInPlace};

use crate::place::{RestingRow, settle_place, taken_place, was_empty};
use hj_base::Memory;
use indexmap::IndexMap;
use std::alloc::Global;

/// Rows under their numbers, in the order in which the numbers came.
///
/// A removal leaves an empty place; all empty places are swept out at once when they are a third of all.
#[derive(Drop)]
pub struct NumberedRows<P> {
    /// The place of each number.
    pub places: IndexMap<u64, Option<RestingRow<P>>>,
    /// How many places are empty.
    empty: usize,
}

impl<P> NumberedRows<P> {
    /// Makes a list with no rows.
    pub fn new(alloc: Global) -> Self
        ensures rows { rows_in result ≡ [] }
        ensures places { places_in result ≡ [] }
    {
        NumberedRows {
            places: IndexMap::new(alloc),
            empty: 0,
        }
    }

    /// Returns how many places there are: one for each row, and the empty ones.
    pub fn places(&self) -> usize
        ensures counted { result ≡ length self.now.places.entries }
        ensures few { result < 2 ^ 63 }
        ensures enough { length (rows_in self.now) ≤ result }
    {
        self.places.len()
    }

    /// Returns the row of a number; None exactly where there is none.
    pub fn get(&self, no: u64) -> Option<&RestingRow<P>>
        ensures { option_map (λ rest. record { no = no; row = rest.now.row; settled = rest.now.settled }) result ≡ entry_at no (rows_in self.now) }
    {
        let at = self.places.get_index_of(&no)?;
        let (_, place) = self.places.get_index(at)?;
        place.as_ref()
    }
}

impl<P: Drop> NumberedRows<P> {
    /// Makes room for a row under any number. The rows stay as they are, also where memory runs out.
    pub fn reserve(&mut self) -> Result<(), Memory>
        ensures rows { rows_in self.new ≡ rows_in self.old }
        ensures places { self.new.places.entries ≡ self.old.places.entries }
        ensures room { OnOk result (1 < room_in self.new) }
        ensures distinct { AreDistinct (rows_in self.new) }
    {
        // One more than the row takes, for a number whose place is empty: it is put there, and then moved.
        self.places.reserve(2)?;
        Ok(())
    }

    /// Puts a row under its number: in place of the one that has it, which is returned, or else after all others. Where there
    /// is one place more then, it is the last one, and the others are as before.
    pub fn insert(&mut self, no: u64, row: P, settled: bool) -> Option<P>
        requires { 1 < room_in self.old }
        ensures replaced { result ≡ row_at no (rows_in self.old) }
        ensures rows { rows_in self.new ≡ with_entry (record { no = no; row = row; settled = settled }) (rows_in self.old) }
        ensures few { length self.new.places.entries ≤ length self.old.places.entries + 1 }
        ensures appended { length self.new.places.entries ≡ length self.old.places.entries + 1 → places_in self.new ≡ places_in self.old ++ Some row ∷ [] }
        ensures distinct { AreDistinct (rows_in self.new) }
    {
        let Ok(old) = self.places.insert(no, Some(RestingRow { row, settled })) else {
            unreachable!()
        };
        if was_empty(&old) {
            self.move_last(no);
            return None;
        }
        taken_place(old)
    }

    /// Settles the row of a number; returns false exactly where there is none.
    pub fn settle(&mut self, no: u64) -> bool
        ensures held { result ≡ holds no (rows_in self.old) }
        ensures rows { rows_in self.new ≡ with_settled no (rows_in self.old) }
        ensures places { places_in self.new ≡ places_in self.old }
        ensures room { room_in self.new ≡ room_in self.old }
        ensures distinct { AreDistinct (rows_in self.new) }
    {
        let Some(place) = self.places.get_mut(&no) else {
            return false;
        };
        settle_place(place)
    }

    /// Takes out the row of a number and returns it; None exactly where there is none. Where there are as many places then, each
    /// row stays in its place.
    pub fn remove(&mut self, no: u64) -> Option<P>
        ensures taken { result ≡ row_at no (rows_in self.old) }
        ensures held { is_some result ≡ holds no (rows_in self.old) }
        ensures rows { rows_in self.new ≡ without_entry no (rows_in self.old) }
        ensures few { length self.new.places.entries ≤ length self.old.places.entries }
        ensures places { length self.new.places.entries ≡ length self.old.places.entries → StayInPlace (places_in self.old) (places_in self.new) }
        ensures distinct { AreDistinct (rows_in self.new) }
    {
        let Some(place) = self.places.get_mut(&no) else {
            return None;
        };
        let Some(rest) = place.take() else {
            return None;
        };
        self.count_empty();
        Some(rest.row)
    }

    /// Counts a place that was emptied, and sweeps all empty places out where they are a third of all. The rows stay.
    fn count_empty(&mut self)
        ensures rows { rows_of self.new.places.entries ≡ rows_of self.old.places.entries }
        ensures few { length self.new.places.entries ≤ length self.old.places.entries }
        ensures places { length self.new.places.entries ≡ length self.old.places.entries → self.new.places.entries ≡ self.old.places.entries }
        ensures unique { IsUnique nat_eq self.new.places }
    {
        self.empty = self.empty.saturating_add(1);
        if self.empty >= self.places.len() / 3 {
            self.places.retain(|_, place| place.is_some());
            self.empty = 0;
        }
    }

    /// Moves the place of a number after all others, which goes over all later ones. There is one to spare.
    #[cold]
    fn move_last(&mut self, no: u64)
        requires { 0 < spare self.old.places }
        ensures moved { IfSome (get nat_eq self.old.places no) (λ place.
            self.new.places.entries ≡ insert_entry nat_eq (shift_remove_entry (nat_eq no) self.old.places.entries) no place) }
        ensures unique { IsUnique nat_eq self.new.places }
    {
        if let Some(place) = self.places.shift_remove(&no)
            && let Err(_) = self.places.insert(no, place)
        {
            unreachable!();
        }
    }
}
