ghost use Rattle.std.specs.Prelude.{◌≡◌, ◌-◌, ◌<◌, [], true, nat_eq, OnOk};
ghost use Rattle.std.specs.HashMap.{get, spare};
ghost use Rattle.std.specs.Option.{option_copied};
ghost use Rattle.std.specs.VecDeque.{deque_capacity, deque_len};
ghost use Rattle.hj_msg.specs.Store.{holds, with_entry, with_settled, without_entry};
ghost use Rattle.hj_index.specs.KeyChains.{known_place, nth_place, rows_in, AreChained};

use crate::keys::key_at;
use hj_base::Memory;
use hj_rows::RestingRow;
use hj_value::SharedRow;
use std::alloc::Global;
use std::collections::{HashMap, VecDeque};

mod change;
mod find;
mod probe;
mod sweep;

/// The place of a row, or an empty one whose row was taken out. Places are counted from 1 on, from the first that ever came.
#[derive(Drop)]
pub struct RowPlace {
    pub(crate) no: u64,
    /// The key of the row's value; None where the row has no such value.
    pub(crate) key: Option<u64>,
    /// The last place before it that has its key; one that isn't there any more, or 0, where there is none.
    pub(crate) before: u64,
    pub(crate) rest: Option<RestingRow<SharedRow>>,
}

/// Rows in the order in which their numbers came, of which those of one key are a chain: each knows the one before it.
#[derive(Drop)]
pub struct KeyChains {
    /// The column by whose values the rows are chained.
    pub(crate) own: u16,
    pub(crate) places: VecDeque<RowPlace>,
    /// How many places went before the first.
    pub(crate) base: u64,
    /// The last place of each key. A key that has no place any more may stand there too, until it is swept out.
    pub(crate) last: HashMap<u64, u64>,
    /// How many places are empty.
    pub(crate) empty: usize,
    /// Whether each number is greater than those before it.
    pub(crate) is_ascending: bool,
}

impl KeyChains {
    /// Makes chains of no rows, by the values of a column.
    pub(crate) fn new(alloc: Global, own: u16) -> Self
        ensures rows { rows_in result ≡ [] }
        ensures own { result.own ≡ own }
        ensures chained { AreChained result }
    {
        KeyChains {
            own,
            places: VecDeque::new(alloc),
            base: 0,
            last: HashMap::new(alloc),
            empty: 0,
            is_ascending: true,
        }
    }

    /// Makes room for a row. The rows stay as they are, also where memory runs out.
    pub(crate) fn reserve(&mut self) -> Result<(), Memory>
        requires { AreChained self.old }
        ensures rows { rows_in self.new ≡ rows_in self.old }
        ensures own { self.new.own ≡ self.old.own }
        ensures room { OnOk result (deque_len self.new.places < deque_capacity self.new.places) }
        ensures chain_room { OnOk result (0 < spare self.new.last) }
        ensures chained { AreChained self.new }
    {
        self.places.reserve(1)?;
        self.last.reserve(1)?;
        Ok(())
    }

    /// Returns the last place of a key; one that isn't there where it has none.
    #[inline(always)]
    pub(crate) fn last_of(&self, key: u64) -> u64
        ensures { result ≡ known_place (get nat_eq self.now.last key) }
    {
        match self.last.get(&key) {
            Some(place) => *place,
            None => 0,
        }
    }

    /// Returns a place by its count; None where it isn't there.
    #[inline(always)]
    pub(crate) fn place(&self, count: u64) -> Option<&RowPlace>
        ensures { option_copied result ≡ nth_place (count - self.now.base) self.now.places.items }
    {
        let at = count.saturating_sub(self.base).checked_sub(1)?;
        self.places.get(at as usize)
    }

    /// Puts a row under its number: in place of the one that has it, or else after all others.
    #[inline(always)]
    pub(crate) fn put(&mut self, no: u64, row: SharedRow, settled: bool)
        requires room { deque_len self.old.places < deque_capacity self.old.places }
        requires chain_room { 0 < spare self.old.last }
        requires chained { AreChained self.old }
        ensures rows { rows_in self.new ≡ with_entry (record { no = no; row = row; settled = settled }) (rows_in self.old) }
        ensures own { self.new.own ≡ self.old.own }
        ensures chained { AreChained self.new }
    {
        if !self.is_last(no) {
            if let Some(at) = self.find_behind(no) {
                self.replace(at, no, row, settled);
                return;
            }
            self.is_ascending = false;
        }
        self.push(no, row, settled);
    }

    /// Settles the row of a number; returns false exactly where there is none. `next` counts the places up to the one where the row is
    /// thought to stand, and behind the call up to the next one.
    #[inline(always)]
    pub(crate) fn settle(&mut self, no: u64, next: &mut u64) -> bool
        requires { AreChained self.old }
        ensures held { result ≡ holds no (rows_in self.old) }
        ensures rows { rows_in self.new ≡ with_settled no (rows_in self.old) }
        ensures own { self.new.own ≡ self.old.own }
        ensures chained { AreChained self.new }
    {
        match self.find_settling(no, *next) {
            Some(at) => {
                *next = self.base.wrapping_add(at as u64).wrapping_add(1);
                self.settle_at(at, no);
                true
            }
            None => false,
        }
    }

    /// Takes the row of a number out; returns false exactly where there is none.
    #[inline(always)]
    pub(crate) fn take(&mut self, no: u64) -> bool
        requires { AreChained self.old }
        ensures held { result ≡ holds no (rows_in self.old) }
        ensures rows { rows_in self.new ≡ without_entry no (rows_in self.old) }
        ensures own { self.new.own ≡ self.old.own }
        ensures chained { AreChained self.new }
    {
        match self.find_first(no) {
            Some(at) => {
                self.empty_at(at, no);
                self.drop_first();
                self.sweep();
                true
            }
            None => false,
        }
    }
}
