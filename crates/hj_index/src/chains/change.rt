ghost use Rattle.std.specs.Prelude.{◌≡◌, ◌+◌, ◌<◌, ◌≤◌, ℕ, Some, true, false, nat_eq, cond, option_map, slice_get, slice_set};
ghost use Rattle.std.specs.HashMap.{get, hash_map_len, spare};
ghost use Rattle.std.specs.VecDeque.{deque_capacity, deque_len};
ghost use Rattle.hj_msg.specs.Store.{holds, with_entry, with_settled, without_entry};
ghost use Rattle.hj_index.specs.KeyChains.{is_key, is_row, known_place, rows_in, AreChained, IsAbove, NearlyChained};

use crate::chains::{KeyChains, RowPlace};
use crate::keys::key_at;
use hj_rows::RestingRow;
use hj_value::SharedRow;
use std::collections::HashMap;

impl KeyChains {
    /// Puts a row after all others.
    #[inline(always)]
    pub(super) fn push(&mut self, no: u64, row: SharedRow, settled: bool)
        requires room { deque_len self.old.places < deque_capacity self.old.places }
        requires chain_room { 0 < spare self.old.last }
        requires chained { AreChained self.old }
        requires above { self.old.is_ascending ≡ true → IsAbove no self.old.places.items }
        requires absent { holds no (rows_in self.old) ≡ false }
        ensures rows { rows_in self.new ≡ with_entry (record { no = no; row = row; settled = settled }) (rows_in self.old) }
        ensures own { self.new.own ≡ self.old.own }
        ensures chained { AreChained self.new }
    {
        let key = key_at(row.row(), self.own);
        let count = self.base + self.places.len() as u64 + 1;
        let before = set_last(&mut self.last, key, count);
        self.places.push_back_reserved(RowPlace {
            no,
            key,
            before,
            rest: Some(RestingRow { row, settled }),
        });
    }

    /// Puts another row in the place of one.
    #[cold]
    pub(super) fn replace(&mut self, at: usize, no: u64, row: SharedRow, settled: bool)
        requires chain_room { 0 < spare self.old.last }
        requires chained { AreChained self.old }
        requires filled { option_map (is_row no) (slice_get self.old.places.items at) ≡ Some true }
        ensures rows { rows_in self.new ≡ with_entry (record { no = no; row = row; settled = settled }) (rows_in self.old) }
        ensures own { self.new.own ≡ self.old.own }
        ensures chained { AreChained self.new }
    {
        let key = key_at(row.row(), self.own);
        let _last = set_last(&mut self.last, key, 0);
        let place = RowPlace {
            no,
            key,
            before: 0,
            rest: Some(RestingRow { row, settled }),
        };
        self.set_place(at, place);
        self.link_anew();
    }

    /// Puts another place where one stands.
    fn set_place(&mut self, at: usize, place: RowPlace)
        requires { at < deque_len self.old.places }
        ensures places { self.new.places.items ≡ slice_set self.old.places.items at place }
        ensures own { self.new.own ≡ self.old.own }
        ensures last { self.new.last ≡ self.old.last }
        ensures ascending { self.new.is_ascending ≡ self.old.is_ascending }
    {
        self.places[at] = place;
    }

    /// Settles the row of a place.
    #[inline(always)]
    pub(super) fn settle_at(&mut self, at: usize, no: u64)
        requires chained { AreChained self.old }
        requires filled { option_map (is_row no) (slice_get self.old.places.items at) ≡ Some true }
        ensures rows { rows_in self.new ≡ with_settled no (rows_in self.old) }
        ensures own { self.new.own ≡ self.old.own }
        ensures chained { AreChained self.new }
    {
        if let Some(rest) = &mut self.places[at].rest {
            rest.settled = true;
        }
    }

    /// Takes the row of a place out, which stays, so that others find the way through it.
    #[inline(always)]
    pub(super) fn empty_at(&mut self, at: usize, no: u64)
        requires chained { AreChained self.old }
        requires filled { option_map (is_row no) (slice_get self.old.places.items at) ≡ Some true }
        ensures rows { rows_in self.new ≡ without_entry no (rows_in self.old) }
        ensures own { self.new.own ≡ self.old.own }
        ensures chained { NearlyChained self.new }
    {
        self.places[at].rest = None;
        self.empty += 1;
    }
}

/// Sets the last place of a key, where there is one, and returns the one before; 0 where none was known.
#[inline(always)]
fn set_last(last: &mut HashMap<u64, u64>, key: Option<u64>, place: u64) -> u64
    requires { 0 < spare last.old }
    ensures before { (other : ℕ) → key ≡ Some other → result ≡ known_place (get nat_eq last.old other) }
    ensures last { (other : ℕ) → get nat_eq last.new other ≡ cond (is_key other key) (Some place) (get nat_eq last.old other) }
    ensures few { hash_map_len last.new ≤ hash_map_len last.old + 1 }
{
    let Some(key) = key else {
        return 0;
    };
    match last.insert(key, place) {
        Ok(Some(before)) => before,
        Ok(None) => 0,
        Err(_) => unreachable!(),
    }
}
