ghost use Rattle.std.specs.Prelude.{◌≡◌, ◌<◌, ◌≤◌, ℕ, nat_eq, cond, is_some, length, option_map, slice_get, true, false, Some};
ghost use Rattle.std.specs.HashMap.{get, hash_map_len};
ghost use Rattle.hj_index.specs.declared.chains.RowPlace.{RowPlace};
ghost use Rattle.hj_index.specs.KeyChains.{is_key, known_place, numbers, rows_in, AreApart, AreChained, AreKeyed, AreKnown, AreLinked, IsAscending, NearlyChained};

use crate::chains::{KeyChains, RowPlace};
use std::collections::HashMap;

/// How many empty places are kept beside those that are as many as the rows, and how many keys beside those that are twice
/// as many as the places.
const SPARE: usize = 32;

/// How many places may go before the first until all are counted anew.
const FAR: u64 = 1 << 62;

impl KeyChains {
    /// Drops the empty places before the first row.
    #[inline(always)]
    pub(super) fn drop_first(&mut self)
        requires { NearlyChained self.old }
        ensures rows { rows_in self.new ≡ rows_in self.old }
        ensures own { self.new.own ≡ self.old.own }
        ensures chained { NearlyChained self.new }
    {
        while let Some(first) = self.places.front() {
            if first.rest.is_some() {
                return;
            }
            self.drop_empty();
        }
    }

    /// Drops the first place, which is empty.
    #[inline(always)]
    fn drop_empty(&mut self)
        requires chained { NearlyChained self.old }
        requires empty { option_map (λ (place : RowPlace). is_some place.rest) (slice_get self.old.places.items 0) ≡ Some false }
        ensures rows { rows_in self.new ≡ rows_in self.old }
        ensures own { self.new.own ≡ self.old.own }
        ensures fewer { length self.new.places.items < length self.old.places.items }
        ensures chained { NearlyChained self.new }
    {
        let _first = self.places.pop_front();
        self.base += 1;
        self.empty -= 1;
    }

    /// Sweeps out the empty places, and the keys that have no place any more, where they have become too many.
    #[inline(always)]
    pub(super) fn sweep(&mut self)
        requires { NearlyChained self.old }
        ensures rows { rows_in self.new ≡ rows_in self.old }
        ensures own { self.new.own ≡ self.old.own }
        ensures chained { AreChained self.new }
    {
        let places = self.places.len();
        if self.empty > places - self.empty + SPARE || self.base > FAR {
            self.link_anew();
        } else if self.last.len() > 2 * places + SPARE {
            self.sweep_keys();
        }
    }

    /// Sweeps out the empty places, and links all rows anew.
    #[cold]
    pub(super) fn link_anew(&mut self)
        requires known { AreKnown self.old.places.items (get nat_eq self.old.last) }
        requires keyed { AreKeyed self.old.own self.old.places.items }
        requires ascending { self.old.is_ascending ≡ true → IsAscending 0 self.old.places.items }
        requires apart { AreApart (numbers (rows_in self.old)) }
        ensures rows { rows_in self.new ≡ rows_in self.old }
        ensures own { self.new.own ≡ self.old.own }
        ensures chained { AreChained self.new }
    {
        self.last.retain(|_, place| {
            *place = 0;
            true
        });
        self.base = 0;
        self.empty = 0;
        self.link_all();
        self.sweep_keys();
    }

    /// Links the rows of all places one after another, and drops the empty ones.
    fn link_all(&mut self)
        requires base { self.old.base ≡ 0 }
        requires empty { self.old.empty ≡ 0 }
        requires first { (key : ℕ) → known_place (get nat_eq self.old.last key) ≡ 0 }
        requires known { AreKnown self.old.places.items (get nat_eq self.old.last) }
        requires keyed { AreKeyed self.old.own self.old.places.items }
        requires ascending { self.old.is_ascending ≡ true → IsAscending 0 self.old.places.items }
        requires apart { AreApart (numbers (rows_in self.old)) }
        ensures rows { rows_in self.new ≡ rows_in self.old }
        ensures own { self.new.own ≡ self.old.own }
        ensures base { self.new.base ≡ 0 }
        ensures empty { self.new.empty ≡ 0 }
        ensures full { length self.new.places.items ≡ length (rows_in self.new) }
        ensures chained { NearlyChained self.new }
    {
        let mut count = 0;
        for _place in 0..self.places.len() {
            let Some(place) = self.places.pop_front() else {
                unreachable!();
            };
            if place.rest.is_none() {
                continue;
            }
            count += 1;
            let before = move_last(&mut self.last, place.key, count);
            self.places.push_back_reserved(RowPlace { before, ..place });
        }
    }

    /// Sweeps out the keys that have no place any more.
    #[cold]
    fn sweep_keys(&mut self)
        requires { NearlyChained self.old }
        ensures rows { rows_in self.new ≡ rows_in self.old }
        ensures own { self.new.own ≡ self.old.own }
        ensures base { self.new.base ≡ self.old.base }
        ensures empty { self.new.empty ≡ self.old.empty }
        ensures chained { NearlyChained self.new }
        ensures few { hash_map_len self.new.last ≤ length self.new.places.items }
    {
        let base = self.base;
        self.last.retain(|_, place| *place > base);
    }
}

/// Moves the last place of a key, where there is one, of which a place is known, and returns the one before.
fn move_last(last: &mut HashMap<u64, u64>, key: Option<u64>, place: u64) -> u64
    requires { (other : ℕ) → key ≡ Some other → is_some (get nat_eq last.old other) ≡ true }
    ensures before { (other : ℕ) → key ≡ Some other → result ≡ known_place (get nat_eq last.old other) }
    ensures last { (other : ℕ) → get nat_eq last.new other ≡ cond (is_key other key) (Some place) (get nat_eq last.old other) }
{
    let Some(key) = key else {
        return 0;
    };
    match last.get_mut(&key) {
        Some(known) => {
            let before = *known;
            *known = place;
            before
        }
        None => unreachable!(),
    }
}
