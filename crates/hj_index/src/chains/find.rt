ghost use Rattle.std.specs.Prelude.{◌≡◌, true, false};
ghost use Rattle.std.specs.List.{position};
ghost use Rattle.hj_msg.specs.Store.{holds};
ghost use Rattle.hj_index.specs.KeyChains.{is_row, rows_in, AreChained, FindsPlace, FindsRow, IsAbove, IsAscending};

use crate::chains::KeyChains;
use std::cmp::Ordering;

impl KeyChains {
    /// Asks whether the numbers ascend, and one is above all of them.
    #[inline(always)]
    pub(super) fn is_last(&self, no: u64) -> bool
        requires { AreChained self.now }
        ensures above { result ≡ true → IsAbove no self.now.places.items }
        ensures absent { result ≡ true → holds no (rows_in self.now) ≡ false }
    {
        match self.places.back() {
            Some(last) => self.is_ascending && last.no < no,
            None => true,
        }
    }

    /// Finds the place that holds the row of a number.
    #[inline(always)]
    pub(super) fn find(&self, no: u64) -> Option<usize>
        requires { AreChained self.now }
        ensures { FindsRow no self.now.places.items result }
    {
        if !self.is_ascending {
            return self.find_among(no);
        }
        match self.find_place(no) {
            Some(at) if self.places[at].rest.is_some() => Some(at),
            _ => None,
        }
    }

    /// Finds the place that holds the row of a number, which is mostly the first.
    #[inline(always)]
    pub(super) fn find_first(&self, no: u64) -> Option<usize>
        requires { AreChained self.now }
        ensures { FindsRow no self.now.places.items result }
    {
        match self.places.front() {
            Some(first) if first.no == no && first.rest.is_some() => Some(0),
            _ => self.find_behind(no),
        }
    }

    /// Finds the place that holds the row of a number, wherever it is.
    // Called, so that what is mostly done stays short.
    #[inline(never)]
    pub(super) fn find_behind(&self, no: u64) -> Option<usize>
        requires { AreChained self.now }
        ensures { FindsRow no self.now.places.items result }
    {
        self.find(no)
    }

    /// Finds the place that holds the row of a number, which is mostly the one behind so many places.
    #[inline(always)]
    pub(super) fn find_settling(&self, no: u64, next: u64) -> Option<usize>
        requires { AreChained self.now }
        ensures { FindsRow no self.now.places.items result }
    {
        let at = next.wrapping_sub(self.base) as usize;
        match self.places.get(at) {
            Some(place) if place.no == no && place.rest.is_some() => Some(at),
            _ => self.find_last(no),
        }
    }

    /// Finds the place that holds the row of a number, which is often the last.
    // Called, so that what is mostly done stays short.
    #[inline(never)]
    fn find_last(&self, no: u64) -> Option<usize>
        requires { AreChained self.now }
        ensures { FindsRow no self.now.places.items result }
    {
        match self.places.back() {
            Some(last) if last.no == no && last.rest.is_some() => Some(self.places.len() - 1),
            _ => self.find_before_last(no),
        }
    }

    /// Finds the place that holds the row of a number, which is often the last but one.
    #[inline(always)]
    fn find_before_last(&self, no: u64) -> Option<usize>
        requires { AreChained self.now }
        ensures { FindsRow no self.now.places.items result }
    {
        let at = self.places.len().saturating_sub(2);
        match self.places.get(at) {
            Some(place) if place.no == no && place.rest.is_some() => Some(at),
            _ => self.find(no),
        }
    }

    /// Finds the place that holds the row of a number, where numbers stand in any order.
    #[cold]
    fn find_among(&self, no: u64) -> Option<usize>
        ensures { result ≡ position (is_row no) self.now.places.items }
    {
        self.places
            .iter()
            .position(|place| place.no == no && place.rest.is_some())
    }

    /// Finds the place of a number among ascending ones. Mostly it is the first, or there is none.
    #[inline(always)]
    fn find_place(&self, no: u64) -> Option<usize>
        requires { IsAscending 0 self.now.places.items }
        ensures { FindsPlace no self.now.places.items result }
    {
        let first = self.places.front()?;
        match first.no.cmp(&no) {
            Ordering::Less => self.search(no),
            Ordering::Equal => Some(0),
            Ordering::Greater => None,
        }
    }

    /// Finds the place of a number among ascending ones, by halves.
    fn search(&self, no: u64) -> Option<usize>
        requires { IsAscending 0 self.now.places.items }
        ensures { FindsPlace no self.now.places.items result }
    {
        match self.places.binary_search_by_key(&no, |place| place.no) {
            Ok(at) => Some(at),
            Err(_) => None,
        }
    }
}
