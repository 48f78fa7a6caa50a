ghost use Rattle.std.specs.Prelude.{◌≡◌, [], Some, List, nat_eq, true, OnOk};
ghost use Rattle.std.specs.HashMap.{get};
ghost use Rattle.hj_value.specs.declared.field.Field.{Field};
ghost use Rattle.hj_msg.specs.Store.{joins, settled_matches};
ghost use Rattle.hj_index.specs.KeyChains.{known_place, rows_in, AreChained};
ghost use Rattle.hj_index.specs.Keys.{key_at};

use crate::chains::KeyChains;
use hj_base::{EventNo, Memory, Share, Side};
use hj_msg::{Join, Partner, Partners};
use hj_rows::{joining_row, partners_of};
use hj_value::SharedRow;
use std::alloc::Global;
use std::collections::BTreeMap;

impl KeyChains {
    /// Puts the settled rows that join with a row of the other stream into an empty list of partners, by ascending number. Only rows
    /// of a key join with it. After an error some of them may be there.
    #[inline(always)]
    pub(crate) fn probe<J: Join<SharedRow>>(
        &self,
        alloc: Global,
        key: u64,
        side: Side,
        against: &SharedRow,
        join: &J,
        found: &mut Partners<SharedRow>,
    ) -> Result<(), Memory>
        requires chained { AreChained self.now }
        requires key { (row : List Field) → joins (J.predicate join.now) side row against.now ≡ true → key_at self.now.own row ≡ Some key }
        requires empty { found.old ≡ [] }
        ensures { OnOk result (found.new ≡ settled_matches (J.predicate join.now) side against.now (rows_in self.now)) }
    {
        if !self.is_ascending {
            return self.probe_sorted(alloc, side, against, join, found);
        }
        self.gather(key, side, against, join, found)
    }

    /// Puts the settled rows of a key that join with a row of the other stream into an empty list of partners. After an error some of
    /// them may be there.
    #[inline(always)]
    fn gather<J: Join<SharedRow>>(
        &self,
        key: u64,
        side: Side,
        against: &SharedRow,
        join: &J,
        found: &mut Partners<SharedRow>,
    ) -> Result<(), Memory>
        requires chained { AreChained self.now }
        requires ascending { self.now.is_ascending ≡ true }
        requires key { (row : List Field) → joins (J.predicate join.now) side row against.now ≡ true → key_at self.now.own row ≡ Some key }
        requires empty { found.old ≡ [] }
        ensures { OnOk result (found.new ≡ settled_matches (J.predicate join.now) side against.now (rows_in self.now)) }
    {
        let last = self.last_of(key);
        let Some(_place) = self.place(last) else {
            return Ok(());
        };
        self.walk(key, last, side, against, join, found)
    }

    /// Finds the same, whatever the order in which the rows stand. What was found before is replaced; after an error it stays.
    #[cold]
    fn probe_sorted<J: Join<SharedRow>>(
        &self,
        alloc: Global,
        side: Side,
        against: &SharedRow,
        join: &J,
        found: &mut Partners<SharedRow>,
    ) -> Result<(), Memory>
        requires chained { AreChained self.now }
        ensures { OnOk result (found.new ≡ settled_matches (J.predicate join.now) side against.now (rows_in self.now)) }
    {
        let mut rows = BTreeMap::new(alloc);
        for at in 0..self.places.len() {
            let place = &self.places[at];
            if let Some(row) = joining_row(&place.rest, side, against, join) {
                rows.insert(place.no, row.share()?)?;
            }
        }
        *found = partners_of(alloc, rows)?;
        Ok(())
    }

    /// Puts the settled rows of a key that join with a row of the other stream into an empty list of partners, from the last place on
    /// that is known of the key. After an error some of them may be there.
    // Called, so that a probe of a key that has no row stays short.
    #[inline(never)]
    fn walk<J: Join<SharedRow>>(
        &self,
        key: u64,
        last: u64,
        side: Side,
        against: &SharedRow,
        join: &J,
        found: &mut Partners<SharedRow>,
    ) -> Result<(), Memory>
        requires chained { AreChained self.now }
        requires ascending { self.now.is_ascending ≡ true }
        requires key { (row : List Field) → joins (J.predicate join.now) side row against.now ≡ true → key_at self.now.own row ≡ Some key }
        requires last { last ≡ known_place (get nat_eq self.now.last key) }
        requires empty { found.old ≡ [] }
        ensures { OnOk result (found.new ≡ settled_matches (J.predicate join.now) side against.now (rows_in self.now)) }
    {
        let mut next = last;
        while let Some(place) = self.place(next) {
            next = place.before;
            if let Some(row) = joining_row(&place.rest, side, against, join) {
                found.push(Partner {
                    no: EventNo(place.no),
                    row: row.share()?,
                })?;
            }
        }
        found.reverse();
        Ok(())
    }
}
