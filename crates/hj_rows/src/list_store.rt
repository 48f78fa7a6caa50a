ghost use Rattle.std.specs.Prelude.{◌≡◌, ◌<◌, [], map, IfOk, OnOk};
ghost use Rattle.std.specs.Option.{option_copied};
ghost use Rattle.hj_msg.specs.Store.{joins, settled_matches};
ghost use Rattle.hj_rows.specs.ListStore.{resting_rows};
ghost use Rattle.hj_rows.specs.NumberedRows.{room_in, rows_in};
ghost use Rattle.hj_rows.specs.Places.{joining, partner_of};

use crate::numbered::NumberedRows;
use crate::place::RestingRow;
use hj_base::{EventNo, Memory, Share, Side};
use hj_msg::{Join, Partner, Partners, Store};
use std::alloc::Global;
use std::collections::BTreeMap;

/// A store that is walked whole by each probe, so it suits every join.
#[derive(Drop)]
pub struct ListStore<P> {
    alloc: Global,
    rows: NumberedRows<P>,
}

impl<P> ListStore<P> {
    /// Makes a store with no rows.
    pub fn new(alloc: Global) -> Self
        ensures { resting_rows result ≡ [] }
    {
        ListStore {
            alloc,
            rows: NumberedRows::new(alloc),
        }
    }
}

impl<P: Share + Drop, J: Join<P>> Store<P, J> for ListStore<P> {
    ghost entries = { resting_rows };

    ghost has_place = { λ store no row. 1 < room_in store.rows };

    ghost suits = { λ store side join. Unit {0} };

    fn reserve(&mut self, _no: EventNo, _row: &P) -> Result<(), Memory> {
        self.rows.reserve()
    }

    fn insert(&mut self, no: EventNo, row: P, settled: bool) {
        let _replaced = self.rows.insert(no.0, row, settled);
    }

    fn settle(&mut self, no: EventNo) -> bool {
        self.rows.settle(no.0)
    }

    fn remove(&mut self, no: EventNo) -> bool {
        self.rows.remove(no.0).is_some()
    }

    fn probe(
        &self,
        side: Side,
        against: &P,
        join: &J,
        found: &mut Partners<P>,
    ) -> Result<(), Memory> {
        let mut last = 0;
        for (no, place) in &self.rows.places {
            if let Some(row) = joining_row(place, side, against, join) {
                if *no < last {
                    return probe_sorted(self.alloc, &self.rows, side, against, join, found);
                }
                found.push(Partner {
                    no: EventNo(*no),
                    row: row.share()?,
                })?;
                last = *no;
            }
        }
        Ok(())
    }
}

/// Finds what a probe asks for where the rows that join don't stand in order of their numbers: all places are walked. `side` is
/// that of the rows at rest. What was found before is replaced; after an error it stays.
#[cold]
pub fn probe_sorted<P: Share + Drop, J: Join<P>>(
    alloc: Global,
    rows: &NumberedRows<P>,
    side: Side,
    against: &P,
    join: &J,
    found: &mut Partners<P>,
) -> Result<(), Memory>
    ensures { OnOk result (found.new ≡ settled_matches (J.predicate join.now) side against.now (rows_in rows.now)) }
{
    let mut sorted = BTreeMap::new(alloc);
    for (no, place) in rows.places.iter() {
        if let Some(row) = joining_row(place, side, against, join) {
            sorted.insert(*no, row.share()?)?;
        }
    }
    *found = partners_of(alloc, sorted)?;
    Ok(())
}

/// Gives rows, each under the number of its arrival, as partners in order of these numbers.
pub fn partners_of<P: Drop>(alloc: Global, rows: BTreeMap<u64, P>) -> Result<Partners<P>, Memory>
    ensures { IfOk result (λ partners. partners ≡ map partner_of rows.entries) }
{
    let mut partners = Partners::new(alloc);
    for (no, row) in rows {
        partners.push(Partner {
            no: EventNo(no),
            row,
        })?;
    }
    Ok(partners)
}

/// Gives the row of a place, where it is settled and joins with `against`, a row of the other side; `side` is that of the place.
#[inline(always)]
pub fn joining_row<'a, P, J: Join<P>>(
    place: &'a Option<RestingRow<P>>,
    side: Side,
    against: &P,
    join: &J,
) -> Option<&'a P>
    ensures { option_copied result ≡ joining (λ row. joins (J.predicate join.now) side row against.now) place.now }
{
    match place {
        Some(rest) if rest.settled && is_joined(side, &rest.row, against, join) => Some(&rest.row),
        _ => None,
    }
}

/// Asks whether a row of `side` joins with a row of the other one.
#[inline(always)]
pub fn is_joined<P, J: Join<P>>(side: Side, row: &P, other: &P, join: &J) -> bool
    ensures { result ≡ joins (J.predicate join.now) side row.now other.now }
{
    match side {
        Side::Left => join.matches(row, other),
        Side::Right => join.matches(other, row),
    }
}
