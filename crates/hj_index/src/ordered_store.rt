ghost use Rattle.std.specs.Prelude.{◌≡◌, ◌<◌, [], Some, OnOk};
ghost use Rattle.hj_base.specs.declared.numbers.Side.{Side};
ghost use Rattle.hj_eval.specs.Holds.{holds};
ghost use Rattle.hj_eval.specs.Plan.{plan_of};
ghost use Rattle.hj_rows.specs.NumberedRows.{rows_in};
ghost use Rattle.hj_index.specs.OrderedIndex.{key_of, number_at, HasPlace};
ghost use Rattle.hj_index.specs.OrderedStore.{band_plan, JoinsNear};
ghost use Rattle.hj_msg.specs.Store.{settled_matches};
ghost use Rattle.hj_query.specs.QueryParts.{QueryParts};

use crate::ordered_index::{OrderedIndex, band, key_of, key_of_held, number_at};
use hj_base::{EventNo, Memory, Share, Side};
use hj_msg::{Join, Partner, Partners, Store};
use hj_rows::{NumberedRows, partners_of};
use hj_value::SharedRow;
use std::alloc::Global;
use std::collections::BTreeMap;
use std::marker::Model;

/// A store in which a probe looks only at the rows of which the number is near that of the row that probes, each in one
/// column. It suits joins for which such rows alone match.
#[derive(Drop)]
pub struct OrderedStore {
    alloc: Global,
    /// The column of the rows at rest.
    own: u16,
    /// The column of the rows that probe.
    other: u16,
    /// By how much the numbers of two rows that match may differ.
    within: u64,
    rows: NumberedRows<SharedRow>,
    index: OrderedIndex,
}

impl Model for OrderedStore {
    ghost use Rattle.hj_rows.specs.NumberedRows.{room_in, rows_in};
    ghost use Rattle.hj_index.specs.OrderedStore.{AreOrdered, OrderedRows};

    ghost Value = { OrderedRows };

    ghost view = { λ s. record {
      own = s.own;
      other = s.other;
      within = s.within;
      rows = rows_in s.rows;
      room = room_in s.rows;
      keys = s.index.keys.keys;
    } };

    ghost invariant = { λ s. AreOrdered s.own (rows_in s.rows) s.index };
}

impl OrderedStore {
    /// Makes a store with no rows. `own` is the column of the rows at rest, `other` that of the rows that probe, each counted from
    /// 0; numbers in them are near if they differ by at most `within`. It suits a join by a query of which the plan is Band
    /// on these columns and by this distance.
    pub fn new(alloc: Global, own: u16, other: u16, within: u64) -> Self
        ensures rows { result.rows ≡ [] }
        ensures own { result.own ≡ own }
        ensures other { result.other ≡ other }
        ensures within { result.within ≡ within }
        ensures suits { (side : Side) (query : QueryParts) → plan_of query.pred ≡ band_plan own other within side → JoinsNear own other within (holds query) side }
    {
        OrderedStore {
            alloc,
            own,
            other,
            within,
            rows: NumberedRows::new(alloc),
            index: OrderedIndex::new(alloc),
        }
    }
}

impl<J: Join<SharedRow>> Store<SharedRow, J> for OrderedStore {
    ghost entries = { λ store. store.rows };

    ghost has_place = { λ store no row. (1 < store.room) × HasPlace store.keys (key_of store.own no row) };

    ghost suits = { λ store side join. JoinsNear store.own store.other store.within (J.predicate join) side };

    fn reserve(&mut self, no: EventNo, row: &SharedRow) -> Result<(), Memory> {
        self.rows.reserve()?;
        self.index.reserve(key_of(row.row(), self.own, no.0))
    }

    fn insert(&mut self, no: EventNo, row: SharedRow, settled: bool) {
        let key = key_of(row.row(), self.own, no.0);
        let replaced = self.rows.insert(no.0, row, settled);
        self.index
            .replace(key_of_held(&replaced, self.own, no.0), key);
    }

    fn settle(&mut self, no: EventNo) -> bool {
        self.rows.settle(no.0)
    }

    fn remove(&mut self, no: EventNo) -> bool {
        let removed = self.rows.remove(no.0);
        self.index.remove(key_of_held(&removed, self.own, no.0));
        removed.is_some()
    }

    fn probe(
        &self,
        side: Side,
        against: &SharedRow,
        join: &J,
        found: &mut Partners<SharedRow>,
    ) -> Result<(), Memory> {
        let Some(number) = number_at(against.row(), self.other) else {
            return Ok(());
        };
        let mut last = 0;
        for key in self.index.keys.range(band(number, self.within)) {
            if let Some(row) = self.index.joining(&self.rows, *key, side, against, join) {
                if key.1 < last {
                    return self.probe_sorted(number, side, against, join, found);
                }
                found.push(Partner {
                    no: EventNo(key.1),
                    row: row.share()?,
                })?;
                last = key.1;
            }
        }
        Ok(())
    }
}

impl OrderedStore {
    /// Probes the rows that are near a number where those that join don't stand in order of their numbers of arrival. What was found
    /// before is replaced; after an error it stays.
    #[cold]
    fn probe_sorted<J: Join<SharedRow>>(
        &self,
        number: i64,
        side: Side,
        against: &SharedRow,
        join: &J,
        found: &mut Partners<SharedRow>,
    ) -> Result<(), Memory>
        requires suits { JoinsNear self.now.own self.now.other self.now.within (J.predicate join.now) side }
        requires number { number_at self.now.other against.now ≡ Some number }
        ensures { OnOk result (found.new ≡ settled_matches (J.predicate join.now) side against.now self.now.rows) }
    {
        let mut rows = BTreeMap::new(self.alloc);
        for key in self.index.keys.range(band(number, self.within)) {
            if let Some(row) = self.index.joining(&self.rows, *key, side, against, join) {
                rows.insert(key.1, row.share()?)?;
            }
        }
        *found = partners_of(self.alloc, rows)?;
        Ok(())
    }
}
