ghost use Rattle.std.specs.Prelude.{◌≡◌, ℕ, ◌+◌, ◌*◌, ◌≤◌, ◌<◌, ◌^◌, [], true, Some, List, map, All, IfOk, option_map};
ghost use Rattle.hj_base.specs.declared.numbers.Side.{Side};
ghost use Rattle.hj_msg.specs.Store.{joins, settled_matches};
ghost use Rattle.hj_rows.specs.Keys.{KeepsKeys};

use crate::key_column::{KeyColumn, fill, new_columns, reserve_keys};
use crate::probing::probe_columns;
use hj_base::{EventNo, Memory, Share, Side};
use hj_msg::{Join, Partners, Store};
use hj_rows::{KeyFilter, NumberedRows};
use std::alloc::Global;
use std::marker::Model;

/// A store in which a probe looks only at the rows whose keys lie in the ranges of all its filters. It suits joins for which such
/// rows alone match.
#[derive(Drop)]
pub struct ColumnStore<P, F: KeyFilter<P>> {
    alloc: Global,
    /// The side of the rows at rest.
    side: Side,
    rows: NumberedRows<P>,
    columns: Vec<KeyColumn<F>>,
}

impl<P, F: KeyFilter<P>> Model for ColumnStore<P, F> {
    ghost use Rattle.std.specs.Prelude.{All};
    ghost use Rattle.hj_rows.specs.NumberedRows.{places_in, room_in, rows_in};
    ghost use Rattle.hj_columns.specs.Columns.{filters_of, IsKeyColumn};
    ghost use Rattle.hj_columns.specs.Store.{keys_behind, ColumnRows};

    ghost Value = { ColumnRows P F };

    ghost view = { λ s. record {
      side = s.side;
      rows = rows_in s.rows;
      room = room_in s.rows;
      filters = filters_of s.columns.items;
      waiting = keys_behind (places_in s.rows) s.columns.items;
    } };

    ghost invariant = { λ s. All (IsKeyColumn (λ filter. F.key filter s.side) (places_in s.rows)) s.columns.items };
}

impl<P: Drop, F: KeyFilter<P> + Copy + Drop> ColumnStore<P, F> {
    /// Makes a store with no rows, for rows of `side`.
    pub fn new(alloc: Global, side: Side, filters: &[F]) -> Result<Self, Memory>
        ensures rows { IfOk result (λ store. store.rows ≡ []) }
        ensures side { IfOk result (λ store. store.side ≡ side) }
        ensures filters { IfOk result (λ store. store.filters ≡ filters.now) }
    {
        Ok(ColumnStore {
            alloc,
            side,
            rows: NumberedRows::new(alloc),
            columns: new_columns(alloc, filters)?,
        })
    }
}

impl<P: Share + Drop, F: KeyFilter<P>, J: Join<P>> Store<P, J> for ColumnStore<P, F> {
    ghost entries = { λ store. store.rows };

    ghost has_place = { λ store no row. (1 < store.room) × (store.waiting ≡ map (λ filter. Some (F.key filter store.side row)) store.filters) };

    ghost suits = { λ store side join. (store.side ≡ side) × All (λ filter. KeepsKeys (J.predicate join) (F.key filter) (F.range filter)) store.filters };

    fn reserve(&mut self, _no: EventNo, row: &P) -> Result<(), Memory> {
        self.rows.reserve()?;
        reserve_keys(&mut self.columns, &self.rows, self.side, row)
    }

    fn insert(&mut self, no: EventNo, row: P, settled: bool) {
        let before = self.rows.places();
        let _replaced = self.rows.insert(no.0, row, settled);
        if self.rows.places() != before + 1 {
            fill(&mut self.columns, &self.rows, self.side);
        }
    }

    fn settle(&mut self, no: EventNo) -> bool {
        self.rows.settle(no.0)
    }

    fn remove(&mut self, no: EventNo) -> bool {
        let before = self.rows.places();
        let removed = self.rows.remove(no.0).is_some();
        if self.rows.places() != before {
            fill(&mut self.columns, &self.rows, self.side);
        }
        removed
    }

    fn probe(
        &self,
        side: Side,
        against: &P,
        join: &J,
        found: &mut Partners<P>,
    ) -> Result<(), Memory> {
        let columns = self.columns.as_slice();
        probe_columns(self.alloc, &self.rows, columns, side, against, join, found)
    }
}
