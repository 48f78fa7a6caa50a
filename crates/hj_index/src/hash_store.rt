ghost use Rattle.std.specs.Prelude.{◌≡◌, ◌<◌, []};
ghost use Rattle.hj_base.specs.declared.numbers.Side.{Side};
ghost use Rattle.hj_eval.specs.Holds.{holds};
ghost use Rattle.hj_eval.specs.Plan.{plan_of};
ghost use Rattle.hj_index.specs.HashStore.{equal_plan, JoinsEqual};
ghost use Rattle.hj_query.specs.QueryParts.{QueryParts};

use crate::chains::KeyChains;
use crate::keys::key_at;
use hj_base::{EventNo, Memory, Side};
use hj_msg::{Join, Partners, Store};
use hj_value::SharedRow;
use std::alloc::Global;
use std::marker::Model;

/// A store in which a probe looks only at the rows that have the value of the row that probes, each in one column. It suits
/// joins for which such rows alone match.
///
/// The rows stand in the order in which their numbers came, and those of equal value are a chain, of which each knows the
/// one before it. A row that is taken out from the front is looked up nowhere.
#[derive(Drop)]
pub struct HashStore {
    alloc: Global,
    /// The column of the rows that probe.
    other: u16,
    /// The rows at rest, chained by the values of their column.
    rows: KeyChains,
    /// How many places, of those that there were, stand before the row that is thought to be settled next: rows are settled in the order
    /// in which they came.
    next: u64,
}

impl Model for HashStore {
    ghost use Rattle.std.specs.Prelude.{◌-◌};
    ghost use Rattle.std.specs.HashMap.{spare};
    ghost use Rattle.std.specs.VecDeque.{deque_capacity, deque_len};
    ghost use Rattle.hj_index.specs.KeyChains.{rows_in, AreChained};
    ghost use Rattle.hj_index.specs.HashStore.{HashRows};

    ghost Value = { HashRows };

    ghost view = { λ s. record {
      own = s.rows.own;
      other = s.other;
      rows = rows_in s.rows;
      room = deque_capacity s.rows.places - deque_len s.rows.places;
      chain_room = spare s.rows.last;
    } };

    ghost invariant = { λ s. AreChained s.rows };
}

impl HashStore {
    /// Makes a store with no rows. `own` is the column of the rows at rest, `other` that of the rows that probe, each counted from
    /// 0. It suits a join by a query of which the plan is Equal on these columns.
    pub fn new(alloc: Global, own: u16, other: u16) -> Self
        ensures rows { result.rows ≡ [] }
        ensures own { result.own ≡ own }
        ensures other { result.other ≡ other }
        ensures suits { (side : Side) (query : QueryParts) → plan_of query.pred ≡ equal_plan own other side → JoinsEqual own other (holds query) side }
    {
        HashStore {
            alloc,
            other,
            rows: KeyChains::new(alloc, own),
            next: 0,
        }
    }
}

impl<J: Join<SharedRow>> Store<SharedRow, J> for HashStore {
    ghost entries = { λ store. store.rows };

    ghost has_place = { λ store no row. (0 < store.room) × (0 < store.chain_room) };

    ghost suits = { λ store side join. JoinsEqual store.own store.other (J.predicate join) side };

    fn reserve(&mut self, _no: EventNo, _row: &SharedRow) -> Result<(), Memory> {
        self.rows.reserve()
    }

    fn insert(&mut self, no: EventNo, row: SharedRow, settled: bool) {
        self.rows.put(no.0, row, settled);
    }

    fn settle(&mut self, no: EventNo) -> bool {
        self.rows.settle(no.0, &mut self.next)
    }

    fn remove(&mut self, no: EventNo) -> bool {
        self.rows.take(no.0)
    }

    #[inline(always)]
    fn probe(
        &self,
        side: Side,
        against: &SharedRow,
        join: &J,
        found: &mut Partners<SharedRow>,
    ) -> Result<(), Memory> {
        match key_at(against.row(), self.other) {
            Some(key) => self.rows.probe(self.alloc, key, side, against, join, found),
            None => Ok(()),
        }
    }
}
