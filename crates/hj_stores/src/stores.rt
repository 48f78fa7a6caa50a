ghost use Rattle.std.specs.Prelude.{◌≡◌, length, All, IfOk};
ghost use Rattle.hj_stores.specs.Stores.{AreReadyFor, IsNewFor};

use hj_base::{Memory, Side};
use hj_columns::ColumnStore;
use hj_eval::{Filter, StorePlan};
use hj_index::{HashStore, OrderedStore};
use hj_query::Query;
use hj_rows::ListStore;
use hj_value::SharedRow;
use std::alloc::Global;

/// Holds the stores of a chain's cores, all of one kind: a left one and a right one for each, by the place of the core.
#[derive(Drop)]
pub struct ChainStores<S> {
    pub left: Vec<S>,
    pub right: Vec<S>,
}

/// Holds the stores of a chain's cores, of the kind that a query's condition asks for.
#[derive(Drop)]
pub enum PlannedStores<'a> {
    /// For the plan Equal.
    Hash(ChainStores<HashStore>),
    /// For the plan Band.
    Ordered(ChainStores<OrderedStore>),
    /// For the plan Scan, under a condition with filters.
    Columns(ChainStores<ColumnStore<SharedRow, Filter<'a>>>),
    /// For the plan Scan, under any other condition.
    List(ChainStores<ListStore<SharedRow>>),
}

/// Makes the stores of a chain of `cores` cores, of the kind that the query's condition asks for. They have no rows, and the
/// query's join may probe them. The error is that memory ran out.
pub fn planned_stores<'a>(
    alloc: Global,
    query: &'a Query,
    cores: u16,
) -> Result<PlannedStores<'a>, Memory>
    ensures { IfOk result (AreReadyFor query.now cores) }
{
    match hj_eval::plan(query) {
        StorePlan::Equal { left, right } => Ok(PlannedStores::Hash(ChainStores {
            left: repeat_with(alloc, cores, || HashStore::new(alloc, left, right))?,
            right: repeat_with(alloc, cores, || HashStore::new(alloc, right, left))?,
        })),
        StorePlan::Band {
            left,
            right,
            within,
        } => Ok(PlannedStores::Ordered(ChainStores {
            left: repeat_with(
                alloc,
                cores,
                || OrderedStore::new(alloc, left, right, within),
            )?,
            right: repeat_with(
                alloc,
                cores,
                || OrderedStore::new(alloc, right, left, within),
            )?,
        })),
        StorePlan::Scan => scanned_stores(alloc, query, cores),
    }
}

/// Makes stores for `cores` cores, of which a probe goes over all rows, or over their keys where the query's condition has filters.
fn scanned_stores<'a>(
    alloc: Global,
    query: &'a Query,
    cores: u16,
) -> Result<PlannedStores<'a>, Memory>
    ensures { IfOk result (AreReadyFor query.now cores) }
{
    let filters = hj_eval::filters(alloc, query)?;
    if filters.is_empty() {
        return Ok(PlannedStores::List(ChainStores {
            left: repeat_with(alloc, cores, || ListStore::new(alloc))?,
            right: repeat_with(alloc, cores, || ListStore::new(alloc))?,
        }));
    }
    let filters = filters.as_slice();
    Ok(PlannedStores::Columns(ChainStores {
        left: column_stores(alloc, cores, Side::Left, filters)?,
        right: column_stores(alloc, cores, Side::Right, filters)?,
    }))
}

/// Makes `count` stores of columns with no rows, for rows of `side`.
fn column_stores<'a>(
    alloc: Global,
    count: u16,
    side: Side,
    filters: &[Filter<'a>],
) -> Result<Vec<ColumnStore<SharedRow, Filter<'a>>>, Memory>
    ensures count { IfOk result (λ stores. length stores.items ≡ count) }
    ensures made { IfOk result (λ stores. All (IsNewFor side filters.now) stores.items) }
{
    let mut stores = Vec::with_capacity(alloc, usize::from(count))?;
    for _ in 0..count {
        stores.push(ColumnStore::new(alloc, side, filters)?)?;
    }
    Ok(stores)
}

/// Makes `count` stores, each anew.
fn repeat_with<S: Drop, M: Fn() -> S>(alloc: Global, count: u16, make: M) -> Result<Vec<S>, Memory>
    requires { M.IsAlwaysCallable make }
    ensures count { IfOk result (λ stores. length stores.items ≡ count) }
    ensures made { IfOk result (λ stores. All (λ store. M.post make store) stores.items) }
{
    let mut stores = Vec::with_capacity(alloc, usize::from(count))?;
    for _ in 0..count {
        stores.push(make())?;
    }
    Ok(stores)
}
