ghost use Rattle.std.specs.Prelude.{◌≤◌, length, IsTrue, ◌≡◌, IfOk};
ghost use Rattle.hj_value.specs.Schema.{has_distinct_names, starts_with_time};

use crate::Columns;
use hj_base::Memory;
use std::alloc::Global;

/// The columns of a stream's rows: at most 256, with distinct names, and the first is `ts int`, the row's time.
#[derive(Debug, Drop)]
pub struct Schema {
    pub columns: Columns,
    pub ghost few: { length columns ≤ 256 },
    pub ghost distinct: { IsTrue (has_distinct_names columns) },
    pub ghost timed: { IsTrue (starts_with_time columns) },
}

impl Schema {
    /// Makes a schema of the same columns.
    pub fn copy(&self, alloc: Global) -> Result<Self, Memory>
        ensures { IfOk result (λ copy. copy.columns ≡ self.now.columns) }
    {
        Ok(Schema {
            columns: self.columns.copy(alloc)?,
        })
    }
}
