ghost use Rattle.std.specs.Prelude.{◌≡◌, IfOk};

use crate::Row;
use hj_base::{Memory, Share};
use std::alloc::Global;
use std::marker::Model;
use std::sync::Arc;

/// A row that several holders share, seen as that row. It goes away with its last holder.
#[derive(Drop)]
pub struct SharedRow {
    pub(crate) row: Arc<Row>,
}

impl Model for SharedRow {
    ghost use Rattle.std.specs.Prelude.{List};
    ghost use Rattle.std.specs.Arc.{arc_value};
    ghost use Rattle.hj_value.specs.declared.field.Field.{Field};

    ghost Value = { List Field };

    ghost view = { λ s. arc_value s.row };
}

impl SharedRow {
    /// Makes a row ready to be shared. On an error the row is gone.
    #[inline(always)]
    pub fn new(alloc: Global, row: Row) -> Result<Self, Memory>
        ensures { IfOk result (λ shared. shared ≡ row) }
    {
        Ok(SharedRow {
            row: Arc::new(alloc, row)?,
        })
    }

    /// Returns the row that is shared.
    #[inline(always)]
    pub fn row(&self) -> &Row
        ensures { result.now ≡ self.now }
    {
        &self.row
    }
}

impl Share for SharedRow {
    #[inline(always)]
    fn share(&self) -> Result<Self, Memory>
        ensures { IfOk result (λ shared. shared ≡ self.now) }
    {
        Ok(SharedRow {
            row: Arc::try_clone(&self.row)?,
        })
    }
}
