ghost use Rattle.std.specs.Prelude.{◌≡◌, ◌≤◌, length, IfOk};
ghost use Rattle.std.specs.VecDeque.{deque_capacity};

use crate::{Row, SharedRow};
use hj_base::{Memory, Share};
use std::alloc::Global;
use std::collections::VecDeque;
use std::sync::Arc;

/// About how many rows are kept that nobody else holds: mostly several are let go together.
const MOST_SPARE: usize = 32;

/// The rows of a stream that were shared, from the first one on, each held here too. One that nobody else holds any more gives its
/// block of memory to the next row: rows that come and go, the oldest first, take no block each.
#[derive(Drop)]
pub struct RowBlocks {
    alloc: Global,
    rows: VecDeque<SharedRow>,
}

impl RowBlocks {
    /// Makes one that holds no rows.
    pub fn new(alloc: Global) -> Self {
        RowBlocks {
            alloc,
            rows: VecDeque::new(alloc),
        }
    }

    /// Makes a row ready to be shared. On an error the row is gone.
    #[inline(always)]
    pub fn share(&mut self, row: Row) -> Result<SharedRow, Memory>
        ensures { IfOk result (λ shared. shared ≡ row) }
    {
        let Some(mut oldest) = self.rows.pop_front() else {
            return self.share_in_new_block(row);
        };
        let Some(place) = Arc::get_mut(&mut oldest.row) else {
            self.rows.push_front_reserved(oldest);
            return self.share_in_new_block(row);
        };
        *place = row;
        self.let_go_spare();
        self.rows.push_back_reserved(oldest.share()?);
        Ok(oldest)
    }

    /// Lets the oldest row go where there are too many that nobody else holds, so that blocks go, one with each row, as fewer rows are
    /// held by others.
    #[inline(always)]
    fn let_go_spare(&mut self)
        ensures len { length self.new.rows.items ≤ length self.old.rows.items }
        ensures capacity { deque_capacity self.new.rows ≡ deque_capacity self.old.rows }
    {
        let Some(row) = self.rows.get_mut(MOST_SPARE) else {
            return;
        };
        if Arc::get_mut(&mut row.row).is_some() {
            drop(self.rows.pop_front());
        }
    }

    /// Shares a row in a block of its own.
    // Called, so that what is mostly done stays short.
    #[inline(never)]
    fn share_in_new_block(&mut self, row: Row) -> Result<SharedRow, Memory>
        ensures { IfOk result (λ shared. shared ≡ row) }
    {
        let shared = SharedRow::new(self.alloc, row)?;
        self.rows.push_back(shared.share()?)?;
        Ok(shared)
    }
}
