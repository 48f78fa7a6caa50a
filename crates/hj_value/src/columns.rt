ghost use Rattle.std.specs.Prelude.{◌≡◌, ◌++◌, [], ◌∷◌, length, slice_get, IfOk, OnOk, OnErr};
ghost use Rattle.std.specs.Option.{option_copied};

use crate::Column;
use hj_base::Memory;
use std::alloc::Global;
use std::marker::Model;

/// Columns, seen as the list of them.
#[derive(Debug, Drop)]
pub struct Columns {
    columns: Vec<Column>,
}

impl Model for Columns {
    ghost use Rattle.std.specs.Prelude.{List};
    ghost use Rattle.hj_value.specs.declared.column.Column.{Column};

    ghost Value = { List Column };

    ghost view = { λ c. c.columns.items };
}

impl Columns {
    /// Makes an empty list of columns.
    pub fn new(alloc: Global) -> Self
        ensures { result ≡ [] }
    {
        Columns {
            columns: Vec::new(alloc),
        }
    }

    /// Returns how many columns there are.
    pub fn len(&self) -> usize
        ensures { result ≡ length self.now }
    {
        self.columns.len()
    }

    /// Returns the column at a place, counted from 0; None exactly at or past the length.
    pub fn get(&self, at: usize) -> Option<&Column>
        ensures { option_copied result ≡ slice_get self.now at }
    {
        self.columns.get(at)
    }

    /// Appends a column. An error changes nothing.
    pub fn push(&mut self, column: Column) -> Result<(), Memory>
        ensures ok { OnOk result (self.new ≡ self.old ++ column ∷ []) }
        ensures err { OnErr result (self.new ≡ self.old) }
    {
        self.columns.push(column)?;
        Ok(())
    }

    /// Copies the columns, in the same order.
    pub fn copy(&self, alloc: Global) -> Result<Self, Memory>
        ensures { IfOk result (λ copy. copy ≡ self.now) }
    {
        let mut copy = Columns::new(alloc);
        for column in &self.columns {
            copy.push(Column {
                name: column.name.copy(alloc)?,
                kind: column.kind,
            })?;
        }
        Ok(copy)
    }
}
