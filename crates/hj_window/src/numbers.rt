ghost use Rattle.std.specs.Prelude.{◌≡◌, ◌++◌, [], ◌∷◌, length, slice_get, OnOk, OnErr};
ghost use Rattle.std.specs.Option.{option_copied};

use hj_base::{EventNo, Memory, Side};
use std::alloc::Global;
use std::marker::Model;

/// Rows by their sides and the numbers of their arrivals, seen as the list of them.
#[derive(Debug, Drop)]
pub struct Numbers {
    numbers: Vec<(Side, EventNo)>,
}

impl Model for Numbers {
    ghost use Rattle.std.specs.Prelude.{List};
    ghost use Rattle.hj_base.specs.declared.numbers.EventNo.{EventNo};
    ghost use Rattle.hj_base.specs.declared.numbers.Side.{Side};

    ghost Value = { List (Side × EventNo) };

    ghost view = { λ n. n.numbers.items };
}

impl Numbers {
    /// Makes an empty list. It takes no memory.
    pub fn new(alloc: Global) -> Self
        ensures { result ≡ [] }
    {
        Numbers {
            numbers: Vec::new(alloc),
        }
    }

    /// Returns how many there are.
    pub fn len(&self) -> usize
        ensures { result ≡ length self.now }
    {
        self.numbers.len()
    }

    /// Returns the side and the number at a place, counted from 0; None exactly at or past the length.
    pub fn get(&self, at: usize) -> Option<&(Side, EventNo)>
        ensures { option_copied result ≡ slice_get self.now at }
    {
        self.numbers.get(at)
    }

    /// Appends a row's side and number. An error changes nothing.
    pub fn push(&mut self, row: (Side, EventNo)) -> Result<(), Memory>
        ensures ok { OnOk result (self.new ≡ self.old ++ row ∷ []) }
        ensures err { OnErr result (self.new ≡ self.old) }
    {
        self.numbers.push(row)?;
        Ok(())
    }
}
