ghost use Rattle.std.specs.Prelude.{◌≡◌, ◌++◌, ◌∷◌, [], true, IfOk};

use hj_base::{EventNo, Memory};
use hj_msg::{Partner, Partners};

/// What a probe has found so far, and the last number among it.
#[derive(Drop)]
pub struct FoundRows<P> {
    pub(crate) partners: Partners<P>,
    pub(crate) last: u64,
}

impl<P: Drop> FoundRows<P> {
    ghost use Rattle.hj_columns.specs.Probing.{IsInOrder};

    /// Adds a row at the end; returns false where a greater number stands there, and adds nothing.
    pub(crate) fn add(&mut self, no: u64, row: P) -> Result<bool, Memory>
        ensures added { IfOk result (λ added. added ≡ true → self.new.partners ≡ self.old.partners ++ record { no = record { 0 = no }; row = row } ∷ []) }
        ensures order { IfOk result (λ added. added ≡ true → IsInOrder self.old → IsInOrder self.new) }
    {
        if no < self.last {
            return Ok(false);
        }
        self.partners.push(Partner {
            no: EventNo(no),
            row,
        })?;
        self.last = no;
        Ok(true)
    }
}
