//! The turn of a put or of a take, as a value of no bytes.
ghost use Rattle.std.specs.Prelude.{◌≡◌, ℕ};
ghost use Rattle.std.specs.Borrow.{ftrue};

use std::marker::Model;

/// The turn of a put or of a take. Clauses alone read it, so it has no bytes.
#[derive(Drop)]
pub struct TurnNo {
    pub(crate) ghost number: { ℕ },
}

impl Model for TurnNo {
    ghost also_owns = { λ _. ftrue };
}

impl TurnNo {
    #[inline(always)]
    pub(crate) fn of(_number: u64) -> TurnNo
        ensures { result.number ≡ _number }
    {
        TurnNo {}
    }
}
