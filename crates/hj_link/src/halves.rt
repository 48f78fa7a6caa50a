//! Whether an end puts, and whether it takes.
ghost use Rattle.std.specs.Prelude.{ℕ, Bool};
ghost use Rattle.hj_link.specs.Rule.{Seated};
ghost use Rattle.hj_link.specs.Halves.{AtTable, Outgoes, Incomes, KeepsTakes, KeepsPuts, outgoes_on, incomes_on};

use crate::incoming::IncomingWay;
use crate::outgoing::OutgoingWay;

/// What an end keeps of the direction into which it puts, if it puts.
pub trait PuttingHalf<M>: Drop {
    ghost outgoes: { Bool → Seated M → Self → Type 0 };

    // so many puts find room, whatever the other end does
    ghost room: { Self → ℕ };

    // A take leaves it right.
    ghost goes_on: { (side : Bool) (old new : AtTable M) (half : Self) → KeepsPuts side old new → outgoes side old.me half → outgoes side new.me half };
}

/// What an end keeps of the direction from which it takes, if it takes.
pub trait TakingHalf<M>: Drop {
    ghost incomes: { Bool → Seated M → Self → Type 0 };

    // so many takes find a message, whatever the other end does
    ghost ready: { Self → ℕ };

    // A put leaves it right.
    ghost goes_on: { (side : Bool) (old new : AtTable M) (half : Self) → KeepsTakes side old new → incomes side old.me half → incomes side new.me half };

    /// Whether the end takes messages.
    const TAKES: bool;
}

impl<M> PuttingHalf<M> for OutgoingWay {
    ghost outgoes = { λ side me half. Outgoes side me half };

    ghost room = { λ half. half.room };

    ghost goes_on = { λ side old new half keeps is. outgoes_on side old new half keeps is };
}

impl<M> TakingHalf<M> for IncomingWay {
    ghost incomes = { λ side me half. Incomes side me half };

    ghost ready = { λ half. half.ready };

    ghost goes_on = { λ side old new half keeps is. incomes_on side old new half keeps is };

    const TAKES: bool = true;
}

/// The half of an end that puts nothing, or that takes nothing.
#[derive(Drop)]
pub struct Unused;

impl<M> PuttingHalf<M> for Unused {
    ghost outgoes = { λ side me half. Unit {0} };

    ghost room = { λ half. 0 };

    ghost goes_on = { λ side old new half keeps is. tt };
}

impl<M> TakingHalf<M> for Unused {
    ghost incomes = { λ side me half. Unit {0} };

    ghost ready = { λ half. 0 };

    ghost goes_on = { λ side old new half keeps is. tt };

    const TAKES: bool = false;
}
