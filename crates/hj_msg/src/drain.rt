ghost use Rattle.std.specs.Prelude.{ℕ};
ghost use Rattle.hj_msg.specs.declared.event.Pair.{Pair};

use crate::Pair;

/// The answer of a drain.
#[derive(Clone, Copy, Debug, PartialEq, Eq)]
pub enum Drained {
    Kept,
    Refused,
}

/// Where the joined pairs go, in the order of the result.
pub trait Drain<P> {
    ghost use Rattle.hj_msg.specs.declared.drain.Drained.{Drained};
    ghost use Rattle.hj_msg.specs.Drain.{CountsRefused};

    /// A drain may take a pair with an answer, and be left as another one.
    ghost takes: { Self → Pair P → Drained → Self → Type 0 };

    /// How often a pair was refused.
    ghost refusals: { Self → ℕ };

    /// Takes the next pair, or refuses it.
    fn pair(&mut self, pair: Pair<P>) -> Drained
        ensures takes { takes self.old pair result self.new }
        ensures refusals { CountsRefused result (refusals self.old) (refusals self.new) };
}
