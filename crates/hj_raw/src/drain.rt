ghost use Rattle.std.specs.Prelude.{ℕ};
ghost use Rattle.hj_collect.specs.Marks.{meaning};
ghost use Rattle.hj_raw.specs.Items.{Item, joined, marked};

use hj_collect::Mark;
use hj_msg::{Drained, Pair};

/// Where the joined pairs go as they are met, and the marks between them.
pub trait RawDrain<P> {
    ghost use Rattle.hj_msg.specs.declared.drain.Drained.{Drained};
    ghost use Rattle.hj_msg.specs.Drain.{CountsRefused};

    /// A drain may take an item with an answer, and be left as another one.
    ghost takes: { Self → Item P → Drained → Self → Type 0 };

    /// How often an item was refused.
    ghost refusals: { Self → ℕ };

    /// Takes the next pair, or refuses it.
    fn pair(&mut self, pair: Pair<P>) -> Drained
        ensures takes { takes self.old (joined pair) result self.new }
        ensures refusals { CountsRefused result (refusals self.old) (refusals self.new) };

    /// Takes a mark, or refuses it: every pair whose later number is within it came before.
    fn mark(&mut self, mark: Mark) -> Drained
        ensures takes { takes self.old (marked (meaning mark)) result self.new }
        ensures refusals { CountsRefused result (refusals self.old) (refusals self.new) };
}
