ghost use Rattle.std.specs.Prelude.{◌≡◌};
ghost use Rattle.hj_stream.specs.Ends.{outcome_in};

use super::EventFeed;
use crate::Outcome;
use hj_base::Outside;

impl<O: Outside> EventFeed<'_, O> {
    /// Returns the outcome of a join of all events, where every line is written, once no event is to come.
    pub fn ended(&self) -> Option<Outcome>
        ensures { result ≡ outcome_in self.now }
    {
        self.ended
    }
}
