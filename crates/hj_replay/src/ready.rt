use hj_base::Outside;
use hj_msg::{Feed, Given};
use hj_stream::EventFeed;
use hj_value::SharedRow;

/// Gives the events of two streams, of which the next one always counts as there, so that no step of a chain only asks for it.
#[derive(Drop)]
pub struct AlwaysReady<'a, O: Outside> {
    /// What gives the events.
    pub feed: EventFeed<'a, O>,
}

impl<O: Outside> Feed<SharedRow> for AlwaysReady<'_, O> {
    ghost use Rattle.std.specs.Prelude.{true};
    ghost use Rattle.hj_replay.specs.Feeds as feeds;

    ghost gives = { feeds.gives };

    ghost state = { feeds.state_of };

    ghost ready = { λ _. true };

    ghost told = { λ old answer new given. given.3 };

    fn next(&mut self) -> Given<SharedRow> {
        self.feed.next()
    }

    fn is_ready(&self) -> bool {
        true
    }
}
