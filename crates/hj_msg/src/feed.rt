ghost use Rattle.std.specs.Prelude.{◌≡◌, Bool};
ghost use Rattle.hj_msg.specs.Feed.{FeedState, Answers};

use crate::Event;

/// The answer of a feed.
#[derive(Debug, Drop)]
pub enum Given<P> {
    /// The next event.
    Event(Event<P>),
    /// No more events come.
    Stop,
}

/// Where the events of a chain come from, in the order of their numbers.
pub trait Feed<P> {
    ghost use Rattle.hj_msg.specs.declared.feed.Given.{Given};

    /// A feed may give an answer, and be left as another one.
    ghost gives: { Self → Given P → Self → Type 0 };

    /// The state of the feed.
    ghost state: { Self → FeedState };

    /// Whether the next answer is there without waiting for input.
    ghost ready: { Self → Bool };

    /// Returns the next event, or Stop if there is none, and again at every later call.
    fn next(&mut self) -> Given<P>
        ensures gives { gives self.old result self.new }
        ensures answers { Answers result (state self.old) (state self.new) };

    /// Returns whether the next answer is there, so that `next` needn't wait for input.
    fn is_ready(&self) -> bool
        ensures { result ≡ ready self.now };

    /// An answer is what the states before it and after it tell.
    ghost told: { (old : Self) (answer : Given P) (new : Self) → gives old answer new → Answers answer (state old) (state new) };
}
