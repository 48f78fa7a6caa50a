ghost use Rattle.std.specs.Prelude.{◌≡◌, ◌-◌, ◌<◌, ◌^◌, None, Some, false, true, is_some, length};
ghost use Rattle.hj_base.specs.Outside.{NamesStay};
ghost use Rattle.hj_base.specs.declared.outside.Role.TheVariants as role;
ghost use Rattle.hj_msg.specs.Feed.{numbering_of};
ghost use Rattle.hj_event.specs.Roles.{IsInStep};
ghost use Rattle.hj_event.specs.Merger.{IsNewMerger};
ghost use Rattle.hj_query.specs.QueryParts.{QueryParts};
ghost use Rattle.hj_stream.specs.Ahead.{IsGoingOn};
ghost use Rattle.hj_stream.specs.Feeding.{outcome_by};
ghost use Rattle.hj_stream.specs.InStep.{IsInStep-prop};

use crate::Outcome;
use crate::history::History;
use hj_base::Outside;
use hj_event::{Merger, Next};
use hj_msg::{Event, Feed, Given};
use hj_value::SharedRow;

mod ended;

/// Gives the events of two streams, as a merger has them, and keeps how they ended.
#[derive(Drop)]
pub struct EventFeed<'a, O: Outside> {
    merger: &'a mut Merger,
    /// Where the streams are read.
    pub outside: &'a mut O,
    /// How many events are given at most.
    limit: u64,
    /// How many events were given.
    events: u64,
    /// Whether the next answer can be given without a read.
    ready: bool,
    /// The outcome of a join of them, once no event is to come, where every line is written.
    ended: Option<Outcome>,
    given: History<Event<SharedRow>>,
    ghost left: { IsInStep merger.now.sides.left.reading.ended (O.state outside.now role.Left) } by { IsInStep-prop merger.now.sides.left.reading.ended (O.state outside.now role.Left) },
    ghost right: { IsInStep merger.now.sides.right.reading.ended (O.state outside.now role.Right) } by { IsInStep-prop merger.now.sides.right.reading.ended (O.state outside.now role.Right) },
    ghost low_limit: { limit < 2 ^ 64 },
    ghost counted: { length given.items ≡ events },
    ghost going: { ended ≡ None → IsGoingOn limit merger.now given.items },
}

impl<'a, O: Outside> EventFeed<'a, O> {
    ghost use Rattle.hj_stream.specs.Ends.{IsUnasked};

    /// Makes a feed that gave no event yet: it gives the events that a new merger finds in the open roles Left and Right of
    /// `outside`, at most `limit` of them.
    pub fn new(merger: &'a mut Merger, limit: u64, outside: &'a mut O) -> Self
        requires new { (query : QueryParts) × IsNewMerger query limit merger.old }
        requires left { IsInStep false (O.state outside.old role.Left) }
        requires right { IsInStep false (O.state outside.old role.Right) }
        ensures same_reference { result.outside.ghost_name ≡ outside.entry.ghost_name }
        ensures outside { result.outside.now ≡ outside.old }
        ensures unasked { (query : QueryParts) → IsNewMerger query limit merger.old → IsUnasked query limit result }
    {
        EventFeed {
            merger,
            outside,
            limit,
            events: 0,
            ready: false,
            ended: None,
            given: History::new(),
        }
    }

    /// Returns the outcome of a join of all events, where every line was written.
    pub(crate) fn outcome(&self) -> Outcome
        requires { is_some self.now.ended ≡ true }
        ensures { self.now.ended ≡ Some result }
    {
        let Some(outcome) = self.ended else {
            unreachable!()
        };
        outcome
    }
}

impl<O: Outside> Feed<SharedRow> for EventFeed<'_, O> {
    ghost use Rattle.hj_msg.specs.Feed.{Answers};
    ghost use Rattle.hj_stream.specs.Feeding.{Gives};

    ghost gives = { λ old answer new. (new.outside.ghost_name ≡ old.outside.ghost_name)
        × NamesStay (O.under old.outside.now) (O.under new.outside.now)
        × Gives answer
        (record { merger = old.merger.now; roles = O.state old.outside.now; events = old.events; ended = old.ended })
        (record { merger = new.merger.now; roles = O.state new.outside.now; events = new.events; ended = new.ended })
        × Answers answer
        (record { numbering = numbering_of old.given.items; remaining = old.limit - old.events; stopped = is_some old.ended })
        (record { numbering = numbering_of new.given.items; remaining = new.limit - new.events; stopped = is_some new.ended }) };

    ghost state = { λ f. record {
      numbering = numbering_of f.given.items;
      remaining = f.limit - f.events;
      stopped = is_some f.ended;
    } };

    ghost ready = { λ f. f.ready };

    ghost told = { λ old answer new given. given.3 };

    #[inline(always)]
    fn next(&mut self) -> Given<SharedRow> {
        if self.ended.is_some() {
            return Given::Stop;
        }
        match self.merger.next(self.outside) {
            Next::Event(event) => {
                self.ready = self.merger.is_ready();
                self.events += 1;
                self.given = self.given.with_item(&event);
                Given::Event(event)
            }
            last => {
                self.ready = true;
                self.ended = Some(outcome_by(last, self.events));
                Given::Stop
            }
        }
    }

    #[inline(always)]
    fn is_ready(&self) -> bool {
        self.ready
    }
}

/// Returns the outcome of a join of this many events, where the merger says this after them and every line is written.
// Called, so that a feed that goes on needs no room for how it might end.
#[cold]
#[inline(never)]
fn outcome_by(last: Next, events: u64) -> Outcome
    requires { is_some (outcome_by events last) ≡ true }
    ensures { outcome_by events last ≡ Some result }
{
    match last {
        Next::Event(_) => unreachable!(),
        Next::Done => Outcome::Done { events },
        Next::Bad { side, at, fault } => Outcome::Bad { side, at, fault },
        Next::Failed(side) => Outcome::SourceFault(side.role()),
        Next::TooMany => Outcome::TooMany,
        Next::Memory => Outcome::Memory,
    }
}
