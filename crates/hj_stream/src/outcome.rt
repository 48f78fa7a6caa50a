ghost use Rattle.std.specs.Prelude.{◌≡◌, ◌≢◌, true, is_some};
ghost use Rattle.hj_msg.specs.declared.fin.Fin.TheVariants as fin;
ghost use Rattle.hj_base.specs.declared.output.Sent.TheVariants as sent;
ghost use Rattle.hj_stream.specs.Draining.{refusal_of};
ghost use Rattle.hj_stream.specs.Ending.{EndsAs};
ghost use Rattle.hj_stream.specs.Ends.{last_in, outcome_in};

use crate::{EventFeed, LineDrain, PairLine};
use hj_base::{Outside, Role, Sent, Side, Sink};
use hj_event::RecordFault;
use hj_msg::Fin;

/// Says how a join ended.
#[derive(Clone, Copy, Debug, PartialEq, Eq)]
pub enum Outcome {
    /// Both streams ended, and every line was written.
    Done {
        events: u64,
    },
    /// The record of a side, by its number from 1, is refused; every line of the events before it was written.
    Bad {
        side: Side,
        at: u64,
        fault: RecordFault,
    },
    /// A read of this role failed; every line of the events before it was written.
    SourceFault(Role),
    /// The sink failed.
    SinkFault,
    /// There would be one event more than the limit; every line of the events before it was written.
    TooMany,
    /// Memory ran out.
    Memory,
}

/// Returns the outcome of a join, by how its run between a feed and a drain ended: with Done, what the feed's end makes it,
/// since every line was written; with Refused, what was wrong with the last line; with Memory, that memory ran out.
pub fn outcome_of<O: Outside, K: Sink, L: PairLine>(
    ended: Fin,
    feed: &EventFeed<'_, O>,
    drain: &LineDrain<'_, K, L>,
) -> Outcome
    requires done { ended ≡ fin.Done → is_some (outcome_in feed.now) ≡ true }
    requires refused { ended ≡ fin.Refused → last_in drain.now ≢ sent.Whole }
    ensures { EndsAs ended (outcome_in feed.now) (last_in drain.now) result }
{
    match ended {
        Fin::Done => feed.outcome(),
        Fin::Refused => drain.outcome(),
        Fin::Memory => Outcome::Memory,
    }
}

/// Returns the outcome of a join whose last line was sent so, and refused.
pub(crate) fn outcome_of_refusal(last: Sent) -> Outcome
    requires { last ≢ sent.Whole }
    ensures { result ≡ refusal_of last }
{
    match last {
        Sent::Whole => unreachable!(),
        Sent::Failed => Outcome::SinkFault,
        Sent::Memory => Outcome::Memory,
    }
}
