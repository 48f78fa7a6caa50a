ghost use Rattle.std.specs.Prelude.{◌≡◌};
ghost use Rattle.hj_opening.specs.Run.{end_of};

use hj_notes::Note;
use hj_stream::Outcome;

/// Gives the ending of a run whose join ended with this outcome. `limit` is how many events the join numbers at most.
pub fn end_of(limit: u64, outcome: Outcome) -> Result<(), Note>
    ensures { result ≡ end_of limit outcome }
{
    match outcome {
        Outcome::Done { .. } => Ok(()),
        Outcome::Bad { side, at, fault } => Err(Note::BadRecord { side, at, fault }),
        Outcome::SourceFault(role) => Err(Note::Source(role)),
        Outcome::SinkFault => Err(Note::Sink),
        Outcome::TooMany => Err(Note::TooManyEvents(limit)),
        Outcome::Memory => Err(Note::Memory),
    }
}
