ghost use Rattle.std.specs.Prelude.{◌≡◌, ◌≢◌, true, is_some};
ghost use Rattle.hj_collect.specs.Marks.{meaning};
ghost use Rattle.hj_msg.specs.declared.fin.Fin.TheVariants as fin;
ghost use Rattle.hj_msg.specs.Drain.{CountsRefused};
ghost use Rattle.hj_base.specs.declared.output.Sent.TheVariants as sent;
ghost use Rattle.hj_base.specs.Output.{CountsFaults, SendsPiece};
ghost use Rattle.hj_raw.specs.Text.{mark_text, pair_text};
ghost use Rattle.hj_stream.specs.Draining.{answer_by};
ghost use Rattle.hj_stream.specs.Ending.{EndsAs};
ghost use Rattle.hj_stream.specs.Ends.{outcome_in};
ghost use Rattle.hj_stream.specs.RawEnds.{last_sent};

use crate::outcome::outcome_of_refusal;
use crate::{EventFeed, Outcome};
use hj_base::{Memory, Outside, Sent, Sink, put_all};
use hj_collect::Mark;
use hj_msg::{Drained, Fin, Pair};
use hj_raw::{RawDrain, fill_mark_line, fill_pair_line};
use hj_value::SharedRow;

/// Writes the line of each pair and of each mark that it takes to a sink.
#[derive(Drop)]
pub struct RawLineDrain<'a, K: Sink> {
    /// Where the lines go.
    pub out: &'a mut K,
    /// A buffer for the line of a pair or of a mark.
    buffer: &'a mut Vec<u8>,
    /// How the sending of the last line went.
    last: Sent,
    /// How many pairs and marks were refused.
    refused: u64,
}

impl<'a, K: Sink> RawLineDrain<'a, K> {
    /// Makes a drain that took nothing yet: it writes to `out`, and makes each line in `buffer`, in place of what that held.
    pub fn new(out: &'a mut K, buffer: &'a mut Vec<u8>) -> Self
        ensures same_reference { result.out.ghost_name ≡ out.entry.ghost_name }
        ensures out { result.out.now ≡ out.old }
        ensures last { last_sent result ≡ sent.Whole }
    {
        RawLineDrain {
            out,
            buffer,
            last: Sent::Whole,
            refused: 0,
        }
    }

    /// Sends the line of a pair in one write, and the rest again where the sink took less.
    fn send_pair(&mut self, pair: &Pair<SharedRow>) -> Sent
        ensures same_reference { self.new.out.ghost_name ≡ self.old.out.ghost_name }
        ensures sends { SendsPiece result (pair_text pair.now) (K.told self.old.out.now) (K.told self.new.out.now) }
        ensures faults { CountsFaults result (K.faults self.old.out.now) (K.faults self.new.out.now) }
        ensures refused { self.new.refused ≡ self.old.refused }
    {
        match fill_pair_line(self.buffer, pair) {
            Ok(()) => put_all(self.out, self.buffer),
            Err(Memory) => Sent::Memory,
        }
    }

    /// Sends the line of a mark in one write, and the rest again where the sink took less.
    fn send_mark(&mut self, mark: Mark) -> Sent
        ensures same_reference { self.new.out.ghost_name ≡ self.old.out.ghost_name }
        ensures sends { SendsPiece result (mark_text (meaning mark)) (K.told self.old.out.now) (K.told self.new.out.now) }
        ensures faults { CountsFaults result (K.faults self.old.out.now) (K.faults self.new.out.now) }
        ensures refused { self.new.refused ≡ self.old.refused }
    {
        match fill_mark_line(self.buffer, mark) {
            Ok(()) => put_all(self.out, self.buffer),
            Err(Memory) => Sent::Memory,
        }
    }

    /// Takes note of how the sending of a line went, and returns the answer that this makes.
    fn answer(&mut self, last: Sent) -> Drained
        ensures out { self.new.out ≡ self.old.out }
        ensures last { self.new.last ≡ last }
        ensures answered { result ≡ answer_by last }
        ensures refused { CountsRefused result self.old.refused self.new.refused }
    {
        self.last = last;
        if last == Sent::Whole {
            return Drained::Kept;
        }
        self.refused = self.refused.saturating_add(1);
        Drained::Refused
    }
}

impl<K: Sink> RawDrain<SharedRow> for RawLineDrain<'_, K> {
    ghost use Rattle.hj_collect.specs.Marks.{meaning};
    ghost use Rattle.hj_msg.specs.Drain.{CountsRefused};
    ghost use Rattle.hj_raw.specs.Text.{item_text, mark_text, pair_text};
    ghost use Rattle.hj_stream.specs.Draining.{SendsLine};

    ghost takes = { λ old item answer new. (new.out.ghost_name ≡ old.out.ghost_name)
        × SendsLine (item_text item) answer new.last (K.told old.out.now) (K.told new.out.now)
        (K.faults old.out.now) (K.faults new.out.now) };

    ghost refusals = { λ d. d.refused };

    fn pair(&mut self, pair: Pair<SharedRow>) -> Drained
        ensures takes { (self.new.out.ghost_name ≡ self.old.out.ghost_name)
            × SendsLine (pair_text pair) result self.new.last (K.told self.old.out.now) (K.told self.new.out.now)
            (K.faults self.old.out.now) (K.faults self.new.out.now) }
        ensures refusals { CountsRefused result self.old.refused self.new.refused }
    {
        let sent = self.send_pair(&pair);
        self.answer(sent)
    }

    fn mark(&mut self, mark: Mark) -> Drained
        ensures takes { (self.new.out.ghost_name ≡ self.old.out.ghost_name)
            × SendsLine (mark_text (meaning mark)) result self.new.last (K.told self.old.out.now) (K.told self.new.out.now)
            (K.faults self.old.out.now) (K.faults self.new.out.now) }
        ensures refusals { CountsRefused result self.old.refused self.new.refused }
    {
        let sent = self.send_mark(mark);
        self.answer(sent)
    }
}

/// Returns the outcome of a join whose pairs and marks went to such a drain, as `outcome_of` does: with Done, what the feed's end
/// makes it, since every line was written; with Refused, what was wrong with the last line; with Memory, that memory ran out.
pub fn raw_outcome_of<O: Outside, K: Sink>(
    ended: Fin,
    feed: &EventFeed<'_, O>,
    drain: &RawLineDrain<'_, K>,
) -> Outcome
    requires done { ended ≡ fin.Done → is_some (outcome_in feed.now) ≡ true }
    requires refused { ended ≡ fin.Refused → last_sent drain.now ≢ sent.Whole }
    ensures { EndsAs ended (outcome_in feed.now) (last_sent drain.now) result }
{
    match ended {
        Fin::Done => feed.outcome(),
        Fin::Refused => outcome_of_refusal(drain.last),
        Fin::Memory => Outcome::Memory,
    }
}
