ghost use Rattle.std.specs.Prelude.{◌≡◌, ◌≢◌};
ghost use Rattle.hj_base.specs.declared.output.Sent.TheVariants as sent;
ghost use Rattle.hj_base.specs.Output.{CountsFaults, SendsPiece};
ghost use Rattle.hj_stream.specs.Draining.{refusal_of};

use crate::outcome::outcome_of_refusal;
use crate::{Outcome, PairLine};
use hj_base::{Memory, Sent, Sink, put_all};
use hj_msg::{Drain, Drained, Pair};
use hj_value::SharedRow;

/// Writes the line of each pair that it takes to a sink.
#[derive(Drop)]
pub struct LineDrain<'a, K: Sink, L: PairLine> {
    /// Where the lines go.
    pub out: &'a mut K,
    /// What the line of a pair is.
    pub lines: &'a L,
    /// A buffer for the line of a pair, which stands at its end.
    buffer: &'a mut Vec<u8>,
    /// How the sending of the last line went.
    last: Sent,
    /// How many pairs were refused.
    refused: u64,
}

impl<'a, K: Sink, L: PairLine> LineDrain<'a, K, L> {
    ghost use Rattle.hj_stream.specs.Ends.{last_in};

    /// Makes a drain that took no pair yet: it writes to `out`, for each pair the line that `lines` says, and makes each line in
    /// `buffer`, which keeps nothing of what it held.
    pub fn new(out: &'a mut K, lines: &'a L, buffer: &'a mut Vec<u8>) -> Self
        ensures same_reference { result.out.ghost_name ≡ out.entry.ghost_name }
        ensures out { result.out.now ≡ out.old }
        ensures lines { result.lines.now ≡ lines.now }
        ensures last { last_in result ≡ sent.Whole }
    {
        LineDrain {
            out,
            lines,
            buffer,
            last: Sent::Whole,
            refused: 0,
        }
    }

    /// Returns the outcome of a join whose last pair was refused.
    pub(crate) fn outcome(&self) -> Outcome
        requires { self.now.last ≢ sent.Whole }
        ensures { result ≡ refusal_of self.now.last }
    {
        outcome_of_refusal(self.last)
    }

    /// Sends the line of a pair in one write, and the rest again where the sink took less.
    fn send(&mut self, pair: &Pair<SharedRow>) -> Sent
        ensures same_reference { self.new.out.ghost_name ≡ self.old.out.ghost_name }
        ensures lines { self.new.lines ≡ self.old.lines }
        ensures sends { SendsPiece result (L.line self.old.lines.now pair.now) (K.told self.old.out.now) (K.told self.new.out.now) }
        ensures faults { CountsFaults result (K.faults self.old.out.now) (K.faults self.new.out.now) }
        ensures refused { self.new.refused ≡ self.old.refused }
    {
        match self.lines.fill(self.buffer, pair) {
            Ok(start) => put_all(self.out, &self.buffer[start..]),
            Err(Memory) => Sent::Memory,
        }
    }
}

impl<K: Sink, L: PairLine> Drain<SharedRow> for LineDrain<'_, K, L> {
    ghost use Rattle.hj_msg.specs.Drain.{CountsRefused};
    ghost use Rattle.hj_stream.specs.Draining.{SendsLine};

    ghost takes = { λ old pair answer new. (new.out.ghost_name ≡ old.out.ghost_name) × (new.lines ≡ old.lines)
        × SendsLine (L.line old.lines.now pair) answer new.last (K.told old.out.now) (K.told new.out.now)
        (K.faults old.out.now) (K.faults new.out.now) };

    ghost refusals = { λ d. d.refused };

    fn pair(&mut self, pair: Pair<SharedRow>) -> Drained
        ensures takes { (self.new.out.ghost_name ≡ self.old.out.ghost_name) × (self.new.lines ≡ self.old.lines)
            × SendsLine (L.line self.old.lines.now pair) result self.new.last (K.told self.old.out.now) (K.told self.new.out.now)
            (K.faults self.old.out.now) (K.faults self.new.out.now) }
        ensures refusals { CountsRefused result self.old.refused self.new.refused }
    {
        self.last = self.send(&pair);
        if self.last == Sent::Whole {
            return Drained::Kept;
        }
        self.refused = self.refused.saturating_add(1);
        Drained::Refused
    }
}
