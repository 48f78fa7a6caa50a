ghost use Rattle.std.specs.Prelude.{◌≡◌, ◌+◌, ◌<◌, ◌^◌, ◌↔◌, ◌++◌, List, [], ℕ, IfOk, IsTrue, OnOk, decimal, length};
ghost use Rattle.hj_gen.specs.Summary.{counts_of, line_of, summary_of};

use crate::number::push_number;
use hj_base::{Bytes, Memory};
use std::alloc::Global;
use std::marker::Model;

/// What is told of a text that comes in pieces: how many line feeds it has, one for each pair, how many bytes, and a mix of
/// these. Seen as these three numbers.
#[derive(Debug, Drop)]
pub struct Tally {
    pairs: u64,
    bytes: u64,
    mix: u64,
}

impl Model for Tally {
    ghost use Rattle.std.specs.Prelude.{◌≤◌};
    ghost use Rattle.hj_gen.specs.Summary.{TextCounts};

    ghost Value = { TextCounts };

    ghost view = { λ tally. record { pairs = tally.pairs; bytes = tally.bytes; mix = tally.mix } };

    ghost invariant = { λ tally. tally.pairs ≤ tally.bytes };
}

impl Tally {
    /// Makes the tally of no bytes.
    pub fn new() -> Self
        ensures { result ≡ counts_of [] }
    {
        Tally {
            pairs: 0,
            bytes: 0,
            mix: 0,
        }
    }

    /// Returns whether `more` bytes can be counted too: the count of all bytes fits 64 bits.
    pub fn has_room(&self, more: usize) -> bool
        ensures { IsTrue result ↔ (self.now.bytes + more < 2 ^ 64) }
    {
        self.bytes.checked_add(more as u64).is_some()
    }

    /// Counts the next bytes of the text, for which there is room.
    pub fn take(&mut self, piece: &[u8])
        requires { self.old.bytes + length piece.now < 2 ^ 64 }
        ensures { (taken : List ℕ) → self.old ≡ counts_of taken → self.new ≡ counts_of (taken ++ piece.now) }
    {
        self.pairs += piece.iter().filter(|byte| **byte == b'\n').count() as u64;
        self.bytes += piece.len() as u64;
        self.mix = piece.iter().fold(self.mix, |mix, byte| {
            mix.wrapping_mul(31).wrapping_add(u64::from(*byte))
        });
    }

    /// Makes the line of a join of `events` events whose text was taken: `events E pairs P bytes B mix M`, a line feed.
    pub fn line(&self, alloc: Global, events: u64) -> Result<Bytes, Memory>
        ensures { IfOk result (λ line. line ≡ line_of events self.now) }
    {
        let mut line = Vec::new(alloc);
        push_count(&mut line, b"events ", events)?;
        push_count(&mut line, b" pairs ", self.pairs)?;
        push_count(&mut line, b" bytes ", self.bytes)?;
        push_count(&mut line, b" mix ", self.mix)?;
        line.push(b'\n')?;
        Ok(Bytes::from_vec(line))
    }
}

/// Makes the line of a join of `events` events that gave this text, as `Tally::line` does.
pub fn summary(alloc: Global, events: u64, text: &[u8]) -> Result<Bytes, Memory>
    ensures { IfOk result (λ line. line ≡ summary_of events text.now) }
{
    let mut tally = Tally::new();
    tally.take(text);
    tally.line(alloc, events)
}

/// Appends a name and its count.
fn push_count(line: &mut Vec<u8>, name: &[u8], count: u64) -> Result<(), Memory>
    ensures { OnOk result (line.new.items ≡ line.old.items ++ name.now ++ decimal count) }
{
    line.extend_from_slice(name)?;
    push_number(line, count)
}
