ghost use Rattle.std.specs.Prelude.{◌≡◌, ◌≤◌, List, ℕ, drop, vec_len, IfOk};
ghost use Rattle.hj_value.specs.declared.field.Field.{Field};
ghost use Rattle.hj_msg.specs.declared.event.Pair.{Pair};

use hj_base::Memory;
use hj_emit::fill_line;
use hj_msg::Pair;
use hj_value::SharedRow;

/// Says what is written for a pair of rows that were joined.
pub trait PairLine {
    /// The bytes of a pair's line.
    ghost line: { Self → Pair (List Field) → List ℕ };

    /// Makes `buffer` end with the line of a pair, and returns where the line starts. Nothing of what `buffer` held is
    /// kept. Takes memory only to grow the buffer; after an error that holds any bytes.
    fn fill(&self, buffer: &mut Vec<u8>, pair: &Pair<SharedRow>) -> Result<usize, Memory>
        ensures within { IfOk result (λ start. start ≤ vec_len buffer.new) }
        ensures line { IfOk result (λ start. drop start buffer.new.items ≡ line self.now pair.now) };
}

/// Writes both rows of a pair as one record: the line of a pair in the output of a join.
#[derive(Clone, Copy, Debug)]
pub struct JoinedLine;

impl PairLine for JoinedLine {
    ghost use Rattle.hj_stream.specs.JoinText.{pair_line};

    ghost line = { λ _ pair. pair_line pair };

    #[inline(always)]
    fn fill(&self, buffer: &mut Vec<u8>, pair: &Pair<SharedRow>) -> Result<usize, Memory> {
        fill_line(buffer, pair.left.row(), pair.right.row())
    }
}
