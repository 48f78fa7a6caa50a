ghost use Rattle.std.specs.Prelude.{◌≡◌, ◌++◌, OnOk};
ghost use Rattle.std.specs.Fmt.{signed_decimal};
ghost use Rattle.hj_value.specs.Row.{time_of};
ghost use Rattle.hj_relay.specs.Relay.{later_row};

use hj_base::Memory;
use hj_emit::push_line;
use hj_msg::Pair;
use hj_stream::PairLine;
use hj_value::SharedRow;
use itoa::Buffer;

/// Writes a pair for a further join: the time of its later row, a comma, and the line of both rows in the output of a join.
#[derive(Clone, Copy, Debug)]
pub struct RelayLine;

impl PairLine for RelayLine {
    ghost use Rattle.hj_relay.specs.Relay.{relay_line};

    ghost line = { λ _ pair. relay_line pair };

    fn fill(&self, buffer: &mut Vec<u8>, pair: &Pair<SharedRow>) -> Result<usize, Memory> {
        buffer.clear();
        push_number(buffer, later_time(pair))?;
        buffer.push(b',')?;
        push_line(buffer, pair.left.row(), pair.right.row())?;
        Ok(0)
    }
}

/// Returns the time of a pair's row that arrived under the greater number.
fn later_time(pair: &Pair<SharedRow>) -> i64
    ensures { result ≡ time_of (later_row pair.now) }
{
    if pair.left_no < pair.right_no {
        pair.right.row().time()
    } else {
        pair.left.row().time()
    }
}

/// Appends a number in decimal.
fn push_number(text: &mut Vec<u8>, number: i64) -> Result<(), Memory>
    ensures { OnOk result (text.new.items ≡ text.old.items ++ signed_decimal number) }
{
    let mut digits = Buffer::new();
    text.extend_from_slice(digits.format(number).as_bytes())?;
    Ok(())
}
