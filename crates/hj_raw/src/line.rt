ghost use Rattle.std.specs.Prelude.{◌≡◌, ◌++◌, [], ◌∷◌, IfOk, OnOk, decimal};
ghost use Rattle.hj_collect.specs.Marks.{meaning};
ghost use Rattle.hj_raw.specs.Text.{mark_text, pair_text};

use hj_base::{EventNo, Memory};
use hj_collect::Mark;
use hj_emit::{LineBytes, push_line};
use hj_msg::Pair;
use hj_value::SharedRow;
use itoa::Buffer;
use std::alloc::Global;

/// Makes the line of a pair: the numbers of its left and of its right row, each with a comma behind it, and then the line of both
/// rows in the output of a join.
pub fn pair_line(alloc: Global, pair: &Pair<SharedRow>) -> Result<LineBytes, Memory>
    ensures { IfOk result (λ line. line ≡ pair_text pair.now) }
{
    let mut line = Vec::new(alloc);
    fill_pair_line(&mut line, pair)?;
    Ok(LineBytes::from_vec(line))
}

/// Makes the line of a mark: `#` and the number up to which all pairs have come, or `#all`.
pub fn mark_line(alloc: Global, mark: Mark) -> Result<LineBytes, Memory>
    ensures { IfOk result (λ line. line ≡ mark_text (meaning mark)) }
{
    let mut line = Vec::new(alloc);
    fill_mark_line(&mut line, mark)?;
    Ok(LineBytes::from_vec(line))
}

/// Fills `line` with the line of a pair, as the function `pair_line` makes it, in place of what it held. Takes memory only to
/// grow; after an error it holds a part of the line.
pub fn fill_pair_line(line: &mut Vec<u8>, pair: &Pair<SharedRow>) -> Result<(), Memory>
    ensures { OnOk result (line.new.items ≡ pair_text pair.now) }
{
    line.clear();
    push_number(line, pair.left_no)?;
    line.push(b',')?;
    push_number(line, pair.right_no)?;
    line.push(b',')?;
    push_line(line, pair.left.row(), pair.right.row())
}

/// Fills `line` with the line of a mark, as the function `mark_line` makes it, in place of what it held. Takes memory only to
/// grow; after an error it holds a part of the line.
pub fn fill_mark_line(line: &mut Vec<u8>, mark: Mark) -> Result<(), Memory>
    ensures { OnOk result (line.new.items ≡ mark_text (meaning mark)) }
{
    line.clear();
    line.push(b'#')?;
    match mark {
        Mark::UpTo(last) => push_number(line, last)?,
        Mark::All => line.extend_from_slice(b"all")?,
    }
    line.push(b'\n')?;
    Ok(())
}

/// Appends a number in decimal.
fn push_number(line: &mut Vec<u8>, number: EventNo) -> Result<(), Memory>
    ensures { OnOk result (line.new.items ≡ line.old.items ++ decimal number.0) }
{
    let mut digits = Buffer::new();
    line.extend_from_slice(digits.format(number.0).as_bytes())?;
    Ok(())
}
