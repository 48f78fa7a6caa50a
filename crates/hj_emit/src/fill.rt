ghost use Rattle.std.specs.Prelude.{◌≡◌, ◌≤◌, ◌++◌, [], ◌∷◌, ℕ, List, length, vec_len, map, take, drop, IfOk, OnOk};
ghost use Rattle.csv.specs.Writing.{default_writer, row_text};
ghost use Rattle.hj_emit.specs.Cells.{cell, cells};
ghost use Rattle.hj_value.specs.declared.field.Field.{Field};
ghost use Rattle.hj_emit.specs.Line.{field_bytes, line_of};

use crate::numbers::{fill_numbers, push_number, push_numbers};
use crate::text::push_text;
use hj_base::Memory;
use hj_value::{Field, Row};

/// Makes `text` end with the line of two joined rows, as the function `line` makes it, and returns where the line starts.
/// Nothing of what `text` held is kept. Takes memory only to grow; after an error `text` holds any bytes.
#[inline(always)]
pub fn fill_line(text: &mut Vec<u8>, left: &Row, right: &Row) -> Result<usize, Memory>
    ensures within { IfOk result (λ start. start ≤ vec_len text.new) }
    ensures line { IfOk result (λ start. drop start text.new.items ≡ line_of left.now right.now) }
{
    let start = fill_fields(text, left, right)?;
    end_line(text, start)?;
    Ok(start)
}

/// Makes `text` end with the fields of two rows, with a comma after each, and returns where they start.
#[inline(always)]
fn fill_fields(text: &mut Vec<u8>, left: &Row, right: &Row) -> Result<usize, Memory>
    ensures within { IfOk result (λ start. start ≤ vec_len text.new) }
    ensures fields { IfOk result (λ start. drop start text.new.items ≡ cells (left.now ++ right.now)) }
{
    if let (Some(left), Some(right)) = (left.numbers(), right.numbers()) {
        return fill_numbers(text, left, right);
    }
    text.clear();
    push_row(text, left)?;
    push_row(text, right)?;
    Ok(0)
}

/// Appends the line of two joined rows, as the function `line` makes it. Takes memory only to grow; after an error a part of
/// the line may stand behind what was there.
#[inline(always)]
pub fn push_line(text: &mut Vec<u8>, left: &Row, right: &Row) -> Result<(), Memory>
    ensures { OnOk result (text.new.items ≡ text.old.items ++ line_of left.now right.now) }
{
    let start = text.len();
    push_fields(text, left, right)?;
    end_line(text, start)
}

/// Appends the fields of two rows, with a comma after each.
#[inline(always)]
fn push_fields(text: &mut Vec<u8>, left: &Row, right: &Row) -> Result<(), Memory>
    ensures { OnOk result (text.new.items ≡ text.old.items ++ cells (left.now ++ right.now)) }
{
    if let (Some(left), Some(right)) = (left.numbers(), right.numbers()) {
        return push_numbers(text, left, right);
    }
    push_row(text, left)?;
    push_row(text, right)
}

/// Appends a row's fields, with a comma after each.
fn push_row(text: &mut Vec<u8>, row: &Row) -> Result<(), Memory>
    ensures { OnOk result (text.new.items ≡ text.old.items ++ cells row.now) }
{
    for at in 0..row.len() {
        let Some(field) = row.get(at) else {
            unreachable!();
        };
        push_field(text, &field)?;
    }
    Ok(())
}

/// Appends a field and a comma.
#[inline(always)]
fn push_field(text: &mut Vec<u8>, field: &Field<'_>) -> Result<(), Memory>
    ensures { OnOk result (text.new.items ≡ text.old.items ++ cell (field_bytes field.now)) }
{
    match field {
        Field::Int(number) => push_number(text, *number),
        Field::Text(bytes) => push_text(text, bytes.bytes()),
    }
}

/// Ends a line of fields that begins at `start`, with a comma after each: a line feed comes in place of the last comma. If
/// no byte is in front of that, two quotes stand for the one empty field.
#[inline(always)]
fn end_line(text: &mut Vec<u8>, start: usize) -> Result<(), Memory>
    ensures { (front : List ℕ) (fields : List Field) → length front ≡ start → text.old.items ≡ front ++ cells fields
        → OnOk result (text.new.items ≡ front ++ row_text default_writer (map field_bytes fields)) }
{
    let last = text.len().saturating_sub(1);
    if last <= start {
        end_blank(text, start)?;
        return Ok(());
    }
    text[last] = b'\n';
    Ok(())
}

/// Ends a line that begins at `start` and has no byte but a comma, or none.
#[cold]
fn end_blank(text: &mut Vec<u8>, start: usize) -> Result<(), Memory>
    ensures { OnOk result (text.new.items ≡ take start text.old.items ++ 34 ∷ 34 ∷ 10 ∷ []) }
{
    text.truncate(start);
    text.extend_from_slice(b"\"\"\n")?;
    Ok(())
}
