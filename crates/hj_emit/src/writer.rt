ghost use Rattle.std.specs.Prelude.{◌≡◌, ◌++◌, [], ◌∷◌, map, IfOk, OnOk};
ghost use Rattle.csv.specs.Records.{fields_of, partial_of};
ghost use Rattle.csv.specs.Writing.{default_writer, row_text};
ghost use Rattle.hj_emit.specs.Line.{field_bytes, line_of};

use crate::LineBytes;
use csv::{ByteRecord, WriterBuilder};
use hj_base::Memory;
use hj_value::{Field, Row};
use itoa::Buffer;
use std::alloc::Global;

/// Makes the line of two joined rows: the left row's fields, then the right row's, as csv's writer gives one record of
/// them. A field with a comma, a double quote, a carriage return or a line feed stands in double quotes, with each
/// double quote in it doubled; a line feed ends the line.
pub fn line(alloc: Global, left: &Row, right: &Row) -> Result<LineBytes, Memory>
    ensures { IfOk result (λ line. line ≡ line_of left.now right.now) }
{
    let mut fields = ByteRecord::new(alloc);
    push_row(&mut fields, left)?;
    push_row(&mut fields, right)?;
    Ok(LineBytes::from_vec(record_text(alloc, &fields)?))
}

/// Makes the text of a record.
fn record_text(alloc: Global, fields: &ByteRecord) -> Result<Vec<u8>, Memory>
    ensures { IfOk result (λ text. text.items ≡ row_text default_writer (fields_of fields.now)) }
{
    let mut writer = WriterBuilder::new().from_writer(Vec::new(alloc));
    if writer.write_byte_record(fields).is_err() {
        return Err(Memory);
    }
    match writer.into_inner() {
        Ok(text) => Ok(text),
        Err(_) => Err(Memory),
    }
}

/// Appends a row's fields to a record.
fn push_row(fields: &mut ByteRecord, row: &Row) -> Result<(), Memory>
    requires { partial_of fields.old ≡ [] }
    ensures added { OnOk result (fields_of fields.new ≡ fields_of fields.old ++ map field_bytes row.now) }
    ensures whole { OnOk result (partial_of fields.new ≡ []) }
{
    for at in 0..row.len() {
        let Some(field) = row.get(at) else {
            unreachable!();
        };
        push_field(fields, &field)?;
    }
    Ok(())
}

/// Appends a field to a record.
fn push_field(fields: &mut ByteRecord, field: &Field<'_>) -> Result<(), Memory>
    requires { partial_of fields.old ≡ [] }
    ensures added { OnOk result (fields_of fields.new ≡ fields_of fields.old ++ field_bytes field.now ∷ []) }
    ensures whole { OnOk result (partial_of fields.new ≡ []) }
{
    match field {
        Field::Int(number) => {
            let mut digits = Buffer::new();
            fields.push_field(digits.format(*number).as_bytes())?;
        }
        Field::Text(text) => fields.push_field(text.bytes())?,
    }
    Ok(())
}
