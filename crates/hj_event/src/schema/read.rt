ghost use Rattle.std.specs.Prelude.{◌≡◌, ◌<◌, ◌≤◌, length};
ghost use Rattle.hj_event.specs.SchemaRows.{value_of};
ghost use Rattle.hj_event.specs.RowAnswers.{ReadsRow};

use super::RowFault;
use hj_record::Fields;
use hj_value::{ColumnType, Field, IntFault, Row, Schema, Text, read_int};
use std::alloc::Global;

/// Reads the row of a record's fields: one field for each column of the schema, in the columns' order, a number in an
/// Int column and UTF-8 in a Text column. Faults are looked for column by column, once the counts agree.
pub fn read_row(alloc: Global, schema: &Schema, fields: &Fields) -> Result<Row, RowFault>
    ensures { ReadsRow result schema.now.columns fields.now }
{
    let columns = schema.columns.len();
    if fields.len() != columns {
        return Err(RowFault::FieldCount(fields.len()));
    }
    let mut row = Row::with_capacity(alloc, columns, text_bytes(schema, fields))?;
    for at in 0..columns {
        let (Some(column), Some(bytes)) = (schema.columns.get(at), fields.get(at)) else {
            unreachable!();
        };
        match read_field(at as u16 + 1, column.kind, bytes) {
            Ok(field) => row.push(field)?,
            Err(fault) => return Err(fault),
        }
    }
    Ok(row)
}

/// Returns how many bytes the fields of Text columns have together, so that a row's texts take one block of memory.
fn text_bytes(schema: &Schema, fields: &Fields) -> usize {
    let mut total = 0usize;
    for at in 0..fields.len() {
        if let (Some(column), Some(bytes)) = (schema.columns.get(at), fields.get(at))
            && column.kind == ColumnType::Text
        {
            total = total.saturating_add(bytes.len());
        }
    }
    total
}

/// Reads the bytes of a field as the value of a column, counted from 1, of this kind.
fn read_field(column: u16, kind: ColumnType, bytes: &[u8]) -> Result<Field<'_>, RowFault>
    ensures { result ≡ value_of column kind bytes.now }
{
    match kind {
        ColumnType::Int => match read_int(bytes) {
            Ok(value) => Ok(Field::Int(value)),
            Err(IntFault::NotNumber) => Err(RowFault::NotNumber(column)),
            Err(IntFault::NumberRange) => Err(RowFault::NumberRange(column)),
        },
        ColumnType::Text => match Text::from_bytes(bytes) {
            Some(text) => Ok(Field::Text(text)),
            None => Err(RowFault::NotText(column)),
        },
    }
}
