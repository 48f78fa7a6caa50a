//! Rows that records of a schema read as.

ghost use Rattle.std.specs.Prelude.{◌≡◌, ◌++◌, ◌∷◌, []};

use crate::texts::{shows, spelled};
use hj_event::{RowFault, read_row};
use hj_record::Fields;
use hj_value::{Column, ColumnType, Columns, Field, Row, Schema, TextBytes};
use std::alloc::Global;
use std::process::Abort;

/// Makes the schema `ts int, sym text, px int`.
fn schema(rt: &impl Abort, alloc: Global) -> Schema {
    let mut columns = Columns::new(alloc);
    push(rt, &mut columns, column(rt, alloc, "ts", ColumnType::Int));
    push(rt, &mut columns, column(rt, alloc, "sym", ColumnType::Text));
    push(rt, &mut columns, column(rt, alloc, "px", ColumnType::Int));
    Schema { columns }
}

fn push(rt: &impl Abort, columns: &mut Columns, column: Column)
    ensures { columns.new ≡ columns.old ++ column ∷ [] }
{
    columns.push(column).expect(rt, "memory");
}

fn column(rt: &impl Abort, alloc: Global, name: &str, kind: ColumnType) -> Column
    ensures { result ≡ record { name = name.now; kind = kind } }
{
    let name = TextBytes::from_bytes(alloc, name.as_bytes()).expect(rt, "memory");
    let name = name.expect(rt, "a text");
    Column { name, kind }
}

/// Reads the record of a text. Bars stand between its fields.
fn read(rt: &impl Abort, alloc: Global, schema: &Schema, text: &str) -> Result<Row, RowFault> {
    let mut fields = Fields::new(alloc);
    for field in text.split('|') {
        push_field(rt, &mut fields, &spelled(rt, alloc, field));
    }
    read_row(alloc, schema, &fields)
}

fn push_field(rt: &impl Abort, fields: &mut Fields, field: &[u8]) {
    fields.push(field).expect(rt, "memory");
}

fn is_row(row: &Row, ts: i64, sym: &[u8], px: i64) -> bool {
    row.len() == 3
        && row.time() == ts
        && matches!(row.get(1), Some(Field::Text(text)) if text.bytes() == sym)
        && matches!(row.get(2), Some(Field::Int(value)) if value == px)
}

fn reads(rt: &impl Abort, alloc: Global, schema: &Schema, text: &str, ts: i64, sym: &[u8]) {
    let row = read(rt, alloc, schema, text).expect(rt, "a row");
    assert!(rt; is_row(&row, ts, sym, 7));
}

#[test]
fn reads_rows(rt: HostRuntime) {
    let schema = schema(&rt, rt.alloc());
    reads(&rt, rt.alloc(), &schema, "1000|AB|+7", 1000, b"AB");
    reads(&rt, rt.alloc(), &schema, "-1||0007", -1, b"");
}

/// Records, and their first faults.
const REFUSED: &str = "\
1|A => FieldCount(2)
x|«ff»||4 => FieldCount(4)
|«ff»|x => NotNumber(1)
9223372036854775808|A|1 => NumberRange(1)
1|«c3»|x => NotText(2)
1|A|1  => NotNumber(3)
1|A|-9223372036854775809 => NumberRange(3)";

fn refuses(rt: &impl Abort, alloc: Global, schema: &Schema, line: &str) {
    let (text, want) = line.split_once(" => ").expect(rt, "a case");
    let fault = read(rt, alloc, schema, text).err().expect(rt, "a fault");
    shows(rt, alloc, line, &fault, want.as_bytes());
}

#[test]
fn refuses_the_first_fault(rt: HostRuntime) {
    let schema = schema(&rt, rt.alloc());
    for line in REFUSED.lines() {
        refuses(&rt, rt.alloc(), &schema, line);
    }
}
