//! Rows of fields, numbers as text, and schemas.

ghost use Rattle.std.specs.Prelude.{◌≡◌, codes};

use crate::texts::{case, number, same, shows};
use hj_base::{Memory, Share};
use hj_value::{
    Column, ColumnType, Columns, Field, Row, Schema, SharedRow, Text, TextBytes, compare,
    print_int, read_int,
};
use std::alloc::Global;
use std::cmp::Ordering;
use std::process::Abort;

/// Takes what may go to other threads and be read by them.
fn crosses<T: Send + Sync + Drop>(_value: T) {}

pub(crate) fn text_field<'a>(rt: &impl Abort, text: &'a [u8]) -> Field<'a> {
    Field::Text(Text::from_bytes(text).expect(rt, "a text"))
}

/// Reads a field: a text in quotes, or a number.
pub(crate) fn field<'a>(rt: &impl Abort, word: &'a str) -> Field<'a> {
    match word.strip_prefix('\'') {
        Some(quoted) => {
            let text = quoted.strip_suffix('\'').expect(rt, "a quote");
            text_field(rt, text.as_bytes())
        }
        None => Field::Int(number(rt, word)),
    }
}

/// The fields of a row.
const FIELDS: &str = "\
5
'a\u{fc}'
''
-3";

/// Makes the row of these fields.
fn row_of(rt: &impl Abort, alloc: Global, fields: &str) -> Row {
    let mut row = Row::with_capacity(alloc, 4, 3).expect(rt, "memory");
    for word in fields.lines() {
        row.push(field(rt, word)).expect(rt, "memory");
    }
    row
}

/// Returns whether a row has this field here.
fn has(rt: &impl Abort, row: &Row, at: usize, word: &str) -> bool {
    match row.get(at) {
        Some(found) => compare(&found, &field(rt, word)) == Ordering::Equal,
        None => false,
    }
}

/// Asserts that a row has these fields.
fn has_all(rt: &impl Abort, row: &Row, fields: &str) {
    for (at, word) in fields.lines().enumerate() {
        assert!(rt; has(rt, row, at, word));
    }
}

/// Asserts that a row has those fields, and no other.
fn keeps(rt: &impl Abort, row: &Row) {
    assert!(rt; row.len() == 4);
    assert!(rt; row.time() == 5);
    has_all(rt, row, FIELDS);
    assert!(rt; row.get(4).is_none());
}

#[test]
fn keeps_fields(rt: HostRuntime) {
    keeps(&rt, &row_of(&rt, rt.alloc(), FIELDS));
}

#[test]
fn has_no_time_without_a_number(rt: HostRuntime) {
    let mut row = Row::new(rt.alloc());
    assert!(rt; row.time() == 0);
    row.push(text_field(&rt, b"7")).expect(&rt, "memory");
    assert!(rt; row.time() == 0);
}

/// Shares a row, and lets the first share go to another thread.
fn second_share(rt: &impl Abort, alloc: Global, row: Row) -> SharedRow {
    let first = SharedRow::new(alloc, row).expect(rt, "memory");
    let second = first.share().expect(rt, "memory");
    crosses(first);
    second
}

#[test]
fn shares_a_row(rt: HostRuntime) {
    let row = row_of(&rt, rt.alloc(), FIELDS);
    let shared = second_share(&rt, rt.alloc(), row);
    keeps(&rt, shared.row());
    crosses(row_of(&rt, rt.alloc(), FIELDS));
}

/// Fields, the lower ones first.
const ASCENDING: &str = "\
-9223372036854775808
-1
10
''
'9'
'9a'
'a'
'\u{fc}'";

/// Asserts the order of two fields.
fn is_ordered(rt: &impl Abort, field: &Field<'_>, other: &Field<'_>, want: Ordering) {
    assert!(rt; compare(field, other) == want);
}

/// Compares the field at a place of that table with each, and asserts their order.
fn compares(rt: &impl Abort, at: usize, word: &str) {
    let first = field(rt, word);
    for (other, word) in ASCENDING.lines().enumerate() {
        is_ordered(rt, &first, &field(rt, word), at.cmp(&other));
    }
}

#[test]
fn compares_fields(rt: HostRuntime) {
    for (at, word) in ASCENDING.lines().enumerate() {
        compares(&rt, at, word);
    }
}

/// Texts, and the numbers that they are.
const TEXTS: &str = "\
0 => Ok(0)
-0 => Ok(0)
+7 => Ok(7)
007 => Ok(7)
9223372036854775807 => Ok(9223372036854775807)
9223372036854775808 => Err(NumberRange)
-9223372036854775808 => Ok(-9223372036854775808)
-9223372036854775809 => Err(NumberRange)
99999999999999999999 => Err(NumberRange)
ε => Err(NotNumber)
+ => Err(NotNumber)
- => Err(NotNumber)
+-1 => Err(NotNumber)
 1 => Err(NotNumber)
1  => Err(NotNumber)
1a => Err(NotNumber)
99999999999999999999a => Err(NotNumber)
«ff» => Err(NotNumber)
1«c3» => Err(NotNumber)
«d9»«a1» => Err(NotNumber)";

fn reads(rt: &impl Abort, alloc: Global, line: &str) {
    let (text, want) = case(rt, alloc, line);
    shows(rt, alloc, line, &read_int(&text), &want);
}

#[test]
fn reads_numbers(rt: HostRuntime) {
    for line in TEXTS.lines() {
        reads(&rt, rt.alloc(), line);
    }
}

const NUMBERS: &str = "\
0
-1
-9223372036854775808
9223372036854775807";

#[test]
fn prints_numbers(rt: HostRuntime) {
    for line in NUMBERS.lines() {
        prints(&rt, rt.alloc(), line);
    }
}

fn prints(rt: &impl Abort, alloc: Global, line: &str) {
    let text = print_int(alloc, number(rt, line)).expect(rt, "memory");
    same(rt, line, text.bytes(), line.as_bytes());
}

fn timed(alloc: Global, name: TextBytes) -> Result<Schema, Memory>
    requires { name ≡ codes "ts" }
{
    let mut columns = Columns::new(alloc);
    let kind = ColumnType::Int;
    columns.push(Column { name, kind })?;
    Ok(Schema { columns })
}

/// Makes a schema of the time alone.
fn only_time(rt: &impl Abort, alloc: Global) -> Schema {
    let name = TextBytes::from_bytes(alloc, b"ts").expect(rt, "memory");
    let name = name.expect(rt, "a text");
    timed(alloc, name).expect(rt, "memory")
}

fn is_only_time(rt: &impl Abort, schema: &Schema) {
    assert!(rt; schema.columns.len() == 1);
    let first = schema.columns.get(0).expect(rt, "a column");
    same(rt, "the time", first.name.bytes(), b"ts");
    assert!(rt; first.kind == ColumnType::Int);
    assert!(rt; schema.columns.get(1).is_none());
}

#[test]
fn begins_with_the_time(rt: HostRuntime) {
    let schema = only_time(&rt, rt.alloc());
    let copy = schema.copy(rt.alloc()).expect(&rt, "memory");
    is_only_time(&rt, &copy);
}
