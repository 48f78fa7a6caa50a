ghost use Rattle.std.specs.Prelude.{◌≡◌, ◌<◌, ◌≤◌, [], ◌∷◌, codes, false, length, IsTrue, MatchResult, OnOk};
ghost use Rattle.hj_value.specs.Schema.{has_distinct_names, starts_with_time};
ghost use Rattle.hj_query.specs.Faults.{FaultsColumn, FaultsColumns, FaultsNext, FaultsSchema, IsExpected};
ghost use Rattle.hj_query.specs.declared.fault.Wanted.TheVariants as wants;
ghost use Rattle.hj_query.specs.Grammar.{has_column, kind_word, most_columns, place_of_name, IsColumn, IsColumns, IsSchema};
ghost use Rattle.hj_query.specs.Lexemes.{IsWord, LacksSign, LacksWord};
ghost use Rattle.hj_query.specs.Texts.{Unless};

use crate::cursor::Cursor;
use crate::{QueryFault, Wanted};
use hj_value::{Column, ColumnType, Columns, Schema, TextBytes};
use std::alloc::Global;

const MOST_COLUMNS: usize = 256;

/// Returns the place of the column with a name.
pub fn place_of_name(columns: &Columns, name: &[u8]) -> Option<u16>
    requires { length columns.now ≤ most_columns }
    ensures { result ≡ place_of_name name.now columns.now }
{
    let mut at = 0;
    'columns: while let Some(column) = columns.get(at) {
        if column.name.bytes() == name {
            return Some(at as u16);
        }
        at += 1;
    }
    None
}

/// Reads the schema that follows the word of its side.
pub fn schema(
    alloc: Global,
    cursor: &mut Cursor<'_>,
    word: &[u8],
    wanted: Wanted,
) -> Result<Schema, QueryFault>
    ensures { MatchResult result
        (λ schema. IsSchema word.now cursor.old schema.columns cursor.new)
        (λ fault. Unless fault (FaultsSchema word.now wanted cursor.old)) }
{
    cursor.word(word, wanted)?;
    cursor.sign(b"(", Wanted::OpenParen)?;
    let columns = columns(alloc, cursor)?;
    cursor.sign(b")", Wanted::CommaOrClose)?;
    Ok(Schema { columns })
}

/// Reads columns with `,` between them.
fn columns(alloc: Global, cursor: &mut Cursor<'_>) -> Result<Columns, QueryFault>
    ensures { MatchResult result
        (λ columns. IsColumns cursor.old columns cursor.new × LacksSign (codes ",") cursor.new × (length columns ≤ 256) × IsTrue (has_distinct_names columns) × IsTrue (starts_with_time columns))
        (λ fault. Unless fault (FaultsColumns cursor.old)) }
{
    let mut columns = Columns::new(alloc);
    columns.push(first_column(alloc, cursor)?)?;
    'columns: while cursor.is_sign(b",") {
        cursor.skip();
        let column = next_column(alloc, cursor, &columns)?;
        columns.push(column)?;
    }
    Ok(columns)
}

/// Reads the first column, which is `ts int`.
fn first_column(alloc: Global, cursor: &mut Cursor<'_>) -> Result<Column, QueryFault>
    ensures shorter { OnOk result (length cursor.new < length cursor.old) }
    ensures read { MatchResult result
        (λ column. IsColumn cursor.old column cursor.new × IsTrue (starts_with_time (column ∷ [])))
        (λ fault. Unless fault (FaultsColumns cursor.old)) }
{
    let place = cursor.place();
    let first = column(alloc, cursor)?;
    if !is_time(&first) {
        return Err(QueryFault::FirstColumn(place));
    }
    Ok(first)
}

/// Returns whether a column is `ts int`.
fn is_time(column: &Column) -> bool
    ensures { result ≡ starts_with_time (column.now ∷ []) }
{
    column.name.bytes() == b"ts".as_slice() && column.kind == ColumnType::Int
}

/// Returns whether a column has this name.
fn has_column(columns: &Columns, name: &[u8]) -> bool
    requires { length columns.now ≤ most_columns }
    ensures { result ≡ has_column name.now columns.now }
{
    place_of_name(columns, name).is_some()
}

/// Reads a column that follows others.
fn next_column(
    alloc: Global,
    cursor: &mut Cursor<'_>,
    front: &Columns,
) -> Result<Column, QueryFault>
    ensures shorter { OnOk result (length cursor.new < length cursor.old) }
    ensures read { MatchResult result
        (λ column. IsColumn cursor.old column cursor.new × (length front.now < most_columns) × (has_column column.name front.now ≡ false))
        (λ fault. Unless fault (FaultsNext front.now cursor.old)) }
{
    let place = cursor.place();
    if front.len() >= MOST_COLUMNS {
        cursor.name()?;
        return Err(QueryFault::TooManyColumns(place));
    }
    let column = column(alloc, cursor)?;
    if has_column(front, column.name.bytes()) {
        return Err(QueryFault::DoubleColumn(place));
    }
    Ok(column)
}

/// Reads a name and a type.
fn column(alloc: Global, cursor: &mut Cursor<'_>) -> Result<Column, QueryFault>
    ensures shorter { OnOk result (length cursor.new < length cursor.old) }
    ensures read { MatchResult result
        (λ column. IsColumn cursor.old column cursor.new)
        (λ fault. Unless fault (FaultsColumn cursor.old)) }
{
    let name = cursor.name()?;
    let kind = kind(cursor)?;
    let Some(name) = TextBytes::from_bytes(alloc, name)? else {
        unreachable!();
    };
    Ok(Column { name, kind })
}

/// Reads a type.
fn kind(cursor: &mut Cursor<'_>) -> Result<ColumnType, QueryFault>
    ensures shorter { OnOk result (length cursor.new < length cursor.old) }
    ensures read { MatchResult result
        (λ kind. IsWord (kind_word kind) cursor.old cursor.new)
        (λ fault. LacksWord (codes "int") cursor.old × LacksWord (codes "text") cursor.old × IsExpected wants.ColumnKind cursor.old fault) }
{
    if cursor.is_word(b"int") {
        cursor.skip();
        return Ok(ColumnType::Int);
    }
    if cursor.is_word(b"text") {
        cursor.skip();
        return Ok(ColumnType::Text);
    }
    Err(cursor.expected(Wanted::ColumnKind))
}
