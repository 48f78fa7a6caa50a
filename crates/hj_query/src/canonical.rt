ghost use Rattle.std.specs.Prelude.{◌≡◌, ◌≤◌, ◌++◌, [], ◌∷◌, codes, length, slice_get, IfOk, OnOk, OnErr};
ghost use Rattle.std.specs.List.{join_by};
ghost use Rattle.std.specs.Option.{option_copied};
ghost use Rattle.hj_query.specs.Canonical.{canonical, column_text, line_end, schema_text, setting_line, streams_text, window_text};
ghost use Rattle.hj_query.specs.Grammar.{kind_word};
ghost use Rattle.hj_query.specs.Texts.{most_bytes, Spells};

mod nodes;
mod pieces;
mod terms;

use crate::setting::Setting;
use crate::{Query, QueryText};
use hj_base::{Memory, Side, Window};
use hj_value::{Column, ColumnType, Columns};
use nodes::push_pred;
use pieces::{push_bytes, push_count};
use std::alloc::Global;

/// Returns the canonical text of a query: a line for each schema, each window and each of slack and quiet that isn't
/// 0, and one for the condition, with one blank between words, signs and numbers, and parentheses only where the tree
/// needs them.
///
/// Where it has at most 65,536 bytes it spells this query, so that `parse` reads it again. It may have more where the
/// query's own text has nearly as many. The one refusal is that memory ran out.
pub fn print(alloc: Global, query: &Query) -> Result<QueryText, Memory>
    ensures text { IfOk result (λ text. text ≡ canonical query.now) }
    ensures again { IfOk result (λ text. length text ≤ most_bytes → Spells text query.now) }
{
    let mut bytes = Vec::new(alloc);
    push_streams(&mut bytes, query)?;
    push_setting(&mut bytes, Setting::Slack, query.slack())?;
    push_setting(&mut bytes, Setting::Quiet, u64::from(query.quiet()))?;
    push_bytes(&mut bytes, b"on ")?;
    push_pred(alloc, &mut bytes, query, query.pred())?;
    push_bytes(&mut bytes, b"\n")?;
    Ok(QueryText::from_vec(bytes))
}

/// Adds the lines of the two streams to a text.
fn push_streams(text: &mut Vec<u8>, query: &Query) -> Result<(), Memory>
    ensures { OnOk result (text.new.items ≡ text.old.items ++ streams_text query.now) }
{
    push_schema(text, b"left ", &query.schema(Side::Left).columns)?;
    push_schema(text, b"right ", &query.schema(Side::Right).columns)?;
    push_window(text, b"window left ", query.window(Side::Left))?;
    push_window(text, b"window right ", query.window(Side::Right))
}

/// Adds the line of a schema to a text.
fn push_schema(text: &mut Vec<u8>, side: &[u8], columns: &Columns) -> Result<(), Memory>
    ensures { OnOk result (text.new.items ≡ text.old.items ++ side.now ++ schema_text columns.now ++ line_end) }
{
    push_bytes(text, side)?;
    push_bytes(text, b"(")?;
    push_columns(text, columns)?;
    push_bytes(text, b")\n")
}

/// Adds columns to a text, with a comma and a blank between them.
fn push_columns(text: &mut Vec<u8>, columns: &Columns) -> Result<(), Memory>
    ensures { OnOk result (text.new.items ≡ text.old.items ++ join_by column_text (codes ", ") columns.now) }
{
    let Some(first) = columns.get(0) else {
        return Ok(());
    };
    push_column(text, first)?;
    for at in 1..columns.len() {
        let Some(column) = columns.get(at) else {
            unreachable!();
        };
        push_bytes(text, b", ")?;
        push_column(text, column)?;
    }
    Ok(())
}

/// Adds a column's name and type to a text.
fn push_column(text: &mut Vec<u8>, column: &Column) -> Result<(), Memory>
    ensures { OnOk result (text.new.items ≡ text.old.items ++ column_text column.now) }
{
    push_bytes(text, column.name.bytes())?;
    push_bytes(text, b" ")?;
    push_bytes(text, kind_word(column.kind))
}

/// Returns the word of a type.
fn kind_word(kind: ColumnType) -> &'static [u8]
    ensures { result.now ≡ kind_word kind }
{
    match kind {
        ColumnType::Int => b"int",
        ColumnType::Text => b"text",
    }
}

/// Adds the line of a window to a text.
fn push_window(text: &mut Vec<u8>, side: &[u8], window: Window) -> Result<(), Memory>
    ensures { OnOk result (text.new.items ≡ text.old.items ++ side.now ++ window_text window ++ line_end) }
{
    push_bytes(text, side)?;
    push_span(text, window)?;
    push_bytes(text, b"\n")
}

/// Adds what a window counts, and how much of it.
fn push_span(text: &mut Vec<u8>, window: Window) -> Result<(), Memory>
    ensures { OnOk result (text.new.items ≡ text.old.items ++ window_text window) }
{
    match window {
        Window::Rows(count) => {
            push_bytes(text, b"rows ")?;
            push_count(text, u64::from(count))
        }
        Window::Time(span) => {
            push_bytes(text, b"time ")?;
            push_count(text, span)
        }
    }
}

/// Adds the line of a setting to a text; none for 0.
fn push_setting(text: &mut Vec<u8>, setting: Setting, value: u64) -> Result<(), Memory>
    ensures { OnOk result (text.new.items ≡ text.old.items ++ setting_line setting value) }
{
    if value == 0 {
        return Ok(());
    }
    push_bytes(text, setting.word())?;
    push_bytes(text, b" ")?;
    push_count(text, value)?;
    push_bytes(text, b"\n")
}
