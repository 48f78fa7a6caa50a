ghost use Rattle.std.specs.Prelude.{◌≡◌, ◌≤◌, IfOk};
ghost use Rattle.hj_value.specs.declared.column.ColumnType.TheVariants as types;
ghost use Rattle.hj_query.specs.Grammar.{most_rows};
ghost use Rattle.hj_query.specs.Keyed.{keyed_columns, IsEquiQuery};

use crate::schemas::Schemas;
use crate::{FurtherTerms, Op, Pred, Query, Sum, Term};
use hj_base::{Memory, Side, Window};
use hj_value::{Column, ColumnType, Columns, Schema, TextBytes};
use std::alloc::Global;

/// Makes the query that joins rows of equal keys, over windows of this many rows, 1 to 1,000,000:
/// `left (ts int, key int) right (ts int, key int) window left rows W window right rows W on l.key = r.key`.
/// The one refusal is that memory ran out.
pub fn equi(alloc: Global, rows: u32) -> Result<Query, Memory>
    requires some { 1 ≤ rows }
    requires few { rows ≤ most_rows }
    ensures { IfOk result (IsEquiQuery rows) }
{
    let schemas = Schemas {
        left: keyed_schema(alloc)?,
        right: keyed_schema(alloc)?,
    };
    let pred = Pred::Compare(
        Op::Eq,
        Sum {
            first: Term::Column(Side::Left, 1),
            rest: FurtherTerms::new(alloc),
        },
        Sum {
            first: Term::Column(Side::Right, 1),
            rest: FurtherTerms::new(alloc),
        },
    );
    let window = Window::Rows(rows);
    Ok(Query::new(schemas, window, window, 0, 0, pred))
}

/// Makes the schema `ts int, key int`.
fn keyed_schema(alloc: Global) -> Result<Schema, Memory>
    ensures { IfOk result (λ schema. schema.columns ≡ keyed_columns) }
{
    let mut columns = Columns::new(alloc);
    columns.push(int_column(alloc, "ts")?)?;
    columns.push(int_column(alloc, "key")?)?;
    Ok(Schema { columns })
}

/// Makes a column of numbers.
fn int_column(alloc: Global, name: &str) -> Result<Column, Memory>
    ensures { IfOk result (λ column. column ≡ record { name = name.now; kind = types.Int }) }
{
    let Some(name) = TextBytes::from_bytes(alloc, name.as_bytes())? else {
        unreachable!();
    };
    Ok(Column {
        name,
        kind: ColumnType::Int,
    })
}
