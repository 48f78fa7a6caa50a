//! Values: whole numbers and texts, columns and schemas, fields and rows.
#![tactic(auto)]

mod borrowed;
mod column;
mod columns;
mod field;
mod number;
mod row;
mod row_blocks;
mod schema;
mod shared_row;
mod stored_fields;

pub use borrowed::Text;
pub use column::{Column, ColumnType};
pub use columns::Columns;
pub use field::{Field, compare};
pub use hj_base::{Bytes as IntText, TextBytes};
pub use number::{IntFault, print_int, read_int};
pub use row::Row;
pub use row_blocks::RowBlocks;
pub use schema::Schema;
pub use shared_row::SharedRow;
