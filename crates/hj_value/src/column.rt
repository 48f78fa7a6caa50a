use crate::TextBytes;

/// What the fields of a column are.
#[derive(Clone, Copy, Debug, PartialEq, Eq)]
pub enum ColumnType {
    Int,
    Text,
}

/// A column of a stream's rows.
#[derive(Debug, Drop)]
pub struct Column {
    pub name: TextBytes,
    pub kind: ColumnType,
}
