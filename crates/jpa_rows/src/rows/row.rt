//! Rows, by what names them.
use jpa_value::{Identity, Key, Seq, Value};

/// What names a row: its table, and the parts that its bytes spell.
pub type RowId = Identity;

/// What a column of a row holds. Null stands in no column.
#[derive(Drop)]
pub enum Content {
    /// A value, which is not null.
    Value(Value),
    /// The key of the object that a relation leads to.
    Reference(Key),
}

/// A column of a row, and what it holds.
#[derive(Drop)]
pub struct Field {
    pub column: u32,
    pub content: Content,
}

/// The columns of a row that hold something, in rising order.
pub type Row = Seq<Field>;

/// What becomes of a row: this one in place of what stands there, or none.
#[derive(Drop)]
pub struct RowChange {
    pub id: RowId,
    pub row: Option<Row>,
}
