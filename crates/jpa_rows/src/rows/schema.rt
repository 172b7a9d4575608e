//! The tables and columns of a unit.
use jpa_value::{Kind, Seq};

/// What a column may hold.
#[derive(Drop)]
pub enum Holds {
    /// Values of a kind.
    Kind(Kind),
    /// Values of every kind: what a converter makes.
    Any,
    /// Keys of parts of these kinds.
    Reference(Seq<Kind>),
}

/// A column, and what it may hold.
#[derive(Drop)]
pub struct ColumnRule {
    pub column: u32,
    pub holds: Holds,
}

/// A table: the kinds of the parts that name its rows, and its columns.
#[derive(Drop)]
pub struct TableRule {
    pub table: u32,
    pub key: Seq<Kind>,
    pub columns: Seq<ColumnRule>,
}

/// The tables that a unit names.
#[derive(Drop)]
pub struct Schema {
    pub tables: Seq<TableRule>,
}

impl Schema {
    ghost use Rattle.std.specs.Prelude.{◌≡◌};
    ghost use Rattle.std.specs.Option.{option_copied};
    ghost use Rattle.jpa_rows.specs.rows.Rows.{table_of};

    /// The table of a number, where the unit names it.
    pub fn table(&self, table: u64) -> Option<&TableRule>
        ensures { option_copied result ≡ table_of self.now table }
    {
        self.tables
            .as_slice()
            .iter()
            .find(|rule| u64::from(rule.table) == table)
    }
}
