//! Rows: what names one, what its columns hold, and how both are spelled as cells.
//!
//! A row stands under its table and a key: that of an object for its main row, the owner's and then
//! the target's for a pair of a relation with a join table, the table of a hierarchy for the row of
//! its next number in table 0. Its columns hold values and references. `specs/Rows` says how rows
//! are spelled, `specs/Tables` which tables and columns a unit has, and `specs/Cells` which cells
//! stand for a set of stored objects. The crate stands on stored sets, the bytes of keys and
//! converters.

mod copy;
mod origin;
mod read;
mod reader;
mod representable;
mod row;
mod same;
mod schema;
mod sink;
mod source;
mod spell;
mod tables;
mod tag;
mod values;
mod whole;

pub use copy::copy_row;
pub use origin::origin_of;
pub use read::{read_content, read_id, read_row};
pub use reader::RowReader;
pub use representable::{
    identity_is_representable, object_is_representable, version_is_representable,
};
pub use row::{Content, Field, Row, RowChange, RowId};
pub use same::is_same_row;
pub use schema::{ColumnRule, Holds, Schema, TableRule};
pub use sink::RowSink;
pub use source::RowSource;
pub use spell::{spell_content, spell_row};
pub use tables::entity_at;
pub use values::{is_short, text_is_representable, value_is_representable};
pub use whole::{is_key, is_row_of};
