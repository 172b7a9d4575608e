//! The law of what is read of all tables.
ghost use Rattle.jpa_cells.specs.rowspace.Reading.{ReadsAll};

/// The law of reading, for contracts to cite; it does nothing. Rows that are read whole of each
/// table of a schema are rows of the schema, and its tables have them and no others.
pub fn reading_law()
    ensures { ReadsAll }
{}
