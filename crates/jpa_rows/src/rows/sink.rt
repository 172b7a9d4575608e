//! What takes rows one at a time.
ghost use Rattle.std.specs.Prelude.{◌≢◌};
ghost use Rattle.jpa_value.specs.declared.refusal.Cause.{Cause};

use crate::rows::row::{Row, RowId};
use jpa_value::Cause;

/// Takes rows one at a time.
pub trait RowSink {
    ghost use Rattle.std.specs.Prelude.{Bool, Result};
    ghost use Rattle.jpa_value.specs.declared.refusal.Cause.{Cause};
    ghost use Rattle.jpa_rows.specs.rows.Rows.{RowId, Row};

    /// The first takes this row, or refuses it, with this answer, and is then the second.
    ghost takes: { Self → RowId × Row → Result Bool Cause → Self → Type 0 };

    /// Takes the row, and answers whether it wants more; or refuses it, and never with a
    /// `StoreFault`.
    fn row(&mut self, id: RowId, row: Row) -> Result<bool, Cause>
        ensures takes { takes self.old (id, row) result self.new }
        ensures own { result ≢ Err Cause.StoreFault };
}
