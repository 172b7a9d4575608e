//! Whether what stands in two places is the same.
ghost use Rattle.std.specs.Prelude.{◌≡◌};
ghost use Rattle.jpa_rows.specs.overlay.Same as spec;

use crate::rows::{Row, is_same_row};

/// Whether what stands in two places is the same: no row, or rows with the same columns.
pub fn is_same(a: &Option<Row>, b: &Option<Row>) -> bool
    ensures { result ≡ spec.same_row a.now b.now }
{
    match (a, b) {
        (None, None) => true,
        (Some(a), Some(b)) => is_same_row(a.as_slice(), b.as_slice()),
        _ => false,
    }
}
