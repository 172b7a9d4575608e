//! What takes the rows of a table one at a time.

ghost use Rattle.jpa_value.specs.declared.refusal.Cause.{Cause};
ghost use Rattle.jpa_rows.specs.laws.Handing.{Hands};
ghost use Rattle.std.specs.Prelude.{◌≢◌, option_to_list};

use crate::meaning::CellRow;
use jpa_value::Cause;

/// Takes rows of cells one at a time.
pub trait CellSink {
    ghost use Rattle.std.specs.Prelude.{Bool, Result};
    ghost use Rattle.jpa_cells.specs.declared.meaning.CellRow.{CellRow};
    ghost use Rattle.jpa_value.specs.declared.refusal.Cause.{Cause};

    /// The first takes this row, or refuses it, with this answer, and is then the second.
    ghost takes: { Self → CellRow → Result Bool Cause → Self → Type 0 };

    /// Takes the row, and answers whether it wants more; or refuses it, and never with a
    /// `StoreFault`.
    fn row(&mut self, row: CellRow) -> Result<bool, Cause>
        ensures takes { takes self.old row result self.new }
        ensures own { result ≢ Err Cause.StoreFault };
}

/// Hands the row on, where there is one.
pub fn hand_on<K: CellSink>(row: Option<CellRow>, sink: &mut K) -> Result<bool, Cause>
    ensures handed { Hands K.takes (λ _. ⊥) sink.old (option_to_list row) result sink.new }
    ensures own { result ≢ Err Cause.StoreFault }
{
    match row {
        Some(row) => sink.row(row),
        None => Ok(true),
    }
}

/// Keeps each row that it takes.
#[derive(Drop)]
pub struct Kept {
    pub rows: Vec<CellRow>,
}

impl CellSink for Kept {
    ghost use Rattle.std.specs.Prelude.{◌≡◌, ◌++◌, ◌∷◌, [], MatchResult, true};
    ghost use Rattle.jpa_value.specs.declared.refusal.Cause.TheVariants as cause;

    ghost takes = { λ kept row out after. MatchResult out (λ more. (more ≡ true) × (after.rows.items ≡ kept.rows.items ++ row ∷ [])) (λ refused. (refused ≡ cause.OutOfMemory) × (after.rows.items ≡ kept.rows.items)) };

    fn row(&mut self, row: CellRow) -> Result<bool, Cause> {
        self.rows.push(row)?;
        Ok(true)
    }
}
