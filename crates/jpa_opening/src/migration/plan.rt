//! What becomes of the rows of one root's table, read off the unit and its history once.
use jpa_cells::meaning::Cell;
use jpa_value::{Bytes, Seq};

/// A column that moves.
#[derive(Drop)]
pub(super) struct Move {
    /// The number that it has in revision 1.
    pub(super) was: u64,
    /// The number that it has now.
    pub(super) column: i64,
}

/// The defaults of a class and its superclasses.
#[derive(Drop)]
pub(super) struct ClassDefaults {
    /// What column 0 holds in the rows of the class.
    pub(super) discriminator: Bytes,
    /// A cell for each default.
    pub(super) cells: Seq<Cell>,
}

/// What becomes of the rows of a table.
#[derive(Drop)]
pub(super) struct Plan {
    /// The columns that revision 1 does not have.
    pub(super) taken: Seq<u64>,
    /// The columns that are there no more.
    pub(super) dropped: Seq<u64>,
    pub(super) moves: Seq<Move>,
    /// The classes that have defaults.
    pub(super) defaults: Seq<ClassDefaults>,
}

impl Plan {
    ghost use Rattle.std.specs.Prelude.{◌≡◌};
    ghost use Rattle.jpa_opening.specs.migration.Plans.{is_idle};

    /// Whether each row stays as it is.
    pub(super) fn is_idle(&self) -> bool
        ensures { result ≡ is_idle self.now }
    {
        self.taken.is_empty()
            && self.dropped.is_empty()
            && self.moves.is_empty()
            && self.defaults.is_empty()
    }
}
