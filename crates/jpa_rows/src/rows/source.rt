//! Where changes of rows are made: what a commit asks of the store of committed rows.
ghost use Rattle.std.specs.Prelude.{◌≡◌, ◌⊎◌, ◌+◌, ℕ, Ok, [], OnOk, OnErr, IfErr, sum_by};
ghost use Rattle.jpa_value.specs.declared.refusal.Cause.{Cause};
ghost use Rattle.jpa_rows.specs.declared.rows.schema.Schema.{Schema};
ghost use Rattle.jpa_rows.specs.rows.Making.{Makes};
ghost use Rattle.jpa_rows.specs.rows.Faults.{faults_after};
ghost use Rattle.jpa_rows.specs.rows.Rows.{Rows, rows_after, AreChanges};
ghost use Rattle.jpa_rows.specs.rows.Statements.{Counts, statements_of, up_to_greatest};

use crate::rows::row::RowChange;
use jpa_value::Cause;

/// A store of the rows of one schema, to be changed. A commit reads nothing of it.
pub trait RowSource {
    /// The tables and columns of its rows.
    ghost schema: { Self → Schema };

    /// It holds these rows and no others.
    ghost holds: { Self → Rows → Type 0 };

    /// What it stands on has given back what was written to it so far.
    ghost clean: { Self → Type 0 };

    /// How often it has answered with a fault of its own, `StoreFault`, up to the greatest u64. So
    /// such an answer is always one that it counts.
    ghost faults: { Self → ℕ };

    /// How many statements that read it has run, up to the greatest u64.
    ghost reads: { Self → ℕ };

    /// How many statements that write it has run, up to the greatest u64.
    ghost writes: { Self → ℕ };

    /// How many statements that make what it stands in were run at its opening.
    ghost creates: { Self → ℕ };

    /// What a crash may leave of the second is what it could leave of the first, or rows of which
    /// this holds.
    ghost endures: { Self → Self → (Rows → Type 0) → Type 0 };

    /// What holds of the rows may be said more weakly.
    ghost wider: { (old new : Self) (P Q : Rows → Type 0) → ((rows : Rows) → P rows → Q rows) → endures old new P → endures old new Q };

    /// What a crash may leave after two calls is what it may leave after the first, or what the
    /// second makes.
    ghost then: { (first second third : Self) (P Q : Rows → Type 0) → schema second ≡ schema first → endures first second P → endures second third Q → endures first third (λ rows. P rows ⊎ Q rows) };

    /// Makes these changes in their order, all or none.
    fn commit(&mut self, changes: &[RowChange]) -> Result<(), Cause>
        requires { AreChanges (schema self.old) changes.now }
        ensures makes { (rows : Rows) → Makes schema holds clean faults reads creates endures
            (faults_after result) result rows (rows_after changes.now rows) self.old self.new }
        ensures cause { IfErr result (λ cause. (cause ≡ Cause.OutOfMemory)
            ⊎ (cause ≡ Cause.StoreFault)) }
        ensures nothing { changes.now ≡ [] → (result ≡ Ok tt) × (self.new ≡ self.old) }
        ensures counted { Counts result (writes self.old) (writes self.new)
            (sum_by statements_of changes.now) };

    /// How many SELECTs were run since the opening, up to the greatest u64. Takes no memory.
    fn selects(&self) -> u64
        ensures { result ≡ reads self.now };

    /// How many DELETEs and INSERTs were run since the opening, up to the greatest u64. Takes no
    /// memory.
    fn writes(&self) -> u64
        ensures { result ≡ writes self.now };

    /// How many statements were run since the opening, with those of the opening that made what it
    /// stands in, up to the greatest u64. Takes no memory.
    fn statements(&self) -> u64
        ensures { result ≡ up_to_greatest (reads self.now + writes self.now + creates self.now) };

    /// Where nothing happened, a crash leaves what it could leave before.
    ghost still: { (source : Self) → endures source source (λ _. ⊥) };
}
