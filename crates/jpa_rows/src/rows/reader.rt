//! Where rows are read: what looks at committed rows asks of their store.
ghost use Rattle.std.specs.Prelude.{◌≡◌, ◌⊎◌, ℕ, ⊤, IfOk, IfErr};
ghost use Rattle.std.specs.FinMap.{find};
ghost use Rattle.jpa_value.specs.Value.{identity_cmp};
ghost use Rattle.jpa_value.specs.declared.refusal.Cause.{Cause};
ghost use Rattle.jpa_rows.specs.laws.Handing.{Hands};
ghost use Rattle.jpa_rows.specs.declared.rows.schema.Schema.{Schema};
ghost use Rattle.jpa_rows.specs.rows.Faults.{IsStoreCause};
ghost use Rattle.jpa_rows.specs.rows.Looking.{Looks, LooksAtRow, LooksAtTable};
ghost use Rattle.jpa_rows.specs.rows.Rows.{Rows, table_rows};

use crate::rows::row::{Row, RowId};
use crate::rows::sink::RowSink;
use jpa_value::Cause;

/// A store of the rows of one schema, to be read.
pub trait RowReader {
    /// The tables and columns of its rows.
    ghost schema: { Self → Schema };

    /// It holds these rows and no others.
    ghost holds: { Self → Rows → Type 0 };

    /// What it stands on has given back what was written to it so far.
    ghost clean: { Self → Type 0 };

    /// How often it has answered with a fault of its own, `StoreFault`, up to the greatest u64. So
    /// such an answer is always one that it counts.
    ghost faults: { Self → ℕ };

    /// How many statements that read one row it has run, up to the greatest u64.
    ghost row_selects: { Self → ℕ };

    /// How many statements that read the rows of a table it has run, up to the greatest u64.
    ghost table_selects: { Self → ℕ };

    /// How many statements that write it has run, up to the greatest u64.
    ghost writes: { Self → ℕ };

    /// What a crash may leave of the second is what it could leave of the first, or rows of which
    /// this holds.
    ghost endures: { Self → Self → (Rows → Type 0) → Type 0 };

    /// What holds of the rows may be said more weakly.
    ghost wider: { (old new : Self) (P Q : Rows → Type 0) → ((rows : Rows) → P rows → Q rows) → endures old new P → endures old new Q };

    /// What a crash may leave after two calls is what it may leave after the first, or what the
    /// second makes.
    ghost then: { (first second third : Self) (P Q : Rows → Type 0) → schema second ≡ schema first → endures first second P → endures second third Q → endures first third (λ rows. P rows ⊎ Q rows) };

    /// The row under an id, by one statement at most. While the store holds rows, it refuses with
    /// `OutOfMemory` and `StoreFault` alone.
    fn get(&mut self, id: &RowId) -> Result<Option<Row>, Cause>
        ensures ok { clean self.new → IfOk result
            (λ row. (rows : Rows) → holds self.old rows → row
            ≡ find identity_cmp id.now rows) }
        ensures err { clean self.new → IfErr result
            (λ cause. (rows : Rows) → holds self.old rows → (cause ≡ Cause.OutOfMemory)
            ⊎ (cause ≡ Cause.StoreFault)) }
        ensures looks { Looks schema holds clean faults writes endures result self.old self.new }
        ensures economy { LooksAtRow row_selects table_selects self.old self.new };

    /// Hands the rows of a table on, in the order of their ids, by one statement at most: `true`
    /// once all were taken and more are wanted, `false` after the first with which no more are
    /// wanted. A refusal of the sink is the answer. While the store holds rows, a refusal of its
    /// own is `OutOfMemory` or `StoreFault`, and the rows before it were taken.
    fn each<K: RowSink>(&mut self, table: u64, sink: &mut K) -> Result<bool, Cause>
        ensures handed { clean self.new → (rows : Rows) → holds self.old rows →
            Hands K.takes IsStoreCause sink.old (table_rows table rows) result sink.new }
        ensures any { (found : Rows) × Hands K.takes (λ _. ⊤) sink.old found result sink.new }
        ensures looks { Looks schema holds clean faults writes endures result self.old self.new }
        ensures economy { LooksAtTable row_selects table_selects self.old self.new };

    /// Where nothing happened, a crash leaves what it could leave before.
    ghost still: { (source : Self) → endures source source (λ _. ⊥) };
}
