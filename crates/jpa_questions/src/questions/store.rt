//! A question over the cells of a database.
ghost use Rattle.std.specs.Prelude.{◌≡◌, ◌↔◌, ℕ, List, IsTrue, None, IfOk, IfErr};
ghost use Rattle.sqlite.specs.Held.{state};
ghost use Rattle.jpa_behaviour.specs.Served.{world_of_unit};
ghost use Rattle.jpa_rows.specs.rows.Tables.{schema_of};
ghost use Rattle.jpa_cells.specs.meaning.Schema.{no_schema};
ghost use Rattle.jpa_cells.specs.meaning.Store.{IsClean, IsOrderedIfFound, new_store};
ghost use Rattle.jpa_rows.specs.rows.Rows.{Rows};
ghost use Rattle.jpa_cells.specs.rowspace.Space.{HoldsRows, IsStoreCause};
ghost use Rattle.jpa_stored.specs.objects.Sets.{StoredSet};
ghost use Rattle.jpql_meaning.specs.plan.Selection.{selected};
ghost use Rattle.jpa_questions.specs.by_key.ByKey.{key_of};
ghost use Rattle.jpa_questions.specs.row_queries.Answered.{Answers};
ghost use Rattle.jpa_questions.specs.row_queries.Seen.{AreJustOf};
ghost use Rattle.jpa_questions.specs.questions.Asking.{HoldsSet, LeavesRows};

use crate::questions::asking::ask;
use crate::questions::question::Question;
use jpa_behaviour::{Behaviour, ServedUnit};
use jpa_cells::cells::CellStore;
use jpa_cells::rowspace::RowSpace;
use jpa_model::Metamodel;
use jpa_rows::rows::Schema;
use jpa_value::{Cause, Seq};
use jpql_meaning::eval::Datum;
use sqlite::{Alter, Connection};
use sqlite_schema::schema::Schema as DatabaseSchema;
use std::alloc::Global;

fn has_nothing(schema: &DatabaseSchema) -> bool
    ensures { IsTrue result ↔ (schema.now ≡ no_schema) }
{
    schema.tables.is_empty() && schema.indexes.is_empty() && schema.views.is_empty()
}

/// Whether a database is empty.
fn is_blank<S: Alter>(conn: &Connection<S>) -> bool
    ensures { IsTrue result ↔ ((state S.Store conn.now).now.schema ≡ no_schema) }
{
    has_nothing(conn.schema())
}

/// The rows of a metamodel over the cells of a database, to be read. An empty database is no store,
/// and is `StoreFault`: its table isn't made here.
fn rows_over<S: Alter + Drop>(
    alloc: Global,
    conn: Connection<S>,
    metamodel: &Metamodel,
) -> Result<RowSpace<S>, (Cause, Connection<S>)>
    requires ordered { IsOrderedIfFound S.Store conn }
    ensures schema { IfOk result (λ space. space.schema ≡ schema_of metamodel.now) }
    ensures same { IfOk result (λ space. space.store ≡ new_store conn 0) }
    ensures refused { IfErr result (λ e. IsStoreCause e.0) }
    ensures kept { IfErr result (λ e. LeavesRows S.Store (schema_of metamodel.now) conn e.1) }
    ensures again { IfErr result (λ e. IsOrderedIfFound S.Store e.1) }
{
    if is_blank(&conn) {
        return Err((Cause::StoreFault, conn));
    }
    let schema = match Schema::of(alloc, metamodel) {
        Ok(schema) => schema,
        Err(cause) => return Err((cause, conn)),
    };
    match CellStore::open(alloc, conn) {
        Ok(store) => Ok(RowSpace::new(alloc, store, schema)),
        Err(refused) => Err(refused),
    }
}

/// The rows that a question finds in the store of a connection, as `ask` finds them, and the
/// connection, which has the rows that it had; nothing is committed. Rows of the metamodel's tables
/// that are of no set are `Damaged`, where all are read. A database that is empty, that holds
/// anything else than cells, or whose connection is in a transaction, is refused with `StoreFault`;
/// else it refuses as `ask` does.
pub fn ask_store<S: Alter + Drop, B: Behaviour>(
    alloc: Global,
    conn: Connection<S>,
    unit: &ServedUnit<B>,
    question: &Question,
) -> (Result<Seq<Seq<Datum>>, Cause>, Connection<S>)
    requires ordered { IsOrderedIfFound S.Store conn }
    ensures answer { IsClean S.Store result.1 → (set : StoredSet) (numbers : List ℕ) →
        HoldsSet S.Store (world_of_unit B.meaning unit.now) conn set numbers →
        Answers result.0
        (selected unit.now.metamodel set question.now.arguments question.now.select) }
    ensures whole { IsClean S.Store result.1 →
        key_of unit.now.metamodel question.now.arguments question.now.select ≡ None →
        (rows : Rows) → HoldsRows S.Store (schema_of unit.now.metamodel) conn rows →
        IfOk result.0
        (λ _. (set : StoredSet) × AreJustOf (world_of_unit B.meaning unit.now) rows set) }
    ensures kept { LeavesRows S.Store (schema_of unit.now.metamodel) conn result.1 }
    ensures again { IsOrderedIfFound S.Store result.1 }
{
    let mut space = match rows_over(alloc, conn, &unit.metamodel) {
        Ok(space) => space,
        Err((cause, conn)) => return (Err(cause), conn),
    };
    let answer = ask(alloc, unit, &mut space, question);
    (answer, space.store.into_connection())
}
