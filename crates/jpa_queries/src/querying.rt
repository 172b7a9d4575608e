//! query and querySingle.
ghost use Rattle.std.specs.Prelude.{OnOk};
ghost use Rattle.jpa_behaviour.specs.Served.{world_of_unit};
ghost use Rattle.jpa_work.specs.context.Steps.{Meets};
ghost use Rattle.jpa_work.specs.context.Undo.{now};
ghost use Rattle.jpa_work.specs.context.Work.{Work};
ghost use Rattle.jpa_operations.specs.fetch.Grown.{IsReady};
ghost use Rattle.jpa_flush.specs.flush.Passes.{IsFlushable, Performs};
ghost use Rattle.jpa_asked.specs.Premises.{AreInHeap};
ghost use Rattle.jpa_queries.specs.Premises.{IsReadyToAsk, StaysReady};
ghost use Rattle.jpa_queries.specs.Queries as queries;

use crate::cut::{cut, is_count, wanted};
use crate::results::{row_of, rows_of};
use jpa_asked::{Asked, Statement, read_of, statement_of};
use jpa_behaviour::{Behaviour, ServedUnit};
use jpa_flush::flush::flush_if;
use jpa_model::Metamodel;
use jpa_protocol::Item;
use jpa_value::{Argument, Cause, Seq, State};
use jpa_work::context::UnitOfWork;
use jpql_meaning::eval::{Datum, Failure};
use jpql_select::first::select_first;
use jpql_trees::typed::{Typed, TypedSelect};
use std::alloc::Global;

/// The SELECT that a statement is, with what stands for its parameters; `IllegalState(statement)` for
/// one that is no SELECT.
fn select_asked(statement: Statement) -> Result<(TypedSelect, Seq<Datum>), Cause>
    ensures meets { (w : Work) → Meets result w (queries.select_asked statement w) }
{
    let Statement { typed, arguments } = statement;
    match typed {
        Typed::Select(select) => Ok((select, arguments)),
        Typed::Update { .. } | Typed::Delete { .. } => Err(Cause::IllegalState(State::Statement)),
    }
}

/// The SELECT that is asked, with what stands for its parameters.
///
/// `Limit` for a text over the limits; `IllegalArgument` with `Range` where a number of rows is
/// negative, and as `statement_of` refuses; `IllegalState(statement)` for a statement that is no
/// SELECT.
fn judged(
    alloc: Global,
    metamodel: &Metamodel,
    work: &UnitOfWork,
    asked: &Asked,
) -> Result<(TypedSelect, Seq<Datum>), Cause>
    requires ready { IsReady metamodel.now (now work.now) }
    requires bound { AreInHeap work.now.objects.now asked.now.bindings }
    ensures meets { Meets result (now work.now)
        (queries.judged metamodel.now asked.now (now work.now)) }
{
    let lists = asked.lists.as_slice();
    let said = read_of(alloc, asked.language, lists, asked.text.as_str())?;
    if !is_count(asked.first) || !is_count(asked.max) {
        return Err(Cause::IllegalArgument(Argument::Range));
    }
    let bindings = asked.bindings.as_slice();
    let language = asked.language;
    let statement = statement_of(alloc, language, metamodel, work, said, lists, bindings)?;
    select_asked(statement)
}

/// The rows of a SELECT over the set that a manager sees, without the first ones, and at most so
/// many. `Overflow` where an integer is outside 64 bits; `OutOfMemory` where a growth was refused.
fn rows_found(
    alloc: Global,
    metamodel: &Metamodel,
    work: &UnitOfWork,
    select: &TypedSelect,
    arguments: &[Datum],
    first: Option<i64>,
    max: Option<i64>,
) -> Result<Seq<Seq<Datum>>, Cause>
    requires ready { IsReadyToAsk metamodel.now (now work.now) }
    ensures meets { Meets result (now work.now) (queries.rows_found metamodel.now select.now
        arguments.now first max (now work.now)) }
{
    let count = wanted(first, max);
    match select_first(alloc, metamodel, &work.view, arguments, select, count) {
        Ok(table) => cut(alloc, first, max, table),
        Err(Failure::Overflow) => Err(Cause::Overflow),
        Err(Failure::Memory) => Err(Cause::OutOfMemory),
    }
}

/// The rows that are asked, with identities for entities. Refused as `query` is, before anything is
/// loaded.
fn rows_asked<B: Behaviour>(
    alloc: Global,
    unit: &ServedUnit<B>,
    work: &mut UnitOfWork,
    flushes: bool,
    asked: &Asked,
) -> Result<Seq<Seq<Datum>>, Cause>
    requires flushable { IsFlushable unit.now.metamodel work.old }
    requires then_ready { StaysReady flushes (world_of_unit B.meaning unit.now)
        (now work.old) }
    requires bound { AreInHeap work.old.objects.now asked.now.bindings }
    ensures asks { let world = world_of_unit B.meaning unit.now in
        Performs (queries.rows_asked world flushes asked.now) result work.old work.new }
    ensures ready { OnOk result (IsReady unit.now.metamodel (now work.new)) }
{
    let (select, arguments) = judged(alloc, &unit.metamodel, work, asked)?;
    flush_if(alloc, unit, work, flushes)?;
    rows_found(
        alloc,
        &unit.metamodel,
        work,
        &select,
        arguments.as_slice(),
        asked.first,
        asked.max,
    )
}

/// The one of these rows. `NoResult` where there is none, `NonUniqueResult` where there are
/// several; else refused as `row_of` is.
fn single_row<B: Behaviour>(
    alloc: Global,
    unit: &ServedUnit<B>,
    work: &mut UnitOfWork,
    rows: Seq<Seq<Datum>>,
) -> Result<Seq<Item>, Cause>
    requires ready { IsReady unit.now.metamodel (now work.old) }
    ensures { let world = world_of_unit B.meaning unit.now in
        Performs (queries.single_row world rows) result work.old work.new }
{
    let mut rows = rows.into_vec();
    let Some(row) = rows.pop() else {
        return Err(Cause::NoResult);
    };
    if !rows.is_empty() {
        return Err(Cause::NonUniqueResult);
    }
    row_of(alloc, unit, work, row)
}

/// The rows of a SELECT over the set that a manager sees (Jakarta Persistence 3.1, chapter 3.10.1),
/// without the first ones, and at most so many as are asked. An entity in a row is the context's
/// instance in whatever state, else it is loaded, in the order of the rows. Where `flushes`, as in
/// a transaction under flush mode AUTO (chapter 3.10.8), the manager's objects are flushed before.
///
/// In this order: `Limit` for a text that is too long, nests too deep or declares too many
/// variables; `IllegalArgument` with `Range` where a number of rows is negative, `Syntax` for a
/// text outside the grammar, `Typing` for an ill-typed one, `Parameter` where a parameter isn't
/// bound, one is bound that isn't in the text, or an object is bound whose key isn't whole;
/// `IllegalState(statement)` for a statement that is no SELECT; what `flush` refuses; `Overflow`
/// for an integer outside 64 bits; `EntityNotFound` for an entity that is neither in the context
/// nor in the set, and what `load` refuses. `OutOfMemory` where a growth was refused. What a
/// refused call changed is undone by `UnitOfWork::undo`.
pub fn query<B: Behaviour>(
    alloc: Global,
    unit: &ServedUnit<B>,
    work: &mut UnitOfWork,
    flushes: bool,
    asked: &Asked,
) -> Result<Seq<Seq<Item>>, Cause>
    requires flushable { IsFlushable unit.now.metamodel work.old }
    requires then_ready { StaysReady flushes (world_of_unit B.meaning unit.now)
        (now work.old) }
    requires bound { AreInHeap work.old.objects.now asked.now.bindings }
    ensures { let world = world_of_unit B.meaning unit.now in
        Performs (queries.query world flushes asked.now) result work.old work.new }
{
    let rows = rows_asked(alloc, unit, work, flushes, asked)?;
    rows_of(alloc, unit, work, rows)
}

/// The one row of a SELECT, as `query` finds them and cuts them off. `NoResult` where there is
/// none, `NonUniqueResult` where there are several (chapter 3.10.1), told before an entity is
/// loaded; else refused as `query` is.
pub fn query_single<B: Behaviour>(
    alloc: Global,
    unit: &ServedUnit<B>,
    work: &mut UnitOfWork,
    flushes: bool,
    asked: &Asked,
) -> Result<Seq<Item>, Cause>
    requires flushable { IsFlushable unit.now.metamodel work.old }
    requires then_ready { StaysReady flushes (world_of_unit B.meaning unit.now)
        (now work.old) }
    requires bound { AreInHeap work.old.objects.now asked.now.bindings }
    ensures { let world = world_of_unit B.meaning unit.now in
        Performs (queries.query_single world flushes asked.now) result work.old work.new }
{
    let rows = rows_asked(alloc, unit, work, flushes, asked)?;
    single_row(alloc, unit, work, rows)
}
