//! executeUpdate.
ghost use Rattle.std.specs.Prelude.{◌≡◌, true, OnOk};
ghost use Rattle.jpa_behaviour.specs.Served.{world_of_unit};
ghost use Rattle.jpa_work.specs.context.Steps.{Meets, Done};
ghost use Rattle.jpa_work.specs.context.Undo.{now, since};
ghost use Rattle.jpa_work.specs.context.Work.{Work};
ghost use Rattle.jpa_operations.specs.fetch.Grown.{IsReady};
ghost use Rattle.jpa_asked.specs.Premises.{AreInHeap};
ghost use Rattle.jpa_flush.specs.flush.Flush.{flush_if};
ghost use Rattle.jpa_flush.specs.flush.Passes.{IsFlushable, Performs};
ghost use Rattle.jpa_updates.specs.Updates as updates;
ghost use Rattle.jpa_rows.specs.rows.Cells.{all_representable};
ghost use Rattle.jpql_trees.specs.declared.typed.typed.Typed.{Typed};

use crate::finding::{made_by_update, taken_by_delete};
use crate::settling::{put_sound, take_sound};
use jpa_asked::{Binding, Statement, read_of, statement_of};
use jpa_behaviour::{Behaviour, ServedUnit};
use jpa_flush::flush::flush_if;
use jpa_model::Metamodel;
use jpa_value::{Boxed, Cause, State};
use jpa_work::context::UnitOfWork;
use jpql_grammar::grammar::GivenList;
use jpql_meaning::eval::Datum;
use jpql_trees::tree::Language;
use jpql_trees::typed::{Typed, TypedAssignment, TypedCondition};
use std::alloc::Global;

/// Whether a statement changes objects.
fn is_bulk(typed: &Typed) -> bool
    ensures { result ≡ updates.is_bulk typed.now }
{
    match typed {
        Typed::Select(_) => false,
        Typed::Update { .. } | Typed::Delete { .. } => true,
    }
}

/// The UPDATE or DELETE that is asked, with what stands for its parameters.
///
/// `Limit` for a text over the limits; `TransactionRequired` without a transaction; as
/// `statement_of` refuses; `IllegalState(statement)` for a SELECT.
fn judged(
    alloc: Global,
    metamodel: &Metamodel,
    work: &UnitOfWork,
    is_active: bool,
    language: Language,
    lists: &[GivenList],
    text: &str,
    bindings: &[Binding],
) -> Result<Statement, Cause>
    requires ready { IsReady metamodel.now (now work.now) }
    requires bound { AreInHeap work.now.objects.now bindings.now }
    ensures meets { Meets result (now work.now)
        (updates.judged_bulk metamodel.now is_active language lists.now text.now bindings.now
        (now work.now)) }
{
    let said = read_of(alloc, language, lists, text)?;
    if !is_active {
        return Err(Cause::TransactionRequired);
    }
    let statement = statement_of(alloc, language, metamodel, work, said, lists, bindings)?;
    if !is_bulk(&statement.typed) {
        return Err(Cause::IllegalState(State::Statement));
    }
    Ok(statement)
}

/// An UPDATE of a class over the set that a manager sees; how many objects it concerned.
fn update<B: Behaviour>(
    alloc: Global,
    unit: &ServedUnit<B>,
    work: &mut UnitOfWork,
    arguments: &[Datum],
    class: usize,
    assignments: &[TypedAssignment],
    filter: &Option<Boxed<TypedCondition>>,
) -> Result<usize, Cause>
    requires in_order { updates.IsInOrder unit.now.metamodel (now work.old).view }
    ensures meets { let world = world_of_unit B.meaning unit.now in
        Meets result (now work.new) (updates.settled unit.now.metamodel (updates.changed_by world
        (Typed.Update class assignments.now filter.now) arguments.now (now work.old).view)
        (now work.old)) }
    ensures representable { OnOk result (all_representable (now work.old).view ≡ true
        → all_representable (now work.new).view ≡ true) }
    ensures since { since work.new ≡ since work.old }
{
    let objects = made_by_update(
        alloc,
        unit,
        &work.view,
        arguments,
        class,
        assignments,
        filter,
    )?;
    put_sound(alloc, &unit.metamodel, work, &objects)
}

/// A DELETE of a class over the set that a manager sees; how many objects it concerned.
fn delete<B: Behaviour>(
    alloc: Global,
    unit: &ServedUnit<B>,
    work: &mut UnitOfWork,
    arguments: &[Datum],
    class: usize,
    is_named: bool,
    filter: &Option<Boxed<TypedCondition>>,
) -> Result<usize, Cause>
    requires in_order { updates.IsInOrder unit.now.metamodel (now work.old).view }
    ensures meets { let world = world_of_unit B.meaning unit.now in
        Meets result (now work.new) (updates.settled unit.now.metamodel (updates.changed_by world
        (Typed.Delete class is_named filter.now) arguments.now (now work.old).view)
        (now work.old)) }
    ensures representable { OnOk result (all_representable (now work.old).view ≡ true
        → all_representable (now work.new).view ≡ true) }
    ensures since { since work.new ≡ since work.old }
{
    let ids = taken_by_delete(
        alloc,
        &unit.metamodel,
        &work.view,
        arguments,
        class,
        is_named,
        filter,
    )?;
    take_sound(alloc, &unit.metamodel, work, ids.as_slice())
}

/// A statement over the set that a manager sees; how many objects it concerned.
fn run<B: Behaviour>(
    alloc: Global,
    unit: &ServedUnit<B>,
    work: &mut UnitOfWork,
    statement: &Statement,
) -> Result<usize, Cause>
    requires in_order { updates.IsInOrder unit.now.metamodel (now work.old).view }
    ensures meets { let world = world_of_unit B.meaning unit.now in
        Meets result (now work.new) (updates.run_bulk world statement.now (now work.old)) }
    ensures representable { OnOk result (all_representable (now work.old).view ≡ true
        → all_representable (now work.new).view ≡ true) }
    ensures since { since work.new ≡ since work.old }
{
    let arguments = statement.arguments.as_slice();
    match &statement.typed {
        Typed::Select(_) => Err(Cause::IllegalState(State::Statement)),
        Typed::Update {
            class,
            assignments,
            filter,
        } => update(
            alloc,
            unit,
            work,
            arguments,
            *class,
            assignments.as_slice(),
            filter,
        ),
        Typed::Delete {
            class,
            is_named,
            filter,
        } => delete(alloc, unit, work, arguments, *class, *is_named, filter),
    }
}

/// An UPDATE or DELETE over the set that a manager sees (Jakarta Persistence 3.1, chapters 3.10.1
/// and 4.11), without cascades, callbacks or checks of versions; the context stays as it is. It
/// answers how many objects the statement concerned. Where `flushes`, as in a transaction under
/// flush mode AUTO (chapter 3.10.8), the manager's objects are flushed before.
///
/// In this order: `Limit` for a text that is too long, nests too deep or declares too many
/// variables; `TransactionRequired` where no transaction `is_active`; `IllegalArgument` with
/// `Syntax` for a text outside the grammar, `Typing` for an ill-typed one, `Parameter` where a
/// parameter isn't bound, one is bound that isn't in the text, a collection stands nowhere behind
/// IN, or an object is bound whose key isn't whole; `IllegalState(statement)` for a SELECT; what
/// `flush` refuses; `Overflow` for an integer outside 64 bits; of an UPDATE, by object and
/// assignment, `Limit` for a value that is too long, `Persistence(converter)` where a converter
/// throws, `Persistence(null)` where a version is set to null; `Persistence` with `Null`,
/// `Reference` or `Unique` where the new set would not be sound. `OutOfMemory` where a growth was
/// refused. What a refused call changed is undone by `UnitOfWork::undo`.
pub fn execute_update<B: Behaviour>(
    alloc: Global,
    unit: &ServedUnit<B>,
    work: &mut UnitOfWork,
    is_active: bool,
    flushes: bool,
    language: Language,
    lists: &[GivenList],
    text: &str,
    bindings: &[Binding],
) -> Result<usize, Cause>
    requires flushable { IsFlushable unit.now.metamodel work.old }
    requires flushing { flushes ≡ true → is_active ≡ true }
    requires then_sound { updates.StaysSound flushes
        (world_of_unit B.meaning unit.now) (now work.old) }
    requires bound { AreInHeap work.old.objects.now bindings.now }
    ensures executes { let world = world_of_unit B.meaning unit.now in
        Performs (updates.execute_update world is_active flushes language lists.now text.now
        bindings.now) result work.old work.new }
    ensures representable { OnOk result ((v : Work)
        → flush_if flushes (world_of_unit B.meaning unit.now) (now work.old)
        ≡ Done tt v → all_representable v.view ≡ true
        → all_representable (now work.new).view ≡ true) }
{
    let statement = judged(
        alloc,
        &unit.metamodel,
        work,
        is_active,
        language,
        lists,
        text,
        bindings,
    )?;
    flush_if(alloc, unit, work, flushes)?;
    run(alloc, unit, work, &statement)
}
