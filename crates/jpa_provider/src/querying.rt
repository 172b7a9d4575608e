//! The calls query, querySingle and executeUpdate (Jakarta Persistence 3.1, chapters 3.10 and
//! 4.11).
ghost use Rattle.std.specs.Prelude.{◌≡◌, false, length, true, IfErr, IfOk, IfSome, OnOk};
ghost use Rattle.jpa_behaviour.specs.Served.{world_of_unit};
ghost use Rattle.jpa_work.specs.context.Steps.{Done, Meets};
ghost use Rattle.jpa_work.specs.context.Work.{Work};
ghost use Rattle.jpa_rows.specs.rows.Cells.{all_representable};
ghost use Rattle.jpa_flush.specs.flush.Flush.{flush_if};
ghost use Rattle.jpa_updates.specs.Updates.{StaysSound};
ghost use Rattle.jpa_machine.specs.machine.Updating.{MakesRepresentable};
ghost use Rattle.jpa_work.specs.context.Undo.{now, since};
ghost use Rattle.jpa_protocol.specs.declared.call.Call.{Call};
ghost use Rattle.jpa_machine.specs.machine.Faults.{tells_fault};
ghost use Rattle.jpa_machine.specs.machine.Machine as machine;
ghost use Rattle.jpa_machine.specs.machine.Querying as querying;
ghost use Rattle.jpa_provider.specs.Operations.{by_query};
ghost use Rattle.jpa_machine.specs.machine.Routes.{route, ToQuery};
ghost use Rattle.jpa_provider.specs.Stages.{CanFlush};
ghost use Rattle.jpa_provider.specs.Serving.{machine_of, IsAtRest, IsServing, Serves, is_begun_status};
ghost use Rattle.jpa_asked.specs.Premises.{AreInHeap};
ghost use Rattle.jpa_queries.specs.Premises.{StaysReady};
ghost use Rattle.jpa_value.specs.declared.refusal.Cause.{Cause};

use crate::at_work::{conclude, manager_named, take_work};
use crate::parameters::{bound, lists_of};
use crate::replies::{Rule, because};
use crate::session::{Session, Status, mode_of, status_of};
use jpa_asked::Asked;
use jpa_behaviour::{Behaviour, ServedUnit};
use jpa_protocol::{Answer, Call, FlushMode, Parameter, Reply};
use jpa_queries::{query, query_single};
use jpa_updates::execute_update;
use jpa_value::{Cause, Seq, Text};
use jpa_work::context::UnitOfWork;
use jpql_trees::tree::Language;
use std::alloc::Global;

/// What a call asks, with what is bound to its parameters. Refused as `bound` is.
fn asked_of(
    alloc: Global,
    work: &UnitOfWork,
    language: Language,
    text: Text,
    parameters: Seq<Parameter>,
    first: Option<i64>,
    max: Option<i64>,
) -> Result<Asked, Cause>
    ensures meets { Meets result (now work.now)
        (querying.asked_of language text parameters first max (now work.now)) }
    ensures bound { IfOk result (λ asked. AreInHeap work.now.objects.now asked.bindings) }
{
    let bindings = bound(alloc, work, parameters.as_slice())?;
    let lists = lists_of(alloc, parameters.as_slice())?;
    Ok(Asked {
        language,
        lists,
        text,
        bindings,
        first,
        max,
    })
}

/// Does what a call does that asks for rows. Refused as `query` and `query_single` are.
fn query_work<B: Behaviour>(
    alloc: Global,
    unit: &ServedUnit<B>,
    work: &mut UnitOfWork,
    flushes: bool,
    call: Call,
) -> Result<Answer, Cause>
    requires can_flush { CanFlush unit.now.metamodel work.old }
    requires then_ready { StaysReady flushes (world_of_unit B.meaning unit.now)
        (now work.old) }
    ensures meets { let world = world_of_unit B.meaning unit.now in
        Meets result (now work.new) (by_query call flushes world (now work.old)) }
    ensures since { since work.new ≡ since work.old }
{
    let language = unit.registry.language();
    match call {
        Call::Query {
            text,
            parameters,
            first,
            max,
            ..
        } => {
            let asked = asked_of(alloc, work, language, text, parameters, first, max)?;
            let rows = query(alloc, unit, work, flushes, &asked)?;
            Ok(Answer::Rows(rows))
        }
        Call::QuerySingle {
            text,
            parameters,
            first,
            max,
            ..
        } => {
            let asked = asked_of(alloc, work, language, text, parameters, first, max)?;
            let row = query_single(alloc, unit, work, flushes, &asked)?;
            Ok(Answer::Row(row))
        }
        _ => Ok(Answer::Null),
    }
}

/// Whether the manager's objects are flushed before a query: in an open transaction under the mode
/// AUTO (chapter 3.10.8).
fn flushes_first(status: Status, mode: FlushMode) -> bool
    ensures { result ≡ machine.flushes_in (is_begun_status status) mode }
{
    match mode {
        FlushMode::Auto => status.is_begun(),
        FlushMode::Commit => false,
    }
}

/// A call whose route is a query of a manager.
pub(crate) fn query_call<B: Behaviour>(
    alloc: Global,
    unit: &ServedUnit<B>,
    session: &mut Session,
    em: i64,
    call: Call,
) -> Reply
    requires serving { IsServing (world_of_unit B.meaning unit.now) session.old }
    ensures step { route call ≡ ToQuery em (by_query call)
        → Serves (world_of_unit B.meaning unit.now) session.old call result session.new }
    ensures untold { tells_fault result ≡ false }
    ensures rest { IsAtRest unit.now.metamodel session.new }
{
    let Some(manager) = manager_named(session, em) else {
        return because(alloc, Cause::NoSuchManager);
    };
    let flushes = flushes_first(
        status_of(&session.managers, manager),
        mode_of(&session.managers, manager),
    );
    take_work(session, manager);
    let work = &mut session.work;
    let answered = query_work(alloc, unit, work, flushes, call);
    conclude(
        alloc,
        &unit.metamodel,
        session,
        manager,
        answered,
        Rule::OfManager,
    )
}

/// An UPDATE or DELETE of a manager at work, and its answer. Refused as `bound` and
/// `execute_update` are.
fn update_work<B: Behaviour>(
    alloc: Global,
    unit: &ServedUnit<B>,
    work: &mut UnitOfWork,
    is_active: bool,
    flushes: bool,
    text: Text,
    parameters: Seq<Parameter>,
) -> Result<Answer, Cause>
    requires can_flush { CanFlush unit.now.metamodel work.old }
    requires flushing { flushes ≡ true → is_active ≡ true }
    requires then_sound { StaysSound flushes (world_of_unit B.meaning unit.now)
        (now work.old) }
    ensures meets { let world = world_of_unit B.meaning unit.now in
        Meets result (now work.new)
        (querying.update_call text parameters is_active flushes world (now work.old)) }
    ensures representable { OnOk result ((v : Work)
        → flush_if flushes (world_of_unit B.meaning unit.now) (now work.old)
        ≡ Done tt v → all_representable v.view ≡ true
        → all_representable (now work.new).view ≡ true) }
    ensures since { since work.new ≡ since work.old }
{
    let bindings = bound(alloc, work, parameters.as_slice())?;
    let lists = lists_of(alloc, parameters.as_slice())?;
    let count = execute_update(
        alloc,
        unit,
        work,
        is_active,
        flushes,
        unit.registry.language(),
        lists.as_slice(),
        text.as_str(),
        bindings.as_slice(),
    )?;
    Ok(Answer::Number(count as u64))
}

/// The call executeUpdate (chapter 4.11). `TransactionRequired` where the manager's transaction is
/// not open, after what is refused of what the call hands in.
pub(crate) fn update_call<B: Behaviour>(
    alloc: Global,
    unit: &ServedUnit<B>,
    session: &mut Session,
    em: i64,
    text: Text,
    parameters: Seq<Parameter>,
) -> Reply
    requires serving { IsServing (world_of_unit B.meaning unit.now) session.old }
    ensures step { Serves (world_of_unit B.meaning unit.now) session.old
        (Call.ExecuteUpdate em text parameters) result session.new }
    ensures untold { tells_fault result ≡ false }
    ensures rest { IsAtRest unit.now.metamodel session.new }
    ensures made { let world = world_of_unit B.meaning unit.now in
        OnOk result.answer (MakesRepresentable world (machine_of session.old)
        (Call.ExecuteUpdate em text parameters)) }
{
    let Some(manager) = manager_named(session, em) else {
        return because(alloc, Cause::NoSuchManager);
    };
    let status = status_of(&session.managers, manager);
    let flushes = flushes_first(status, mode_of(&session.managers, manager));
    take_work(session, manager);
    let work = &mut session.work;
    let answered = update_work(
        alloc,
        unit,
        work,
        status.is_begun(),
        flushes,
        text,
        parameters,
    );
    conclude(
        alloc,
        &unit.metamodel,
        session,
        manager,
        answered,
        Rule::OfManager,
    )
}
