//! The provider.
ghost use Rattle.std.specs.Prelude.{◌≡◌, ◌+◌, ℕ, IfOk, IfErr, OnOk, true, false};
ghost use Rattle.jpa_value.specs.declared.refusal.Cause.{Cause};
ghost use Rattle.jpa_behaviour.specs.Served.{world_of_unit};
ghost use Rattle.jpa_model.specs.Chains.{entity_at};
ghost use Rattle.jpa_model.specs.Kept.{IsDescribed};
ghost use Rattle.jpa_object_rows.specs.meaning.Objects.{is_discriminator};
ghost use Rattle.jpa_object_rows.specs.meaning.Sets.{rows_of};
ghost use Rattle.jpa_object_rows.specs.meaning.Unambiguous.{is_class};
ghost use Rattle.jpa_protocol.specs.declared.call.Call.{Call};
ghost use Rattle.jpa_rows.specs.rows.Cells.{CanBeHeld};
ghost use Rattle.jpa_rows.specs.rows.Statements.{up_to_greatest};
ghost use Rattle.jpa_rows.specs.rows.Tables.{schema_of};
ghost use Rattle.jpa_stored.specs.objects.Sets.{StoredSet};
ghost use Rattle.jpa_open.specs.Opened.{unwritten};
ghost use Rattle.jpa_machine.specs.machine.Faults.{tells_fault};
ghost use Rattle.jpa_machine.specs.machine.Invariant.{IsMachine};
ghost use Rattle.jpa_machine.specs.machine.Isolated.{IsSomeMove};
ghost use Rattle.jpa_machine.specs.machine.Machine.{opened};
ghost use Rattle.jpa_machine.specs.machine.Routes.{is_commit};
ghost use Rattle.jpa_provider.specs.Provided.{world_in, ChangesAtMost, IsOpened, Stands};
ghost use Rattle.jpa_machine.specs.machine.Updating.{MakesRepresentable, is_bulk};
ghost use Rattle.jpa_provider.specs.Serving.{machine_of, IsAtRest, IsServingOver, IsSettled, Serves, StoresServing};

use crate::asking::contains_call;
use crate::committing::commit_call;
use crate::ending::{clear_call, close_call, rollback_call, set_rollback_only_call};
use crate::finding::find_call;
use crate::flushing::flush_call;
use crate::handing::hands_representable;
use crate::indexing::index_call;
use crate::moding::set_flush_mode_call;
use crate::opening::{begin_call, create_call, new_call};
use crate::pending::pending_call;
use crate::querying::{query_call, update_call};
use crate::restarting::restart_call;
use crate::session::Session;
use crate::showing::values_call;
use crate::working::{held, in_transaction, worked};
use jpa_behaviour::{Behaviour, ServedUnit};
use jpa_object_rows::mapper::discriminator_law;
use jpa_open::{OpenSet, view_of};
use jpa_protocol::{Call, PersistenceProvider, Reply};
use jpa_rows::rows::RowSource;
use jpa_stored::objects::StoredSet;
use jpa_value::{Cause, Seq};
use jpa_work::context::{PersistenceContext, UnitOfWork};
use jpa_work::undo::UndoList;
use jpql_trees::tree::Language;
use std::alloc::{AllocError, Global};
use std::marker::Model;

/// A provider over a store of rows: it serves calls, one after another (Jakarta Persistence 3.1,
/// chapters 3 and 7).
///
/// Contracts see what the unit and its stored functions mean, the machine that the live data stand
/// for, and the store, whose rows are those of the committed set and of the next numbers that were
/// stored with it.
pub struct Provider<R: RowSource, B: Behaviour> {
    alloc: Global,
    unit: ServedUnit<B>,
    session: Session,
    rows: R,
}

impl<R: RowSource, B: Behaviour> Model for Provider<R, B> {
    ghost use Rattle.jpa_behaviour.specs.Served.{world_of_unit};
    ghost use Rattle.jpa_provider.specs.Provided.{Provided};
    ghost use Rattle.jpa_provider.specs.Serving.{IsServingOver, machine_of};

    ghost Value = { Provided R B.Listener B.Converter };

    ghost view = { λ p. record {
      model = p.unit.metamodel;
      registry = p.unit.registry;
      machine = machine_of p.session;
      rows = p.rows;
    } };

    ghost invariant = { λ p.
        IsServingOver (world_of_unit B.meaning p.unit) R.RowSource p.session p.rows };
}

impl<R: RowSource + Drop, B: Behaviour> Provider<R, B> {
    /// A provider of a unit, over a store of the rows of these objects and next numbers: no object
    /// lives, and no manager was made. For want of memory, which is `OutOfMemory` and the only
    /// refusal, it hands the store back.
    pub fn new(
        alloc: Global,
        unit: ServedUnit<B>,
        rows: R,
        committed: StoredSet,
        numbers: Seq<u64>,
    ) -> Result<Provider<R, B>, (Cause, R)>
        requires schema { R.schema rows ≡ schema_of unit.metamodel }
        requires held { CanBeHeld (world_of_unit B.meaning unit) committed numbers }
        requires holds { R.clean rows
            → R.holds rows (rows_of (world_of_unit B.meaning unit) committed numbers) }
        ensures ok { IfOk result (IsOpened unit.metamodel unit.registry committed numbers rows) }
        ensures refused { IfErr result (λ e. (e.0 ≡ Cause.OutOfMemory) × (e.1 ≡ rows)) }
    {
        unit.registry.laws();
        unit.metamodel.unit();
        let next = match noted(alloc, numbers.as_slice()) {
            Ok(next) => next,
            Err(_) => return Err((Cause::OutOfMemory, rows)),
        };
        let view = match view_of(alloc, committed) {
            Ok(view) => view,
            Err(cause) => return Err((cause, rows)),
        };
        let session = opened(alloc, view, next, numbers);
        Ok(Provider {
            alloc,
            unit,
            session,
            rows,
        })
    }

    /// The store, which holds what was committed last. What lives in the provider ends.
    pub fn into_rows(self) -> R
        ensures { result ≡ self.rows }
    {
        let Provider {
            alloc: _,
            unit: _,
            session: _,
            rows,
        } = self;
        rows
    }
}

impl<R: RowSource, B: Behaviour> Provider<R, B> {
    /// The language of its queries and of what is handed in for their parameters (Jakarta Persistence
    /// 3.1, chapter 4). Takes no memory.
    pub fn language(&self) -> Language
        ensures { result ≡ self.now.registry.language }
    {
        self.unit.registry.language()
    }

    /// How many SELECTs its store has run since it was opened, up to the greatest u64. No call runs
    /// one. Takes no memory.
    pub fn selects(&self) -> u64
        ensures { result ≡ R.reads self.now.rows }
    {
        self.rows.selects()
    }

    /// How many DELETEs and INSERTs its store has run since it was opened, up to the greatest u64.
    /// Takes no memory.
    pub fn writes(&self) -> u64
        ensures { result ≡ R.writes self.now.rows }
    {
        self.rows.writes()
    }

    /// How many statements its store has run since it was opened, with those that made what it
    /// stands in, up to the greatest u64. Takes no memory.
    pub fn statements(&self) -> u64
        ensures { result ≡ up_to_greatest (R.reads self.now.rows + R.writes self.now.rows
            + R.creates self.now.rows) }
    {
        self.rows.statements()
    }

    /// What stands between calls, for contracts to cite; it does nothing. The store is of the
    /// unit's schema; what was committed can be held, and if the store is clean it holds the rows
    /// of just that. What lives is that of a machine, in which each identity has one instance in a
    /// context, and a store could hold what each open transaction sees and what its begin saw. A
    /// well-formed description describes the unit.
    pub fn stands(&self)
        ensures stands { Stands B.meaning R.clean R.holds self.now }
        ensures schema { R.schema self.now.rows ≡ schema_of self.now.model }
        ensures held { let M = self.now.machine in
            CanBeHeld (world_in B.meaning self.now) M.committed M.stored_numbers }
        ensures machine { IsMachine (world_in B.meaning self.now) self.now.machine }
        ensures described { IsDescribed self.now.model }
        ensures discriminators { let m = self.now.model in (class : ℕ) → is_class m class
            ≡ true → is_discriminator (entity_at m class) ≡ true }
    {
        self.unit.metamodel.unit();
        discriminator_law(&self.unit.metamodel);
    }
}

/// These next numbers, as nothing was given yet.
fn noted(alloc: Global, numbers: &[u64]) -> Result<UndoList<u64>, AllocError>
    ensures { IfOk result (λ noted. (noted.now ≡ numbers.now) × (noted.since ≡ numbers.now)) }
{
    let mut noted = UndoList::new(alloc);
    for number in numbers {
        noted.push(*number)?;
    }
    noted.keep();
    Ok(noted)
}

/// A session without objects and managers, over a set over which nothing is written.
fn opened(alloc: Global, view: OpenSet, next: UndoList<u64>, numbers: Seq<u64>) -> Session
    ensures machine { (committed : StoredSet) → view ≡ unwritten committed → next.now
        ≡ numbers → machine_of result ≡ opened committed numbers }
    ensures settled { (committed : StoredSet) → view ≡ unwritten committed → next.since
        ≡ next.now → IsSettled result }
{
    Session {
        managers: Vec::new(alloc),
        open_places: Vec::new(alloc),
        work: UnitOfWork {
            manager: 0,
            objects: UndoList::new(alloc),
            context: PersistenceContext::new(alloc),
            numbers: next,
            view,
            events: Seq::new(alloc),
        },
        stored: numbers,
    }
}

/// Serves a call, by the group to which its route belongs; what stands between calls is shown where
/// it is called.
fn served<R: RowSource, B: Behaviour>(
    alloc: Global,
    unit: &ServedUnit<B>,
    session: &mut Session,
    rows: &mut R,
    call: Call,
) -> Reply
    requires { IsServingOver (world_of_unit B.meaning unit.now) R.RowSource session.old rows.old }
    ensures step { Serves (world_of_unit B.meaning unit.now) session.old call result session.new }
    ensures rest { IsAtRest unit.now.metamodel session.new }
    ensures stores { is_commit call ≡ true → StoresServing (world_of_unit B.meaning unit.now)
        R.RowSource session.old call result session.new rows.old rows.new }
    ensures others { is_commit call ≡ false
        → (rows.new ≡ rows.old) × (tells_fault result ≡ false) }
    ensures made { is_bulk call ≡ true → OnOk result.answer
        (MakesRepresentable (world_of_unit B.meaning unit.now) (machine_of session.old) call) }
{
    match call {
        Call::CreateEntityManager => create_call(alloc, unit, session),
        Call::NewObject { entity } => new_call(alloc, unit, session, entity.as_str()),
        Call::SetValue { object, .. } => held(alloc, unit, session, object, call),
        Call::Get { object, .. } => held(alloc, unit, session, object, call),
        Call::Add { object, .. } => held(alloc, unit, session, object, call),
        Call::TakeOut { object, .. } => held(alloc, unit, session, object, call),
        Call::Begin { em } => begin_call(alloc, unit, session, em),
        Call::Persist { em, object } => worked(alloc, unit, session, em, object, call),
        Call::Remove { em, object } => worked(alloc, unit, session, em, object, call),
        Call::Refresh { em, object } => worked(alloc, unit, session, em, object, call),
        Call::Detach { em, object } => worked(alloc, unit, session, em, object, call),
        Call::Merge { em, object } => worked(alloc, unit, session, em, object, call),
        Call::Lock { em, object, .. } => in_transaction(alloc, unit, session, em, object, call),
        Call::Flush { em } => flush_call(alloc, unit, session, em),
        Call::Commit { em } => commit_call(alloc, unit, session, rows, em),
        Call::Rollback { em } => rollback_call(alloc, unit, session, em),
        Call::SetRollbackOnly { em } => set_rollback_only_call(alloc, unit, session, em),
        Call::Find { em, .. } => find_call(alloc, unit, session, em, call),
        Call::GetReference { em, .. } => find_call(alloc, unit, session, em, call),
        Call::Contains { em, object } => contains_call(alloc, unit, session, em, object),
        Call::Clear { em } => clear_call(alloc, unit, session, em),
        Call::SetFlushMode { em, mode } => set_flush_mode_call(alloc, unit, session, em, mode),
        Call::Query { em, .. } => query_call(alloc, unit, session, em, call),
        Call::QuerySingle { em, .. } => query_call(alloc, unit, session, em, call),
        Call::ExecuteUpdate {
            em,
            text,
            parameters,
        } => update_call(alloc, unit, session, em, text, parameters),
        Call::Close { em } => close_call(alloc, unit, session, em),
        Call::Values { objects } => values_call(alloc, unit, session, objects.as_slice()),
        Call::Pending { em } => pending_call(alloc, unit, session, em),
        Call::Restart => restart_call(alloc, unit, session),
        Call::Index { entity, name } => {
            index_call(alloc, unit, session, entity.as_str(), name.as_str())
        }
    }
}

/// Serves a call.
fn serve<R: RowSource, B: Behaviour>(
    alloc: Global,
    unit: &ServedUnit<B>,
    session: &mut Session,
    rows: &mut R,
    call: Call,
) -> Reply
    requires { IsServingOver (world_of_unit B.meaning unit.now) R.RowSource session.old rows.old }
    ensures serving { IsServingOver (world_of_unit B.meaning unit.now) R.RowSource
        session.new rows.new }
    ensures step { Serves (world_of_unit B.meaning unit.now) session.old call result session.new }
    ensures changes { ChangesAtMost (machine_of session.old) call result (machine_of session.new) }
    ensures moves { IsSomeMove (world_of_unit B.meaning unit.now) (machine_of session.old) call
        result (machine_of session.new) }
    ensures stores { StoresServing (world_of_unit B.meaning unit.now) R.RowSource session.old call
        result session.new rows.old rows.new }
{
    hands_representable(&call);
    served(alloc, unit, session, rows, call)
}

impl<R: RowSource, B: Behaviour> PersistenceProvider for Provider<R, B> {
    ghost use Rattle.jpa_provider.specs.Provided.{Steps, Stands};

    ghost steps = { λ old call reply new. Steps B.meaning R.RowSource old call reply new };

    ghost stands = { λ provider. Stands B.meaning R.clean R.holds provider };

    fn call(&mut self, call: Call) -> Reply {
        serve(
            self.alloc,
            &self.unit,
            &mut self.session,
            &mut self.rows,
            call,
        )
    }

    ghost kept = { λ old call reply new step stands. step.stands };
}
