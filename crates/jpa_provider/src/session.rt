//! What stands between calls.
ghost use Rattle.std.specs.Prelude.{◌≡◌, ◌<◌, length, slice_set};
ghost use Rattle.jpa_open.specs.Opened.{Away, begun_over, no_layers, seen_over};
ghost use Rattle.jpa_provider.specs.Serving.{manager_in};
ghost use Rattle.jpa_provider.specs.Turns.{HaveTurned};
ghost use Rattle.jpa_provider.specs.declared.session.Status.{Status};

use jpa_open::{OpenSet, TransactionLayers};
use jpa_protocol::FlushMode;
use jpa_value::Seq;
use jpa_work::context::{Entry, Marks, PersistenceContext, UnitOfWork};
use std::alloc::Global;
use std::mem;

/// The resource transaction of an entity manager (Jakarta Persistence 3.1, chapter 7.5).
#[derive(Clone, Copy)]
pub enum Status {
    /// The manager is closed: its number names none.
    Closed,
    /// None is open.
    Inactive,
    Active,
    /// A transaction that can only roll back.
    RollbackOnly,
}

impl Status {
    ghost use Rattle.std.specs.Prelude.{◌≡◌};
    ghost use Rattle.jpa_provider.specs.Serving.{is_begun_status, is_open_status};

    /// Whether the manager is open.
    pub fn is_open(self) -> bool
        ensures { result ≡ is_open_status self }
    {
        !matches!(self, Status::Closed)
    }

    /// Whether a transaction is open.
    pub fn is_begun(self) -> bool
        ensures { result ≡ is_begun_status self }
    {
        matches!(self, Status::Active | Status::RollbackOnly)
    }
}

/// An entity manager: its transaction, its flush mode, its persistence context, and the layers of
/// its transaction (chapters 7.2 and 3.10.8). While it is at work its context stands in the
/// session's unit of work, and so do its layers where its transaction is open.
#[derive(Drop)]
pub struct EntityManager {
    pub status: Status,
    pub mode: FlushMode,
    pub context: PersistenceContext,
    pub layers: TransactionLayers,
}

/// The managers, what they work on, and the next numbers that were last stored. Contracts see the
/// machine that it stands for.
///
/// Each open manager may have a transaction open; the open ones stand at `open_places`, which rise.
/// Between calls the view of the unit of work shows what is committed.
#[derive(Drop)]
pub struct Session {
    pub managers: Vec<EntityManager>,
    pub open_places: Vec<usize>,
    pub work: UnitOfWork,
    pub stored: Seq<u64>,
}

/// The state of the manager's transaction.
pub(crate) fn status_of(managers: &Vec<EntityManager>, manager: usize) -> Status
    requires { manager < length managers.now.items }
    ensures { result ≡ (manager_in managers.now.items manager).status }
{
    managers[manager].status
}

/// The manager's persistence context, while it isn't at work.
pub(crate) fn context_of(managers: &Vec<EntityManager>, manager: usize) -> &[Entry]
    requires { manager < length managers.now.items }
    ensures { result.now ≡ (manager_in managers.now.items manager).context.now }
{
    managers[manager].context.as_slice()
}

/// The manager's context and another one change places. Takes no memory.
pub(crate) fn exchange(
    managers: &mut Vec<EntityManager>,
    manager: usize,
    context: &mut PersistenceContext,
)
    requires { manager < length managers.old.items }
    ensures managers { managers.new.items ≡ slice_set managers.old.items manager
        (record (manager_in managers.old.items manager) { context = context.old }) }
    ensures context { context.new ≡ (manager_in managers.old.items manager).context }
{
    mem::swap(&mut managers[manager].context, context);
}

/// The manager's layers and those at work change places; what was written in the call is undone
/// before. Takes no memory.
pub(crate) fn exchange_layers(managers: &mut Vec<EntityManager>, manager: usize, view: &mut OpenSet)
    requires { manager < length managers.old.items }
    ensures managers { (layers : Away) × (managers.new.items ≡ slice_set managers.old.items manager
        (record (manager_in managers.old.items manager) { layers = layers }))
        × (begun_over layers view.old.committed ≡ view.old.begun)
        × (seen_over layers view.old.committed ≡ view.old.kept) }
    ensures committed { view.new.committed ≡ view.old.committed }
    ensures begun { view.new.begun
        ≡ begun_over (manager_in managers.old.items manager).layers view.old.committed }
    ensures kept { view.new.kept
        ≡ seen_over (manager_in managers.old.items manager).layers view.old.committed }
    ensures seen { view.new.seen ≡ view.new.kept }
{
    view.exchange(&mut managers[manager].layers);
}

/// The same where the manager's transaction is open: one without a transaction works on what is
/// committed. Takes no memory.
pub(crate) fn exchange_if_begun(
    managers: &mut Vec<EntityManager>,
    manager: usize,
    view: &mut OpenSet,
)
    requires { manager < length managers.old.items }
    ensures { HaveTurned managers.old.items manager view.old managers.new.items view.new }
{
    if status_of(managers, manager).is_begun() {
        exchange_layers(managers, manager, view);
    }
}

/// The manager's transaction is over, and so are its layers. Takes no memory.
pub(crate) fn end_transaction(alloc: Global, managers: &mut Vec<EntityManager>, manager: usize)
    requires { manager < length managers.old.items }
    ensures { managers.new.items ≡ slice_set managers.old.items manager
        (record (manager_in managers.old.items manager)
        { status = Status.Inactive; layers = no_layers }) }
{
    let ended = &mut managers[manager];
    ended.status = Status::Inactive;
    ended.layers = TransactionLayers::new(alloc);
}

/// The manager's transaction is in another state. Takes no memory.
pub(crate) fn set_status(managers: &mut Vec<EntityManager>, manager: usize, status: Status)
    requires { manager < length managers.old.items }
    ensures { managers.new.items ≡ slice_set managers.old.items manager
        (record (manager_in managers.old.items manager) { status = status }) }
{
    managers[manager].status = status;
}

/// The manager's context has other marks. Takes no memory.
pub(crate) fn set_marks(managers: &mut Vec<EntityManager>, manager: usize, marks: Marks)
    requires { manager < length managers.old.items }
    ensures set { managers.new.items ≡ slice_set managers.old.items manager
        (record (manager_in managers.old.items manager)
        { context = (manager_in managers.new.items manager).context }) }
    ensures entries { (manager_in managers.new.items manager).context.now
        ≡ (manager_in managers.old.items manager).context.now }
    ensures marks { (manager_in managers.new.items manager).context.marks ≡ marks }
{
    managers[manager].context.mark(marks);
}

/// The manager's flush mode.
pub(crate) fn mode_of(managers: &Vec<EntityManager>, manager: usize) -> FlushMode
    requires { manager < length managers.now.items }
    ensures { result ≡ (manager_in managers.now.items manager).mode }
{
    managers[manager].mode
}

/// The manager has another flush mode. Takes no memory.
pub(crate) fn set_mode(managers: &mut Vec<EntityManager>, manager: usize, mode: FlushMode)
    requires { manager < length managers.old.items }
    ensures { managers.new.items ≡ slice_set managers.old.items manager
        (record (manager_in managers.old.items manager) { mode = mode }) }
{
    managers[manager].mode = mode;
}
