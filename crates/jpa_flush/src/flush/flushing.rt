//! The flush of a manager's context.
ghost use Rattle.std.specs.Prelude.{◌≡◌, true};
ghost use Rattle.jpa_behaviour.specs.Served.{world_of_unit};
ghost use Rattle.jpa_work.specs.context.Steps.{Meets};
ghost use Rattle.jpa_work.specs.context.Undo.{now, since};
ghost use Rattle.jpa_flush.specs.flush.Changes.{IsWritable};
ghost use Rattle.jpa_flush.specs.flush.Flush as flushes;
ghost use Rattle.jpa_flush.specs.flush.Marked as marked;
ghost use Rattle.jpa_flush.specs.flush.Passes.{IsFlushable, Performs};
ghost use Rattle.jpa_flush.specs.flush.Plan as plans;

use crate::flush::judging::judge_written;
use crate::flush::passes::{check_links_looked, persist_looked, remove_orphans_looked};
use crate::flush::settling::settle;
use crate::flush::telling::tell_written;
use crate::flush::touched::looked;
use crate::flush::walking::{plan_at, remember_at, tell_updates_at};
use crate::flush::writing::write_all;
use jpa_behaviour::{Behaviour, ServedUnit};
use jpa_value::Cause;
use jpa_work::context::UnitOfWork;
use std::alloc::Global;

/// Checks and writes what the objects of a context differ in from the set, as they are after
/// PreUpdate, and tells of it; nothing is written of the entries at other places.
///
/// Objects and entries settle before the set is written and judged: what they remember is what they
/// hold, of whatever set, and what was changed is undone where the new set is refused.
fn write_changes<B: Behaviour>(
    alloc: Global,
    unit: &ServedUnit<B>,
    work: &mut UnitOfWork,
    places: &[usize],
) -> Result<(), Cause>
    requires writable { IsWritable unit.now.metamodel (now work.old) }
    requires looked { marked.AreLooked (λ e. marked.is_calm unit.now.metamodel (now work.old) e
        ≡ true) work.old.context.now places.now }
    ensures meets { let world = world_of_unit B.meaning unit.now in
        Meets result (now work.new) (plans.writing world (now work.old)) }
    ensures since { since work.new ≡ since work.old }
{
    let plan = plan_at(alloc, unit, work, places)?;
    settle(alloc, &unit.metamodel, work, plan.as_slice())?;
    remember_at(alloc, &unit.metamodel, work, places, plan.as_slice())?;
    let written = write_all(alloc, work, plan)?;
    judge_written(alloc, &unit.metamodel, work, written.as_slice())?;
    tell_written(alloc, unit, work, written.as_slice())
}

/// Writes what the objects of a manager's context differ in from the set that it sees, and takes
/// out the rows of removed ones (Jakarta Persistence 3.1, chapters 2.9, 3.2.3, 3.2.4, 3.4 and 3.5).
/// What managed objects lead to along relations that cascade persist becomes managed before, and
/// the orphans of managed objects are removed. The work sees the new set then.
///
/// What persisting, loading and removing refuse; `IllegalState(reference)` where a managed object
/// leads to a new or a removed one along a relation that doesn't cascade persist; `EntityExists`
/// where an object that is new to the set has the identity of one in it; `OptimisticLock` where the
/// set has not the version that a changed or a removed object was loaded with;
/// `Persistence(version)` where a version can't rise; `Persistence(converter)` where a converter
/// throws; `Persistence` with `Null`, `Reference` or `Unique` where the new set would not be sound;
/// `Listener` with its text where a listener or callback throws, and `Persistence(callback)` where
/// one assigns what is not allowed; `OutOfMemory` where a growth was refused. What a refused call
/// changed is undone by `UnitOfWork::undo`.
///
/// It looks at the entries of marked objects and of what was touched since the call began, and what
/// these objects hold; at each entry where one of them leads to an object that is to be persisted,
/// or has an orphan, and where marks don't say to what the others lead. Of the set it looks at what
/// it writes, at what that leads to, and at what leads to what it takes out.
pub fn flush<B: Behaviour>(
    alloc: Global,
    unit: &ServedUnit<B>,
    work: &mut UnitOfWork,
) -> Result<(), Cause>
    requires { IsFlushable unit.now.metamodel work.old }
    ensures meets { Meets result (now work.new)
        (flushes.flush (world_of_unit B.meaning unit.now) (now work.old)) }
    ensures since { since work.new ≡ since work.old }
{
    persist_looked(alloc, unit, work)?;
    remove_orphans_looked(alloc, unit, work)?;
    let found = looked(alloc, &unit.metamodel, work)?;
    check_links_looked(&unit.metamodel, work, &found)?;
    let places = found.places.as_slice();
    tell_updates_at(alloc, unit, work, places)?;
    write_changes(alloc, unit, work, places)
}

/// The flush before a query or a bulk statement, where there is one: in a transaction under flush
/// mode AUTO (chapter 3.10.8). Refused as `flush` is.
pub fn flush_if<B: Behaviour>(
    alloc: Global,
    unit: &ServedUnit<B>,
    work: &mut UnitOfWork,
    is_due: bool,
) -> Result<(), Cause>
    requires { IsFlushable unit.now.metamodel work.old }
    ensures { let world = world_of_unit B.meaning unit.now in
        Performs (flushes.flush_if is_due world) result work.old work.new }
{
    if is_due {
        flush(alloc, unit, work)
    } else {
        Ok(())
    }
}
