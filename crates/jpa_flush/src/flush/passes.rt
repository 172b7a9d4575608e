//! The passes of a flush over the entries that it looks at, found anew where the pass before may
//! have touched others.
ghost use Rattle.jpa_behaviour.specs.Behaviour.{World};
ghost use Rattle.jpa_behaviour.specs.Served.{world_of_unit};
ghost use Rattle.jpa_work.specs.context.Steps.{Meets};
ghost use Rattle.jpa_work.specs.context.Undo.{now};
ghost use Rattle.jpa_operations.specs.fetch.Grown.{IsReady};
ghost use Rattle.jpa_operations.specs.fetch.Orderly.{IsOrderly};
ghost use Rattle.jpa_flush.specs.flush.Flush as flushes;
ghost use Rattle.jpa_flush.specs.flush.Marked as marked;
ghost use Rattle.jpa_flush.specs.flush.Passes.{Passes};

use crate::flush::chosen::Looked;
use crate::flush::links::check_links;
use crate::flush::reaching::persist_reachable;
use crate::flush::touched::looked;
use crate::flush::walking::{check_links_at, persist_from_looked, remove_orphans_at};
use jpa_behaviour::{Behaviour, ServedUnit};
use jpa_model::Metamodel;
use jpa_value::Cause;
use jpa_work::context::UnitOfWork;
use std::alloc::Global;

/// `persist_reachable`, which looks at each entry only where one that is marked leads to an object
/// that is not managed, or where marks don't say to what the others lead.
pub(super) fn persist_looked<B: Behaviour>(
    alloc: Global,
    unit: &ServedUnit<B>,
    work: &mut UnitOfWork,
) -> Result<(), Cause>
    requires orderly { IsOrderly unit.now.metamodel }
    requires ready { IsReady unit.now.metamodel (now work.old) }
    requires marked { marked.IsMarked unit.now.metamodel work.old }
    ensures { let world = world_of_unit B.meaning unit.now in
        Passes unit.now.metamodel (flushes.persist_reachable world) result work.old work.new }
{
    let found = looked(alloc, &unit.metamodel, work)?;
    if found.linked {
        return persist_from_looked(alloc, unit, work, found.places.as_slice());
    }
    persist_reachable(alloc, unit, work)
}

/// `remove_orphans`, which looks at each entry only where one of those that are marked or were
/// touched has an orphan.
pub(super) fn remove_orphans_looked<B: Behaviour>(
    alloc: Global,
    unit: &ServedUnit<B>,
    work: &mut UnitOfWork,
) -> Result<(), Cause>
    requires ready { IsReady unit.now.metamodel (now work.old) }
    requires marked { marked.AreMarkedBefore unit.now.metamodel work.old }
    ensures { let world = world_of_unit B.meaning unit.now in
        Passes unit.now.metamodel (flushes.remove_orphans world) result work.old work.new }
{
    let found = looked(alloc, &unit.metamodel, work)?;
    remove_orphans_at(alloc, unit, work, found.places.as_slice())
}

/// `check_links`, which looks at the entries elsewhere only where it is not known to what they
/// lead. Takes no memory.
pub(super) fn check_links_looked(
    metamodel: &Metamodel,
    work: &UnitOfWork,
    found: &Looked,
) -> Result<(), Cause>
    requires ready { IsReady metamodel.now (now work.now) }
    requires looked { marked.AreLooked (marked.IsUntouched metamodel.now (now work.now)
        found.now.linked) work.now.context.now found.now.places }
    ensures meets { (world : World) → Meets result (now work.now)
        (flushes.check_links (record world { model = metamodel.now }) (now work.now)) }
{
    if found.linked {
        return check_links_at(metamodel, work, found.places.as_slice());
    }
    check_links(metamodel, work)
}
