//! What a query answers of its rows.
ghost use Rattle.std.specs.Prelude.{◌≡◌, OnOk};
ghost use Rattle.jpa_behaviour.specs.Served.{world_of_unit};
ghost use Rattle.jpa_work.specs.context.Steps.{Meets};
ghost use Rattle.jpa_work.specs.context.Undo.{now, since};
ghost use Rattle.jpa_operations.specs.fetch.Grown.{IsReady};
ghost use Rattle.jpa_operations.specs.fetch.Members.{collect};
ghost use Rattle.jpa_flush.specs.flush.Passes.{Performs};
ghost use Rattle.jpa_queries.specs.Queries as queries;

use jpa_behaviour::{Behaviour, ServedUnit};
use jpa_operations::fetch::reach;
use jpa_protocol::Item;
use jpa_value::{Cause, Seq};
use jpa_work::context::UnitOfWork;
use jpql_meaning::eval::Datum;
use std::alloc::Global;

/// An item of a row (Jakarta Persistence 3.1, chapter 4.9): a value, or the context's instance of
/// an entity, loaded where there is none. `EntityNotFound` where it isn't in the set either, and
/// what `load` refuses.
fn item_of<B: Behaviour>(
    alloc: Global,
    unit: &ServedUnit<B>,
    work: &mut UnitOfWork,
    datum: Datum,
) -> Result<Item, Cause>
    requires ready { IsReady unit.now.metamodel (now work.old) }
    ensures meets { let world = world_of_unit B.meaning unit.now in
        Meets result (now work.new) (queries.item_of world datum (now work.old)) }
    ensures ready { OnOk result (IsReady unit.now.metamodel (now work.new)) }
    ensures since { since work.new ≡ since work.old }
{
    match datum {
        Datum::Plain(value) => Ok(Item::Value(value)),
        Datum::Entity(id) => {
            let place = reach(alloc, unit, work, &id)?;
            // An object's number, one more than its place, is at most the count.
            let _count = work.objects.len();
            Ok(Item::Object(place as u64 + 1))
        }
    }
}

/// The items of a row, in its order; what the row has is moved. Refused as `item_of` is, at the
/// first that is refused.
pub(crate) fn row_of<B: Behaviour>(
    alloc: Global,
    unit: &ServedUnit<B>,
    work: &mut UnitOfWork,
    row: Seq<Datum>,
) -> Result<Seq<Item>, Cause>
    requires ready { IsReady unit.now.metamodel (now work.old) }
    ensures meets { let world = world_of_unit B.meaning unit.now in
        Meets result (now work.new) (queries.row_of world row (now work.old)) }
    ensures ready { OnOk result (IsReady unit.now.metamodel (now work.new)) }
    ensures since { since work.new ≡ since work.old }
{
    let mut items = Vec::with_capacity(alloc, row.len())?;
    for datum in row.into_vec() {
        let item = item_of(alloc, unit, work, datum)?;
        items.push(item)?;
    }
    Ok(Seq::of(items))
}

/// The rows, in their order; each is let go once its items are there, so that the next finds its
/// memory. Refused as `row_of` is, at the first that is refused.
pub(crate) fn rows_of<B: Behaviour>(
    alloc: Global,
    unit: &ServedUnit<B>,
    work: &mut UnitOfWork,
    rows: Seq<Seq<Datum>>,
) -> Result<Seq<Seq<Item>>, Cause>
    requires ready { IsReady unit.now.metamodel (now work.old) }
    ensures { let world = world_of_unit B.meaning unit.now in
        Performs (collect (queries.row_of world) rows) result work.old work.new }
{
    let mut found = Vec::with_capacity(alloc, rows.len())?;
    for row in rows.into_vec() {
        let items = row_of(alloc, unit, work, row)?;
        found.push(items)?;
    }
    Ok(Seq::of(found))
}
