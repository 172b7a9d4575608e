//! The opening of a provider.
ghost use Rattle.std.specs.Prelude.{◌≡◌, ◌≢◌, ◌⊎◌, true, false, Err, IsErr, IfOk, IfErr};
ghost use Rattle.jpa_value.specs.declared.refusal.Cause.{Cause};
ghost use Rattle.jpa_value.specs.declared.refusal.MappingFault.{MappingFault};
ghost use Rattle.jpa_behaviour.specs.Served.{world_of_unit};
ghost use Rattle.jpa_cells.specs.meaning.Store.{IsOrderedIfFound};
ghost use Rattle.jpa_json.specs.functions.Known as known;
ghost use Rattle.jpa_opening.specs.migration.Migration.{defaults_pass};
ghost use Rattle.jpa_program.specs.Opening.{AreOver, HasCommitted, OpensDatabase, KeepsOrMakes, KeepsOrOpens, RefusesRows, RefusesOpening};
ghost use Rattle.jpa_program.specs.Run.{ServesUnit};

use jpa_behaviour::{Behaviour, ServedUnit};
use jpa_cells::cells::CellStore;
use jpa_cells::rowspace::RowSpace;
use jpa_description::history::History;
use jpa_json::functions::names_are_known;
use jpa_model::Metamodel;
use jpa_opening::migration::defaults_pass;
use jpa_opening::reader::{Committed, open_store};
use jpa_provider::Provider;
use jpa_rows::rows::Schema;
use jpa_value::{Cause, MappingFault};
use sqlite::{Alter, Connection};
use std::alloc::Global;

/// The rows of a metamodel over the cells of a database, which are not read yet.
fn rows_over<S: Alter + Drop>(
    alloc: Global,
    conn: Connection<S>,
    metamodel: &Metamodel,
) -> Result<RowSpace<S>, (Cause, Connection<S>)>
    requires ordered { IsOrderedIfFound S.Store conn }
    ensures made { IfOk result (AreOver S.Store metamodel.now conn) }
    ensures refused { IfErr result (RefusesRows S.Store conn) }
{
    let schema = match Schema::of(alloc, metamodel) {
        Ok(schema) => schema,
        Err(cause) => return Err((cause, conn)),
    };
    match CellStore::open(alloc, conn) {
        Ok(store) => Ok(RowSpace::new(alloc, store, schema)),
        Err(refused) => Err(refused),
    }
}

/// Refuses a name that the registry lacks, and then a default for which its converter throws.
fn check_functions<B: Behaviour>(unit: &ServedUnit<B>, history: &History) -> Result<(), Cause>
    ensures unknown { known.names_are_known unit.now.registry unit.now.metamodel ≡ false
        → result ≡ Err (Cause.Mapping MappingFault.Function) }
    ensures thrown { known.names_are_known unit.now.registry unit.now.metamodel ≡ true
        → defaults_pass (world_of_unit B.meaning unit.now) history.now ≡ false →
        IfErr result (λ cause. (cause ≡ Cause.Mapping MappingFault.Function)
        ⊎ (cause ≡ Cause.OutOfMemory)) × IsErr result }
    ensures memory { known.names_are_known unit.now.registry unit.now.metamodel ≡ true
        → defaults_pass (world_of_unit B.meaning unit.now) history.now ≡ true →
        IfErr result (λ cause. cause ≡ Cause.OutOfMemory) }
    ensures fault { IfErr result (λ cause. cause ≢ Cause.StoreFault) }
{
    if !names_are_known(&unit.metamodel, &unit.registry)
        || !defaults_pass(&unit.metamodel, &unit.registry, history)?
    {
        return Err(Cause::Mapping(MappingFault::Function));
    }
    Ok(())
}

/// The rows of a metamodel over the cells of a database, and what they stand for. A database that
/// is empty gets the table of cells, and is held to have no object. A store of revision 1 that a
/// unit of revision 2 opens is migrated, in one commit. The store counts one SELECT for each table
/// of the metamodel, the statements of that commit, no other statement and no fault. Refused, it
/// hands the connection back, with the tables as they were.
///
/// `Mapping(function)` where the metamodel names a listener, callback or converter that the
/// registry lacks, and then where a converter throws for a default, before the store is looked at.
/// Then `OutOfMemory` where a growth was refused, `StoreFault` where the database holds anything
/// else than cells, where the connection is in a transaction and where the store fails, and
/// `Damaged` with its place where the cells of the metamodel's tables, as they are to be, stand for
/// no set of objects.
pub fn open_rows<S: Alter + Drop, B: Behaviour>(
    alloc: Global,
    conn: Connection<S>,
    unit: &ServedUnit<B>,
    history: &History,
) -> Result<(RowSpace<S>, Committed), (Cause, Connection<S>)>
    requires ordered { IsOrderedIfFound S.Store conn }
    ensures committed { IfOk result (λ o. HasCommitted S.Store
        (world_of_unit B.meaning unit.now) o.0 o.1) }
    ensures opened { IfOk result (λ o. OpensDatabase S.Store
        (world_of_unit B.meaning unit.now) history.now conn o.0.store) }
    ensures unknown { known.names_are_known unit.now.registry unit.now.metamodel ≡ false
        → result ≡ Err (Cause.Mapping MappingFault.Function, conn) }
    ensures thrown { known.names_are_known unit.now.registry unit.now.metamodel ≡ true
        → defaults_pass (world_of_unit B.meaning unit.now) history.now ≡ false → (result
        ≡ Err (Cause.Mapping MappingFault.Function, conn))
        ⊎ (result ≡ Err (Cause.OutOfMemory, conn)) }
    ensures refused { IfErr result (RefusesOpening S.Store B.meaning unit.now history.now
        (λ _. KeepsOrMakes S.Store conn) conn) }
{
    if let Err(cause) = check_functions(unit, history) {
        return Err((cause, conn));
    }
    let mut space = match rows_over(alloc, conn, &unit.metamodel) {
        Ok(space) => space,
        Err(refused) => return Err(refused),
    };
    match open_store(alloc, &unit.metamodel, &unit.registry, history, &mut space) {
        Ok(committed) => Ok((space, committed)),
        Err(cause) => Err((cause, space.store.into_connection())),
    }
}

/// A provider of a metamodel over the cells of a database, with what they stand for committed: no
/// object lives and no manager was made. A database that is empty gets the table of cells, and is
/// held to have no object. A store of revision 1 that a unit of revision 2 opens is migrated, in
/// one commit. The store counts one SELECT for each table of the metamodel, the statements of that
/// commit, no other statement and no fault. Refused, it hands the connection back, with the tables
/// as they were, or as they were migrated where memory was refused after the commit.
///
/// `Mapping(function)` where the metamodel names a listener, callback or converter that the
/// registry lacks, and then where a converter throws for a default, before the store is looked at.
/// Then `OutOfMemory` where a growth was refused, `StoreFault` where the database holds anything
/// else than cells, where the connection is in a transaction and where the store fails, and
/// `Damaged` with its place where the cells of the metamodel's tables, as they are to be, stand for
/// no set of objects.
pub fn open<S: Alter + Drop, B: Behaviour>(
    alloc: Global,
    conn: Connection<S>,
    unit: ServedUnit<B>,
    history: &History,
) -> Result<Provider<RowSpace<S>, B>, (Cause, Connection<S>)>
    requires ordered { IsOrderedIfFound S.Store conn }
    ensures provider { IfOk result (ServesUnit S.Store B.meaning unit) }
    ensures opened { IfOk result (λ provider. OpensDatabase S.Store
        (world_of_unit B.meaning unit) history.now conn (provider.rows).store) }
    ensures unknown { known.names_are_known unit.registry unit.metamodel ≡ false
        → result ≡ Err (Cause.Mapping MappingFault.Function, conn) }
    ensures thrown { known.names_are_known unit.registry unit.metamodel ≡ true
        → defaults_pass (world_of_unit B.meaning unit) history.now ≡ false → (result
        ≡ Err (Cause.Mapping MappingFault.Function, conn))
        ⊎ (result ≡ Err (Cause.OutOfMemory, conn)) }
    ensures refused { IfErr result (RefusesOpening S.Store B.meaning unit history.now
        (KeepsOrOpens S.Store (world_of_unit B.meaning unit) history.now conn) conn) }
{
    let (space, committed) = match open_rows(alloc, conn, &unit, history) {
        Ok(opened) => opened,
        Err(refused) => return Err(refused),
    };
    let Committed { set, numbers } = committed;
    match Provider::new(alloc, unit, space, set, numbers) {
        Ok(provider) => Ok(provider),
        Err((cause, space)) => Err((cause, space.store.into_connection())),
    }
}
