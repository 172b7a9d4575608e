//! The rows of an object, and of a next number.
ghost use Rattle.std.specs.Prelude.{◌≡◌, ◌<◌, ◌^◌, ◌⊎◌, true, false, IfOk, IfErr, OnOk};
ghost use Rattle.jpa_value.specs.declared.refusal.Cause.{Cause};
ghost use Rattle.jpa_value.specs.declared.refusal.PersistenceFault.{PersistenceFault};
ghost use Rattle.jpa_behaviour.specs.Registered.{world_of};
ghost use Rattle.jpa_stored.specs.objects.Sets.{is_shaped};
ghost use Rattle.jpa_object_rows.specs.meaning.View.{is_storable};
ghost use Rattle.jpa_object_rows.specs.meaning.Objects as objects;
ghost use Rattle.jpa_object_rows.specs.mapper.Mapped.{all_pass};

use crate::mapper::main_row::main_row;
use crate::mapper::pair_rows::{number_in_first, push_pairs_along};
use jpa_behaviour::{Behaviour, Registry};
use jpa_model::Metamodel;
use jpa_rows::rows::{Row, RowId, identity_is_representable, object_is_representable};
use jpa_stored::objects::Stored;
use jpa_value::{Cause, Identity, Key, Seq, TryCopy, Value};
use std::alloc::Global;

/// The rows of an object: first its main row, under its identity, then a row of the join table for
/// each pair that it owns, relation by relation.
///
/// A converter's throw is `Persistence(converter)`.
pub fn to_rows<B: Behaviour>(
    alloc: Global,
    metamodel: &Metamodel,
    registry: &Registry<B>,
    id: &Identity,
    object: &Stored,
) -> Result<Seq<(RowId, Row)>, Cause>
    requires shaped { is_shaped metamodel.now id.now object.now ≡ true }
    ensures ok { IfOk result (λ rows. rows ≡ objects.object_entries
        (world_of B.meaning metamodel.now registry.now) id.now object.now) }
    ensures storable { OnOk result (is_storable (world_of B.meaning metamodel.now registry.now)
        id.now object.now ≡ true) }
    ensures err { IfErr result (λ cause. (cause ≡ Cause.OutOfMemory)
        ⊎ ((cause ≡ Cause.Persistence PersistenceFault.Converter)
        × (all_pass (world_of B.meaning metamodel.now registry.now) object.now ≡ false))) }
{
    identity_is_representable(id);
    object_is_representable(object);
    let main = main_row(alloc, metamodel, registry, object)?;
    let mut rows = Seq::new(alloc);
    rows.push((id.try_copy()?, main))?;
    let relations = metamodel.relations_of(object.class);
    push_pairs_along(&mut rows, id, relations, object.owned.as_slice())?;
    Ok(rows)
}

/// The row of a hierarchy's next number, in table 0 under the number of its table.
pub fn number_row(alloc: Global, table: u32, next: u64) -> Result<(RowId, Row), Cause>
    requires { next < 2 ^ 63 }
    ensures ok { IfOk result (λ row. row ≡ (objects.number_id table, objects.number_row next)) }
    ensures err { IfErr result (λ cause. cause ≡ Cause.OutOfMemory) }
{
    let mut key = Key::new(alloc);
    key.push(Value::Int(i64::from(table)))?;
    let row = number_in_first(alloc, next)?;
    Ok((RowId { table: 0, key }, row))
}
