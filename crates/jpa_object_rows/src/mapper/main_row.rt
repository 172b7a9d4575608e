//! The main row of an object.
ghost use Rattle.std.specs.Prelude.{◌≡◌, ◌<◌, ◌⊎◌, T, true, false, map, length, IfOk, IfErr, OnOk};
ghost use Rattle.std.specs.FinMap.{put, is_sorted};
ghost use Rattle.std.specs.Ordering.{nat_cmp};
ghost use Rattle.jpa_value.specs.declared.refusal.Cause.{Cause};
ghost use Rattle.jpa_value.specs.declared.refusal.PersistenceFault.{PersistenceFault};
ghost use Rattle.jpa_behaviour.specs.Registered.{world_of};
ghost use Rattle.jpa_object_rows.specs.meaning.Objects as objects;
ghost use Rattle.jpa_object_rows.specs.meaning.Sets.{placed};
ghost use Rattle.jpa_object_rows.specs.mapper.Mapped.{all_pass};

use crate::mapper::places::{Place, places_of};
use jpa_behaviour::{Behaviour, Registry};
use jpa_model::Metamodel;
use jpa_rows::rows::{Field, Row};
use jpa_stored::objects::Stored;
use jpa_value::{Cause, Seq};
use std::alloc::Global;

/// Puts a column in its place among columns that rise, instead of the one of its number, if any.
fn put_field(fields: &mut Vec<Field>, field: Field) -> Result<(), Cause>
    requires { T (is_sorted nat_cmp (placed fields.old.items)) }
    ensures ok { OnOk result (placed fields.new.items
        ≡ put nat_cmp field.column field.content (placed fields.old.items)) }
    ensures err { IfErr result (λ cause. cause ≡ Cause.OutOfMemory) }
{
    match fields
        .as_slice()
        .binary_search_by_key(&field.column, |other| other.column)
    {
        Ok(at) => fields[at] = field,
        Err(at) => fields.insert(at, field)?,
    }
    Ok(())
}

/// The columns that hold something, rising. Where a column stands twice, the first counts.
fn row_of_places(alloc: Global, places: Seq<Place>) -> Result<Row, Cause>
    ensures ok { IfOk result (λ row. row ≡ objects.row_of_places places) }
    ensures err { IfErr result (λ cause. cause ≡ Cause.OutOfMemory) }
{
    let mut fields = Vec::new(alloc);
    let mut left = places.into_vec();
    while let Some((column, content)) = left.pop() {
        if let Some(content) = content {
            put_field(&mut fields, Field { column, content })?;
        }
    }
    Ok(Seq::of(fields))
}

/// The main row of an object of this metamodel: in column 0 the discriminator of its class, and the
/// version, the attributes and the owned to-one relations in theirs; null has no column.
///
/// A converter's throw is `Persistence(converter)`.
pub(super) fn main_row<B: Behaviour>(
    alloc: Global,
    metamodel: &Metamodel,
    registry: &Registry<B>,
    object: &Stored,
) -> Result<Row, Cause>
    requires class { object.now.class < length metamodel.now.entities }
    ensures ok { IfOk result (λ row. row ≡ objects.main_row
        (world_of B.meaning metamodel.now registry.now) object.now) }
    ensures passed { OnOk result (all_pass (world_of B.meaning metamodel.now registry.now)
        object.now ≡ true) }
    ensures err { IfErr result (λ cause. (cause ≡ Cause.OutOfMemory)
        ⊎ ((cause ≡ Cause.Persistence PersistenceFault.Converter)
        × (all_pass (world_of B.meaning metamodel.now registry.now) object.now ≡ false))) }
{
    row_of_places(alloc, places_of(alloc, metamodel, registry, object)?)
}
