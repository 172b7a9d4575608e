//! The object that a main row says.
ghost use Rattle.std.specs.Prelude.{◌≡◌, ◌<◌, ◌↔◌, true, length, Some, IsTrue, IfOk, IfErr};
ghost use Rattle.jpa_value.specs.declared.refusal.Cause.{Cause};
ghost use Rattle.jpa_behaviour.specs.Registered.{world_of};
ghost use Rattle.jpa_stored.specs.declared.objects.stored.Stored as stored;
ghost use Rattle.jpa_object_rows.specs.meaning.Objects as objects;
ghost use Rattle.jpa_object_rows.specs.mapper.Mapped.{IsReadAs, all_pass, no_pairs};

use crate::mapper::guess::{class_in, guessed};
use crate::mapper::main_row::main_row;
use crate::mapper::shape::is_sound;
use jpa_behaviour::{Behaviour, Registry};
use jpa_model::Metamodel;
use jpa_rows::rows::{Row, is_same_row};
use jpa_stored::objects::Stored;
use jpa_value::{Cause, Identity};
use std::alloc::Global;

/// Whether no converter throws for the object's values, and this is its main row.
fn has_main_row<B: Behaviour>(
    alloc: Global,
    metamodel: &Metamodel,
    registry: &Registry<B>,
    object: &Stored,
    row: &Row,
) -> Result<bool, Cause>
    requires { object.now.class < length metamodel.now.entities }
    ensures ok { IfOk result
        (λ b. IsTrue b
        ↔ ((all_pass (world_of B.meaning metamodel.now registry.now) object.now ≡ true)
        × (objects.main_row (world_of B.meaning metamodel.now registry.now) object.now
        ≡ row.now))) }
    ensures err { IfErr result (λ cause. cause ≡ Cause.OutOfMemory) }
{
    match main_row(alloc, metamodel, registry, object) {
        Ok(written) => Ok(is_same_row(written.as_slice(), row.as_slice())),
        Err(Cause::OutOfMemory) => Err(Cause::OutOfMemory),
        Err(_) => Ok(false),
    }
}

/// The object without pairs that has this main row under this identity; none where no object has
/// it: an unknown discriminator, a column that is not one of the class's, a missing version, a
/// wrong kind, a converter's throw.
pub(super) fn main_object<B: Behaviour>(
    alloc: Global,
    metamodel: &Metamodel,
    registry: &Registry<B>,
    id: &Identity,
    row: &Row,
) -> Result<Option<Stored>, Cause>
    ensures read { IfOk result (λ found. (x : stored.Stored) → (found ≡ Some x)
        ↔ IsReadAs (world_of B.meaning metamodel.now registry.now) id.now row.now no_pairs x) }
    ensures err { IfErr result (λ cause. cause ≡ Cause.OutOfMemory) }
{
    let _unit = metamodel.unit();
    registry.laws();
    let Some(class) = class_in(metamodel, id.table, row.as_slice()) else {
        return Ok(None);
    };
    let guess = guessed(alloc, metamodel, registry, class, row.as_slice())?;
    if !is_sound(metamodel, id, &guess) {
        return Ok(None);
    }
    if has_main_row(alloc, metamodel, registry, &guess, row)? {
        Ok(Some(guess))
    } else {
        Ok(None)
    }
}
