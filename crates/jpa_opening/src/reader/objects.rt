//! The objects that rows say.
ghost use Rattle.std.specs.Prelude.{◌≡◌, IfOk, IfErr, OnOk};
ghost use Rattle.jpa_value.specs.declared.refusal.Cause.{Cause};
ghost use Rattle.jpa_behaviour.specs.Registered.{world_of};
ghost use Rattle.jpa_rows.specs.rows.Tables.{schema_of};
ghost use Rattle.jpa_object_rows.specs.meaning.Raw.{AreRowsOf, AreWhole};
ghost use Rattle.jpa_opening.specs.reader.Read.{with_meaning, AreRead};

use crate::reader::meaning::{Meaning, meaning_of};
use jpa_behaviour::{Behaviour, Registry};
use jpa_model::Metamodel;
use jpa_object_rows::mapper::discriminator_law;
use jpa_rows::rows::{Row, RowId};
use jpa_stored::objects::StoredSet;
use jpa_value::{Cause, TryCopy};
use std::alloc::Global;

/// The objects that rows say, or the place of the first damaged one.
#[derive(Drop)]
pub(super) enum Objects {
    Set(StoredSet),
    Damaged(usize),
}

/// Puts the object that a row says.
fn put_meaning(set: &mut StoredSet, id: &RowId, meaning: Meaning) -> Result<(), Cause>
    ensures ok { OnOk result (set.new ≡ with_meaning id.now meaning set.old) }
    ensures err { IfErr result (λ cause. cause ≡ Cause.OutOfMemory) }
{
    match meaning {
        Meaning::Object(object) => set.put(id.try_copy()?, object),
        Meaning::Pair | Meaning::Number | Meaning::Revision => Ok(()),
    }
}

/// The objects of these rows, where each is sound.
pub(super) fn objects_of<B: Behaviour>(
    alloc: Global,
    metamodel: &Metamodel,
    registry: &Registry<B>,
    rows: &[(RowId, Row)],
) -> Result<Objects, Cause>
    requires named { AreRowsOf (schema_of metamodel.now) rows.now }
    requires whole { AreWhole (schema_of metamodel.now) rows.now }
    ensures read { IfOk result (AreRead (world_of B.meaning metamodel.now registry.now) rows.now) }
    ensures err { IfErr result (λ cause. cause ≡ Cause.OutOfMemory) }
{
    // what reading rests on
    metamodel.unit();
    registry.laws();
    discriminator_law(metamodel);
    let mut set = StoredSet::new(alloc);
    for (place, (id, row)) in rows.iter().enumerate() {
        match meaning_of(alloc, metamodel, registry, id, row, rows)? {
            None => return Ok(Objects::Damaged(place)),
            Some(meaning) => put_meaning(&mut set, id, meaning)?,
        }
    }
    Ok(Objects::Set(set))
}
