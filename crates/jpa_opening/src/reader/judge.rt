//! Rows, judged.
ghost use Rattle.std.specs.Prelude.{◌≡◌, ◌↔◌, IsTrue, IfOk, IfErr};
ghost use Rattle.jpa_value.specs.declared.refusal.Cause.{Cause};
ghost use Rattle.jpa_behaviour.specs.Registered.{world_of};
ghost use Rattle.jpa_stored.specs.objects.Sets.{IsSound};
ghost use Rattle.jpa_rows.specs.rows.Rows.{AreRising};
ghost use Rattle.jpa_rows.specs.rows.Tables.{schema_of};
ghost use Rattle.jpa_object_rows.specs.meaning.Raw.{AreRowsOf, AreWhole, AreFilled};
ghost use Rattle.jpa_opening.specs.reader.Judged.{IsJudged};
ghost use Rattle.jpa_opening.specs.reader.Read.{AreOfClasses};
ghost use Rattle.jpa_opening.specs.reader.Together.{StandTogether};

use crate::reader::keys::are_keys_given;
use crate::reader::next_numbers::{is_marked, next_numbers};
use crate::reader::objects::{Objects, objects_of};
use crate::reader::owners::are_owned;
use jpa_behaviour::{Behaviour, Registry};
use jpa_model::Metamodel;
use jpa_object_rows::mapper::discriminator_law;
use jpa_rows::rows::{Row, RowId};
use jpa_stored::objects::{StoredSet, integrity};
use jpa_value::{Cause, Seq};
use std::alloc::Global;

/// What a store's cells stand for.
#[derive(Drop)]
pub struct Committed {
    /// The stored objects.
    pub set: StoredSet,
    /// For each entity the next number of its generated keys where it is a root that has them, 1
    /// for any other.
    pub numbers: Seq<u64>,
}

/// What the rows of a store are.
#[derive(Drop)]
pub(super) enum Judged {
    /// Those of a set and of next numbers.
    Held(Committed),
    /// The row at this place is damaged, and none before it.
    Damaged(usize),
    /// None is damaged, and yet they are those of no set: it is not sound, or an owner is missing,
    /// or a generated key is not below its next number, or the revision has no row.
    Unsound,
}

/// Whether a set is sound.
fn is_sound(metamodel: &Metamodel, set: &StoredSet) -> Result<bool, Cause>
    ensures sound { IfOk result (λ sound. IsTrue sound ↔ IsSound metamodel.now set.now) }
    ensures err { IfErr result (λ cause. cause ≡ Cause.OutOfMemory) }
{
    match integrity(metamodel, set) {
        Ok(()) => Ok(true),
        Err(Cause::OutOfMemory) => Err(Cause::OutOfMemory),
        Err(_) => Ok(false),
    }
}

/// Whether objects of sound rows and next numbers stand together: each pair has its owner, the
/// revision its row, the set is sound, and generated keys lie below the next numbers.
fn stand_together(
    alloc: Global,
    metamodel: &Metamodel,
    rows: &[(RowId, Row)],
    set: &StoredSet,
    numbers: &[u64],
) -> Result<bool, Cause>
    requires classes { AreOfClasses metamodel.now set.now }
    requires rising { AreRising rows.now }
    ensures together { IfOk result (λ together. IsTrue together
        ↔ StandTogether metamodel.now rows.now set.now numbers.now) }
    ensures err { IfErr result (λ cause. cause ≡ Cause.OutOfMemory) }
{
    if !are_owned(alloc, metamodel, set, rows)? || !is_marked(alloc, metamodel, rows)? {
        return Ok(false);
    }
    if !is_sound(metamodel, set)? {
        return Ok(false);
    }
    Ok(are_keys_given(metamodel, set, numbers))
}

/// Judges the rows of all tables of the metamodel.
pub(super) fn judge<B: Behaviour>(
    alloc: Global,
    metamodel: &Metamodel,
    registry: &Registry<B>,
    rows: &[(RowId, Row)],
) -> Result<Judged, Cause>
    requires named { AreRowsOf (schema_of metamodel.now) rows.now }
    requires whole { AreWhole (schema_of metamodel.now) rows.now }
    requires filled { AreFilled rows.now }
    ensures judged { IfOk result (IsJudged (world_of B.meaning metamodel.now registry.now)
        rows.now) }
    ensures err { IfErr result (λ cause. cause ≡ Cause.OutOfMemory) }
{
    // what the judgment rests on
    metamodel.unit();
    registry.laws();
    discriminator_law(metamodel);
    let set = match objects_of(alloc, metamodel, registry, rows)? {
        Objects::Set(set) => set,
        Objects::Damaged(place) => return Ok(Judged::Damaged(place)),
    };
    let numbers = next_numbers(alloc, metamodel, rows)?;
    if stand_together(alloc, metamodel, rows, &set, numbers.as_slice())? {
        Ok(Judged::Held(Committed { set, numbers }))
    } else {
        Ok(Judged::Unsound)
    }
}
