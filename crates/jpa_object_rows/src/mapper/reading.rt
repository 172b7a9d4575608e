//! An object read off its rows.
ghost use Rattle.std.specs.Prelude.{◌≡◌, ◌<◌, ◌⊎◌, length, IfOk, IfErr};
ghost use Rattle.jpa_value.specs.declared.refusal.Cause.{Cause};
ghost use Rattle.jpa_model.specs.Chains.{relations_of};
ghost use Rattle.jpa_behaviour.specs.Registered.{world_of};
ghost use Rattle.jpa_rows.specs.keys.Keys.{key_bytes};
ghost use Rattle.jpa_rows.specs.rows.Rows.{AreRising};
ghost use Rattle.jpa_rows.specs.rows.Tables.{schema_of};
ghost use Rattle.jpa_object_rows.specs.meaning.Raw.{AreRowsOf};
ghost use Rattle.jpa_object_rows.specs.meaning.Sets.{targets_in};
ghost use Rattle.jpa_object_rows.specs.mapper.Mapped.{IsReadAs, IsMainRow};
ghost use Rattle.jpa_object_rows.specs.mapper.Own.{OwnAreOnes, IsRefused};
ghost use Rattle.jpa_object_rows.specs.mapper.Pairs as spec;

use crate::mapper::main_object::main_object;
use crate::mapper::own_pairs::judge_own_pairs;
use crate::mapper::targets::targets;
use jpa_behaviour::{Behaviour, Registry};
use jpa_model::{Metamodel, Side};
use jpa_rows::keys::encode_key;
use jpa_rows::rows::{Row, RowId};
use jpa_stored::objects::Stored;
use jpa_value::{Cause, Identity, Seq};
use std::alloc::Global;

/// The object of this identity and main row, with its pairs among these rows, which are in rising
/// order and may be those of other owners and other join tables too. With n rows each relation
/// takes O(n) comparisons.
///
/// Where no object has that main row it is `Damaged` with the table and the bytes of the key. Else,
/// where a row of one of the object's pairs is not the one that a pair has, it is `Damaged` with
/// the table and the bytes of the lowest such row. `OutOfMemory` where a growth was refused.
pub fn from_rows<B: Behaviour>(
    alloc: Global,
    metamodel: &Metamodel,
    registry: &Registry<B>,
    id: &Identity,
    row: &Row,
    pairs: &[(RowId, Row)],
) -> Result<Stored, Cause>
    requires pairs { AreRowsOf (schema_of metamodel.now) pairs.now }
    ensures ok { IfOk result (IsReadAs (world_of B.meaning metamodel.now registry.now) id.now
        row.now (targets_in metamodel.now pairs.now id.now)) }
    ensures ones { IfOk result (λ x. OwnAreOnes metamodel.now x.class id.now pairs.now) }
    ensures err { IfErr result (IsRefused (world_of B.meaning metamodel.now registry.now) id.now
        row.now pairs.now) }
{
    let object = from_rows_by_id(alloc, metamodel, registry, id, row, pairs)?;
    judge_own_pairs(alloc, metamodel, object.class, id, pairs)?;
    Ok(object)
}

/// The object of this identity and main row, with the pairs that the ids of these rows say, which
/// are in rising order and may be those of other owners and other join tables too. What a row of a
/// join table holds is not looked at: who calls this has judged apart whether each is a pair's, as
/// `from_rows` does. With n rows each relation takes O(log n + k) comparisons for its k pairs.
///
/// Where no object has that main row it is `Damaged` with the table and the bytes of the key;
/// `OutOfMemory` where a growth was refused.
pub fn from_rows_by_id<B: Behaviour>(
    alloc: Global,
    metamodel: &Metamodel,
    registry: &Registry<B>,
    id: &Identity,
    row: &Row,
    pairs: &[(RowId, Row)],
) -> Result<Stored, Cause>
    requires pairs { AreRowsOf (schema_of metamodel.now) pairs.now }
    ensures ok { IfOk result (IsReadAs (world_of B.meaning metamodel.now registry.now) id.now
        row.now (targets_in metamodel.now pairs.now id.now)) }
    ensures err { IfErr result (λ cause. (cause ≡ Cause.OutOfMemory)
        ⊎ ((cause ≡ Cause.Damaged id.now.table (key_bytes id.now.key))
        × (IsMainRow (world_of B.meaning metamodel.now registry.now) id.now row.now → ⊥))) }
{
    let _unit = metamodel.unit();
    match main_object(alloc, metamodel, registry, id, row)? {
        Some(object) => with_pairs(alloc, metamodel, id, pairs, object),
        None => {
            let key = encode_key(alloc, &id.key)?;
            Err(Cause::Damaged(id.table, key))
        }
    }
}

/// The object with its pairs among these rows.
fn with_pairs(
    alloc: Global,
    metamodel: &Metamodel,
    id: &Identity,
    pairs: &[(RowId, Row)],
    object: Stored,
) -> Result<Stored, Cause>
    requires class { object.class < length metamodel.now.entities }
    requires owned { length object.owned ≡ length (relations_of metamodel.now object.class) }
    requires rising { AreRising pairs.now }
    ensures ok { IfOk result (λ x. x ≡ spec.with_pairs metamodel.now
        (targets_in metamodel.now pairs.now id.now) object) }
    ensures err { IfErr result (λ cause. cause ≡ Cause.OutOfMemory) }
{
    let Stored {
        class,
        version,
        values,
        owned,
    } = object;
    let owned = owned_with(alloc, metamodel, class, id, pairs, owned)?;
    Ok(Stored {
        class,
        version,
        values,
        owned,
    })
}

/// What is owned along the relations of a class, with the pairs among these rows for those that
/// have join tables.
fn owned_with(
    alloc: Global,
    metamodel: &Metamodel,
    class: usize,
    id: &Identity,
    pairs: &[(RowId, Row)],
    mut owned: Seq<Seq<Identity>>,
) -> Result<Seq<Seq<Identity>>, Cause>
    requires class { class < length metamodel.now.entities }
    requires owned { length owned ≡ length (relations_of metamodel.now class) }
    requires rising { AreRising pairs.now }
    ensures ok { IfOk result (λ all. all ≡ spec.owned_with
        (targets_in metamodel.now pairs.now id.now) (relations_of metamodel.now class) owned) }
    ensures err { IfErr result (λ cause. cause ≡ Cause.OutOfMemory) }
{
    for (at, relation) in metamodel.relations_of(class).iter().enumerate() {
        if let Side::ManyToMany(join) = relation.side {
            let found = targets(alloc, metamodel, pairs, id, join, relation.target)?;
            owned.set(at, found);
        }
    }
    Ok(owned)
}
