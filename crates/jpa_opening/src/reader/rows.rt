//! Rows that were read already, judged.
ghost use Rattle.std.specs.Prelude.{◌≡◌, ◌⊎◌, ℕ, List, IfOk, IfErr};
ghost use Rattle.jpa_value.specs.declared.refusal.Cause.{Cause};
ghost use Rattle.jpa_behaviour.specs.Registered.{world_of};
ghost use Rattle.jpa_stored.specs.objects.Sets.{StoredSet};
ghost use Rattle.jpa_opening.specs.reader.Judged.{AreHeld};
ghost use Rattle.jpa_opening.specs.reader.OfSet.{AreOf, TellsNone};

use crate::reader::judge::Committed;
use crate::reader::store::judge_read;
use jpa_behaviour::{Behaviour, Registry};
use jpa_model::Metamodel;
use jpa_object_rows::mapper::discriminator_law;
use jpa_rows::rows::{Row, RowId, Schema};
use jpa_value::Cause;
use std::alloc::Global;

/// The set and the next numbers of which these are the rows, for one who has read them: they are
/// rows of a set that a store can hold, and of no other.
///
/// Rows of no such set are `Damaged`, told by the table and the bytes of the first that no object,
/// pair, next number or revision has, or by `Damaged(0, [])` where each may be one. `OutOfMemory`
/// where a growth was refused.
pub fn judge_rows<B: Behaviour>(
    alloc: Global,
    metamodel: &Metamodel,
    registry: &Registry<B>,
    rows: &[(RowId, Row)],
) -> Result<Committed, Cause>
    ensures held { IfOk result (λ c. AreHeld (world_of B.meaning metamodel.now registry.now)
        rows.now c) }
    ensures same { (set : StoredSet) (numbers : List ℕ) →
        AreOf (world_of B.meaning metamodel.now registry.now) rows.now set numbers →
        IfOk result (λ c. (c.set ≡ set) × (c.numbers ≡ numbers)) }
    ensures err { IfErr result (λ cause. (cause ≡ Cause.OutOfMemory)
        ⊎ TellsNone (world_of B.meaning metamodel.now registry.now) rows.now cause) }
{
    // what the judgment rests on
    metamodel.unit();
    registry.laws();
    discriminator_law(metamodel);
    let schema = Schema::of(alloc, metamodel)?;
    judge_read(alloc, metamodel, registry, &schema, rows, None)
}
