//! The targets that objects own in one-to-one relations, and whether two own the same.
ghost use Rattle.std.specs.Prelude.{◌≡◌, ◌++◌, Some, refl, IfOk, IfErr, OnOk};
ghost use Rattle.std.specs.Cmp.{partial_equiv_from_equiv, eq_by_cmp_equiv, partial_order_from_agreeing_total};
ghost use Rattle.std.specs.List.{flat_map, zip};
ghost use Rattle.jpa_model.specs.Chains as chains;
ghost use Rattle.jpa_value.specs.declared.refusal.Cause.{Cause};
ghost use Rattle.jpa_stored.specs.objects.ClaimOrder.{claim_total};
ghost use Rattle.jpa_stored.specs.objects.Sets as sets;
ghost use Rattle.jpa_stored.specs.objects.Sets.{one_to_one_column, claims_at, claim_cmp, same_claim, all_distinct};

use crate::objects::classes::relations_of;
use crate::objects::stored::Stored;
use jpa_model::{Metamodel, Relation, Side};
use jpa_value::{Boxed, Cause, Identity, Seq, TryCopy, order_identities};
use std::alloc::Global;
use std::cmp::Ordering;
use std::collections::BTreeSet;

/// A target that an object owns in a one-to-one relation, with the table and the column that the
/// relation is kept in.
#[derive(Drop)]
pub struct Claim {
    pub table: u64,
    pub column: u64,
    pub target: Identity,
}

impl PartialEq for Claim {
    ghost eq = { same_claim };

    ghost laws = { partial_equiv_from_equiv (eq_by_cmp_equiv claim_total) };

    fn eq(&self, other: &Claim) -> bool {
        self.cmp(other).is_eq()
    }
}

impl Eq for Claim {
    ghost laws = { eq_by_cmp_equiv claim_total };
}

impl PartialOrd for Claim {
    ghost partial_cmp = { λ x y. Some (claim_cmp x y) };

    ghost laws = { partial_order_from_agreeing_total claim_cmp claim_total (λ x y. refl) (λ x y. refl) };

    fn partial_cmp(&self, other: &Claim) -> Option<Ordering> {
        Some(self.cmp(other))
    }
}

impl Ord for Claim {
    ghost cmp = { claim_cmp };

    ghost total = { claim_total };

    ghost matches_partial_cmp = { λ x y. refl };

    ghost matches_eq = { λ x y. refl };

    fn cmp(&self, other: &Claim) -> Ordering {
        self.table
            .cmp(&other.table)
            .then(self.column.cmp(&other.column))
            .then(order_identities(&self.target, &other.target))
    }
}

/// The column of an owning one-to-one relation; none for another.
fn one_to_one(side: Side) -> Option<u64>
    ensures { result ≡ one_to_one_column side }
{
    match side {
        Side::OneToOne(column) => Some(column.column),
        _ => None,
    }
}

/// Adds what identities claim that an object of this table owns in this relation.
fn push_link(out: &mut Vec<Claim>, table: u64, side: Side, ids: &[Identity]) -> Result<(), Cause>
    ensures ok { OnOk result (out.new.items ≡ out.old.items
        ++ claims_at table (one_to_one_column side) ids.now) }
    ensures err { IfErr result (λ cause. cause ≡ Cause.OutOfMemory) }
{
    if let Some(column) = one_to_one(side) {
        for id in ids {
            out.push(Claim {
                table,
                column,
                target: id.try_copy()?,
            })?;
        }
    }
    Ok(())
}

/// Adds what an object of this table claims in these relations.
fn push_links(
    out: &mut Vec<Claim>,
    table: u64,
    relations: &[Relation],
    owned: &[Seq<Identity>],
) -> Result<(), Cause>
    ensures ok { OnOk result (out.new.items ≡ out.old.items
        ++ flat_map (λ p. claims_at table (one_to_one_column (p.0).side) p.1)
        (zip relations.now owned.now)) }
    ensures err { IfErr result (λ cause. cause ≡ Cause.OutOfMemory) }
{
    for (i, ids) in owned.iter().enumerate() {
        if i < relations.len() {
            push_link(out, table, relations[i].side, ids.as_slice())?;
        }
    }
    Ok(())
}

/// Adds what one entry claims.
fn push_entry(
    out: &mut Vec<Claim>,
    metamodel: &Metamodel,
    entry: &(Identity, Stored),
) -> Result<(), Cause>
    ensures ok { OnOk result (out.new.items ≡ out.old.items
        ++ flat_map (λ p. claims_at (entry.now.0).table (one_to_one_column (p.0).side) p.1)
        (zip (chains.relations_of metamodel.now (entry.now.1).class) (entry.now.1).owned)) }
    ensures err { IfErr result (λ cause. cause ≡ Cause.OutOfMemory) }
{
    let (id, object) = entry;
    let relations = relations_of(metamodel, object.class);
    push_links(out, id.table, relations, object.owned.as_slice())
}

/// What the entries of a set claim.
pub fn claims_of(
    alloc: Global,
    metamodel: &Metamodel,
    entries: &[Boxed<(Identity, Stored)>],
) -> Result<Vec<Claim>, Cause>
    ensures ok { IfOk result (λ claims. claims.items ≡ sets.claims metamodel.now entries.now) }
    ensures err { IfErr result (λ cause. cause ≡ Cause.OutOfMemory) }
{
    let mut out = Vec::new(alloc);
    for entry in entries {
        push_entry(&mut out, metamodel, entry.get())?;
    }
    Ok(out)
}

/// Whether no two claims are the same: O(n log n) comparisons.
pub fn are_distinct(alloc: Global, claims: Vec<Claim>) -> Result<bool, Cause>
    ensures ok { IfOk result (λ distinct. distinct ≡ all_distinct same_claim claims.items) }
    ensures err { IfErr result (λ cause. cause ≡ Cause.OutOfMemory) }
{
    let mut seen = BTreeSet::new(alloc);
    for claim in claims {
        if !seen.insert(claim)? {
            return Ok(false);
        }
    }
    Ok(true)
}
