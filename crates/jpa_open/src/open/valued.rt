//! Objects found by what they have as a part of the key or an attribute.
ghost use Rattle.std.specs.Prelude.{◌≡◌, ◌&&◌, ◌++◌, filter, IfOk, IfSome};
ghost use Rattle.std.specs.List.{list_any};
ghost use Rattle.std.specs.List.Sorted.{IsStrictlySortedBy};
ghost use Rattle.jpa_value.specs.declared.value.Identity.{Identity};
ghost use Rattle.jpa_value.specs.Value.{same_identity};
ghost use Rattle.jpa_model.specs.Chains.{is_kind_of as is_of_kind};
ghost use Rattle.jpa_stored.specs.ordered.Values.{lies_in_any as lies};
ghost use Rattle.jpa_open.specs.Opened as opened;
ghost use Rattle.jpa_open.specs.Opened.{lent, lent_ids};
ghost use Rattle.jpa_open.specs.Valued.{is_valued, passing_under, AreAllThat, ids_passing, lent_cmp};

use crate::open::OpenSet;
use crate::shared::Shared;
use jpa_model::{Member, Metamodel};
use jpa_stored::objects::{Stored, is_kind_of};
use jpa_stored::ordered::{Span, lies_in_any};
use jpa_value::{Identity, is_same_identity, order_identities};
use std::alloc::{AllocError, Global};

/// Adds the identities of those of these objects that lie in one of the spans.
fn with_lying<'a>(
    found: Vec<&'a Identity>,
    objects: &'a [Shared<(Identity, Stored)>],
    member: Member,
    spans: &[Span],
) -> Result<Vec<&'a Identity>, AllocError>
    ensures { IfOk result (λ all. lent_ids all.items ≡ lent_ids found.entry.items
        ++ ids_passing (lies member spans.now) objects.now) }
{
    let mut found = found;
    for object in objects {
        let entry = object.get();
        if lies_in_any(member, spans, entry) {
            found.push(&entry.0)?;
        }
    }
    Ok(found)
}

/// Identities in rising order, each once. Takes no memory.
pub(super) fn in_order<'a>(ids: Vec<&'a Identity>) -> Vec<&'a Identity>
    ensures rising { IsStrictlySortedBy lent_cmp result.items }
    ensures same { (q : Identity) → list_any (same_identity q) (lent_ids result.items)
        ≡ list_any (same_identity q) (lent_ids ids.entry.items) }
{
    let mut ids = ids;
    ids.sort_unstable_by(|a, b| order_identities(a, b));
    ids.dedup_by(|a, b| is_same_identity(a, b));
    ids
}

/// Whether an object is of a class or below it and lies in one of the spans of a member's values.
fn is_found(
    metamodel: &Metamodel,
    class: usize,
    member: Member,
    spans: &[Span],
    entry: &(Identity, Stored),
) -> bool
    ensures { result ≡ is_valued metamodel.now class member spans.now entry.now }
{
    is_kind_of(metamodel, entry.1.class, class) && lies_in_any(member, spans, entry)
}

impl OpenSet {
    /// The identities of all objects of a class or below it that the manager at work sees in one of
    /// these spans, and of others: the owners of entries, and the changed objects that lie there.
    /// None where `valued_in` answers none.
    fn candidates<'a>(
        &'a self,
        alloc: Global,
        metamodel: &Metamodel,
        class: usize,
        member: Member,
        spans: &[Span],
        most: usize,
    ) -> Result<Option<Vec<&'a Identity>>, AllocError>
        ensures { IfOk result (λ found. IfSome found (λ ids. AreAllThat
            (is_valued metamodel.now class member spans.now) (opened.now self.now)
            (lent_ids ids.items))) }
    {
        let _ = &self.committed;
        if class >= metamodel.entities().len() {
            return Ok(None);
        }
        let Some(number) = self.values.column_of(metamodel, class, member) else {
            return Ok(None);
        };
        let changed = self
            .back
            .len()
            .saturating_add(self.written.len())
            .saturating_add(self.fresh.len());
        if changed > most {
            return Ok(None);
        }
        let Ok(owners) = self.values.owners(alloc, number, spans, most - changed) else {
            return Err(AllocError);
        };
        let Some(owners) = owners else {
            return Ok(None);
        };
        let owners = with_lying(owners, self.back.as_slice(), member, spans)?;
        let owners = with_lying(owners, self.written.as_slice(), member, spans)?;
        let owners = with_lying(owners, self.fresh.as_slice(), member, spans)?;
        Ok(Some(owners))
    }

    /// What the manager at work sees under these identities, if it is of a class or below it and
    /// lies in one of the spans.
    fn found_under<'a>(
        &'a self,
        alloc: Global,
        metamodel: &Metamodel,
        class: usize,
        member: Member,
        spans: &[Span],
        ids: &[&'a Identity],
    ) -> Result<Vec<&'a (Identity, Stored)>, AllocError>
        ensures { IfOk result (λ found. lent found.items ≡ passing_under
            (is_valued metamodel.now class member spans.now) (opened.now self.now)
            (lent_ids ids.now)) }
    {
        let mut found = Vec::new(alloc);
        for id in ids {
            if let Some(entry) = self.entry_of(id) {
                if is_found(metamodel, class, member, spans, entry) {
                    found.push(entry)?;
                }
            }
        }
        Ok(found)
    }

    /// The objects of a class or below it that the manager at work sees in one of these spans of a
    /// member's values, where they stand, in rising order of their identities. None where this
    /// class or one below it has no column for the member, or where more than `most` entries and
    /// changed objects would be looked at.
    ///
    /// The member is a part of the key or an attribute. With k entries in the spans among n objects
    /// it takes O(k log n) comparisons, and a step for each changed object. It fails for want of
    /// memory alone.
    pub fn valued_in<'a>(
        &'a self,
        alloc: Global,
        metamodel: &Metamodel,
        class: usize,
        member: Member,
        spans: &[Span],
        most: usize,
    ) -> Result<Option<Vec<&'a (Identity, Stored)>>, AllocError>
        ensures { IfOk result (λ found. IfSome found (λ es. lent es.items ≡ filter (λ e.
            is_of_kind metamodel.now (e.1).class class && lies member spans.now e)
            (opened.now self.now))) }
    {
        let _ = &self.committed;
        let ids = self.candidates(alloc, metamodel, class, member, spans, most)?;
        let Some(ids) = ids else {
            return Ok(None);
        };
        let ids = in_order(ids);
        let found = self.found_under(alloc, metamodel, class, member, spans, ids.as_slice())?;
        Ok(Some(found))
    }
}
