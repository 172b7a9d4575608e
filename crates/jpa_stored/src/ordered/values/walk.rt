//! Entries in spans.
ghost use Rattle.std.specs.Prelude.{◌≡◌, ◌<◌, ◌+◌, ◌++◌, true, length, slice_get, option_map, Some, None, IfOk, IfErr, IfSome, IfNone};
ghost use Rattle.std.specs.List.{list_any};
ghost use Rattle.std.specs.Option.{option_copied};
ghost use Rattle.jpa_value.specs.declared.refusal.Cause.{Cause};
ghost use Rattle.jpa_value.specs.Value.{same_identity};
ghost use Rattle.jpa_value.specs.declared.value.Identity.{Identity};
ghost use Rattle.jpa_model.specs.declared.unit.Member.{Member};
ghost use Rattle.jpa_stored.specs.declared.objects.stored.Stored.{Stored};
ghost use Rattle.jpa_stored.specs.declared.ordered.cut.Cut.{Cut};
ghost use Rattle.jpa_stored.specs.ordered.Values.{IsIn, IsLast, HasEntries, has_column, valued, any_covers, lies_in_any, within, owners_of, owners_in, lent_ids};

use crate::ordered::cut::{Cut, Span};
use crate::ordered::valued::{Valued, end_of, start_of};
use crate::ordered::values::Values;
use jpa_value::{Cause, Identity};
use std::alloc::Global;
use std::collections::btree_set::Range;

impl Values {
    /// The entries of a number that lie in a span, where they stand, in their order: O(log n)
    /// comparisons where there are n. `OutOfMemory` is the only refusal.
    pub fn walk<'a>(
        &'a self,
        alloc: Global,
        number: u16,
        span: &Span,
    ) -> Result<Range<'a, Valued>, Cause>
        ensures walk { IfOk result (λ entries. entries ≡ within self.now.entries number span.now) }
        ensures err { IfErr result (λ cause. cause ≡ Cause.OutOfMemory) }
    {
        let start = start_of(alloc, number, span)?;
        let end = end_of(alloc, number, span)?;
        if start.cmp(&end).is_gt() {
            return Ok(self.entries.range(&end..&end));
        }
        Ok(self.entries.range(&start..&end))
    }

    /// Adds the owners of the entries of a number that lie in a span; none where with them there
    /// would be more than `most`.
    fn with_owners<'a>(
        &'a self,
        found: Vec<&'a Identity>,
        number: u16,
        span: &Span,
        most: usize,
    ) -> Result<Option<Vec<&'a Identity>>, Cause>
        ensures all { IfOk result (λ some. IfSome some (λ all. lent_ids all.items
            ≡ lent_ids found.entry.items ++ owners_of (within self.now.entries number span.now))) }
        ensures none { IfOk result (λ some. IfNone some (most < length found.entry.items
            + length (within self.now.entries number span.now))) }
        ensures err { IfErr result (λ cause. cause ≡ Cause.OutOfMemory) }
    {
        let mut found = found;
        let entries = self.walk(*found.allocator(), number, span)?;
        for entry in entries {
            if found.len() >= most {
                return Ok(None);
            }
            found.push(&entry.owner)?;
        }
        Ok(Some(found))
    }

    /// The identities of the entries of a number that lie in these spans, span by span; none where
    /// there are more than `most`. With k of them among n entries it takes O(log n) comparisons for
    /// each span and k steps. `OutOfMemory` is the only refusal.
    ///
    /// Each object that has its entries is among them, where its class has a column of the number
    /// and it lies in one of the spans. Others may be, and one may be there twice.
    pub fn owners<'a>(
        &'a self,
        alloc: Global,
        number: u16,
        spans: &[Span],
        most: usize,
    ) -> Result<Option<Vec<&'a Identity>>, Cause>
        ensures found { IfOk result (λ some. IfSome some (λ found. lent_ids found.items
            ≡ owners_in self.now.entries number spans.now)) }
        ensures whole { IfOk result (λ some. IfSome some (λ found. (at : Cut)
            → IsIn self.now.entries (valued number at) → any_covers spans.now at ≡ true
            → list_any (same_identity at.owner) (lent_ids found.items) ≡ true)) }
        ensures objects { IfOk result (λ some. IfSome some (λ found. (id : Identity) (x : Stored)
            (member : Member) → HasEntries self.now id x
            → has_column self.now.columns x.class member number ≡ true
            → lies_in_any member spans.now (id, x) ≡ true
            → list_any (same_identity id) (lent_ids found.items) ≡ true)) }
        ensures none { IfOk result (λ some. IfNone some
            (most < length (owners_in self.now.entries number spans.now))) }
        ensures err { IfErr result (λ cause. cause ≡ Cause.OutOfMemory) }
    {
        let mut found = Vec::new(alloc);
        for span in spans {
            match self.with_owners(found, number, span, most)? {
                None => return Ok(None),
                Some(more) => found = more,
            }
        }
        Ok(Some(found))
    }

    /// The first entry of a number at a place or behind it, where one is.
    pub fn next_from<'a>(
        &'a self,
        alloc: Global,
        number: u16,
        from: Cut,
    ) -> Result<Option<&'a Valued>, Cause>
        ensures first { IfOk result (λ found. option_copied found ≡ slice_get
            (within self.now.entries number (record { from = Some from; to = None })) 0) }
        ensures err { IfErr result (λ cause. cause ≡ Cause.OutOfMemory) }
    {
        let span = Span {
            from: Some(from),
            to: None,
        };
        let mut entries = self.walk(alloc, number, &span)?;
        Ok(entries.next())
    }

    /// The last entry of a number before a place, where one is.
    pub fn last_before<'a>(
        &'a self,
        alloc: Global,
        number: u16,
        to: Cut,
    ) -> Result<Option<&'a Valued>, Cause>
        ensures last { IfOk result (λ found. IsLast (option_copied found)
            (within self.now.entries number (record { from = None; to = Some to }))) }
        ensures err { IfErr result (λ cause. cause ≡ Cause.OutOfMemory) }
    {
        let span = Span {
            from: None,
            to: Some(to),
        };
        let mut entries = self.walk(alloc, number, &span)?;
        Ok(entries.next_back())
    }
}
