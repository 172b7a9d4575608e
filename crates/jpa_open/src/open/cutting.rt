//! Where the first objects in the order of a member's values end.

use crate::open::OpenSet;
use jpa_model::{Member, Metamodel};
use jpa_stored::objects::is_kind_of;
use jpa_stored::ordered::{Cut, Span, Valued, at_object};
use jpa_value::{Cause, Identity, Key, TryCopy, Value, order_values};
use std::alloc::{AllocError, Global};

/// Where a count of objects ended.
#[derive(Drop)]
struct Counted {
    /// The place of the first object behind as many as were to be counted.
    cut: Option<Cut>,
    /// How many are left to be counted.
    left: usize,
}

/// The place before all objects of a value.
fn before_value(alloc: Global, value: &Value) -> Result<Cut, Cause> {
    Ok(Cut {
        value: value.try_copy()?,
        behind: false,
        owner: Identity {
            table: 0,
            key: Key::new(alloc),
        },
    })
}

/// A copy of a place, if there is one.
fn copied(at: &Option<Cut>) -> Result<Option<Cut>, Cause> {
    match at {
        None => Ok(None),
        Some(at) => Ok(Some(at.try_copy()?)),
    }
}

/// Whether a value is the one that was counted last.
fn is_last(last: Option<&Value>, value: &Value) -> bool {
    match last {
        None => false,
        Some(last) => order_values(last, value).is_eq(),
    }
}

impl OpenSet {
    /// Whether the manager at work sees the owner of an entry with the entry's value, as an object
    /// of a class or below it.
    fn is_live(
        &self,
        metamodel: &Metamodel,
        class: usize,
        member: Member,
        entry: &Valued,
    ) -> Result<bool, Cause> {
        match self.entry_of(&entry.owner) {
            None => Ok(false),
            Some(seen) => {
                if !is_kind_of(metamodel, seen.1.class, class) {
                    return Ok(false);
                }
                let at = at_object(member, seen)?;
                Ok(order_values(&at.value, &entry.value).is_eq())
            }
        }
    }

    /// Counts objects that have an entry of a number in a span, in rising order. With `by_value` it
    /// goes on to the end of a value.
    fn counted(
        &self,
        alloc: Global,
        metamodel: &Metamodel,
        class: usize,
        member: Member,
        number: u16,
        within: &Span,
        by_value: bool,
        count: usize,
    ) -> Result<Counted, Cause> {
        let mut left = count;
        let mut last = None;
        for entry in self.values.walk(alloc, number, within)? {
            if self.is_live(metamodel, class, member, entry)? {
                if left == 0 && !(by_value && is_last(last, &entry.value)) {
                    let cut = Some(entry.at()?);
                    return Ok(Counted { cut, left });
                }
                left = left.saturating_sub(1);
                last = Some(&entry.value);
            }
        }
        Ok(Counted { cut: None, left })
    }

    /// The same where values fall: those of the last value come first, in rising order of their
    /// identities.
    fn counted_falling(
        &self,
        alloc: Global,
        metamodel: &Metamodel,
        class: usize,
        member: Member,
        number: u16,
        within: &Span,
        by_value: bool,
        count: usize,
    ) -> Result<Counted, Cause> {
        let mut left = count;
        let mut to = copied(&within.to)?;
        for _ in 0..self.values.len() {
            let rest = Span {
                from: copied(&within.from)?,
                to: copied(&to)?,
            };
            let mut entries = self.values.walk(alloc, number, &rest)?;
            let Some(last) = entries.next_back() else {
                return Ok(Counted { cut: None, left });
            };
            let of_value = Span {
                from: Some(before_value(alloc, &last.value)?),
                to,
            };
            let found = self.counted(
                alloc, metamodel, class, member, number, &of_value, by_value, left,
            )?;
            if found.cut.is_some() {
                return Ok(found);
            }
            left = found.left;
            to = of_value.from;
        }
        Ok(Counted { cut: None, left })
    }

    /// The place of the object behind the first `count` in a span of a member's values: of those of
    /// a class or below it that the manager at work sees, in rising order. With `is_descending` the
    /// values fall, and objects of one value rise by identity. With `by_value` it is the place of
    /// one with another value than theirs. None where there are no more, or no column for the
    /// member.
    ///
    /// Entries alone are counted, so that objects which the transaction changed may stand before
    /// the place too: whoever asks looks at all that do. With k entries passed among n it takes
    /// O(k log n) comparisons. It fails for want of memory alone.
    pub fn cut_after(
        &self,
        alloc: Global,
        metamodel: &Metamodel,
        class: usize,
        member: Member,
        within: &Span,
        is_descending: bool,
        by_value: bool,
        count: usize,
    ) -> Result<Option<Cut>, AllocError> {
        if class >= metamodel.entities().len() {
            return Ok(None);
        }
        let Some(number) = self.values.column_of(metamodel, class, member) else {
            return Ok(None);
        };
        let found = if is_descending {
            self.counted_falling(
                alloc, metamodel, class, member, number, within, by_value, count,
            )
        } else {
            self.counted(
                alloc, metamodel, class, member, number, within, by_value, count,
            )
        };
        match found {
            Err(_) => Err(AllocError),
            Ok(found) => Ok(found.cut),
        }
    }
}
