//! Entries of an index of values, in order.
ghost use Rattle.std.specs.Prelude.{◌≡◌, Some, refl, IfOk, IfErr};
ghost use Rattle.std.specs.Cmp.{partial_equiv_from_equiv, eq_by_cmp_equiv, partial_order_from_agreeing_total};
ghost use Rattle.jpa_value.specs.declared.refusal.Cause.{Cause};
ghost use Rattle.jpa_stored.specs.ordered.Values as places;
ghost use Rattle.jpa_stored.specs.ordered.Values.{valued_cmp, valued_total, same_valued};

use crate::ordered::cut::{Cut, Span, least};
use jpa_value::{Cause, Identity, TryCopy, Value, order_identities, order_values};
use std::alloc::Global;
use std::cmp::Ordering;

/// That an object stood at a place among the values of an index. Who looks for objects tests each
/// against the set. The parts of the place lie here one by one, so that number and `behind` share a
/// word.
#[derive(Drop)]
pub struct Valued {
    /// The number of the index. Each number of a column has one behind it.
    pub number: u32,
    pub behind: bool,
    pub value: Value,
    pub owner: Identity,
}

/// The entry of a place in the index of a number.
pub(super) fn placed(number: u16, at: Cut) -> Valued
    ensures { result ≡ places.valued number at }
{
    Valued {
        number: u32::from(number),
        behind: at.behind,
        value: at.value,
        owner: at.owner,
    }
}

impl Valued {
    /// The place where it stands. A text is shared. `OutOfMemory` is the only refusal.
    pub fn at(&self) -> Result<Cut, Cause>
        ensures ok { IfOk result (λ at. at ≡ places.at_of self.now) }
        ensures err { IfErr result (λ cause. cause ≡ Cause.OutOfMemory) }
    {
        Ok(Cut {
            value: self.value.try_copy()?,
            behind: self.behind,
            owner: self.owner.try_copy()?,
        })
    }
}

impl PartialEq for Valued {
    ghost eq = { same_valued };

    ghost laws = { partial_equiv_from_equiv (eq_by_cmp_equiv valued_total) };

    fn eq(&self, other: &Valued) -> bool {
        self.cmp(other).is_eq()
    }
}

impl Eq for Valued {
    ghost laws = { eq_by_cmp_equiv valued_total };
}

impl PartialOrd for Valued {
    ghost partial_cmp = { λ x y. Some (valued_cmp x y) };

    ghost laws = { partial_order_from_agreeing_total valued_cmp valued_total (λ x y. refl) (λ x y. refl) };

    fn partial_cmp(&self, other: &Valued) -> Option<Ordering> {
        Some(self.cmp(other))
    }
}

impl Ord for Valued {
    ghost cmp = { valued_cmp };

    ghost total = { valued_total };

    ghost matches_partial_cmp = { λ x y. refl };

    ghost matches_eq = { λ x y. refl };

    fn cmp(&self, other: &Valued) -> Ordering {
        let places = order_values(&self.value, &other.value)
            .then(self.behind.cmp(&other.behind))
            .then(order_identities(&self.owner, &other.owner));
        self.number.cmp(&other.number).then(places)
    }
}

/// What no entry of this number that lies in the span stands before.
pub(super) fn start_of(alloc: Global, number: u16, span: &Span) -> Result<Valued, Cause>
    ensures ok { IfOk result (λ start. start ≡ places.start_of number span.now) }
    ensures err { IfErr result (λ cause. cause ≡ Cause.OutOfMemory) }
{
    let at = match &span.from {
        None => least(alloc),
        Some(from) => from.try_copy()?,
    };
    Ok(placed(number, at))
}

/// What each entry of this number that lies in the span stands before.
pub(super) fn end_of(alloc: Global, number: u16, span: &Span) -> Result<Valued, Cause>
    ensures ok { IfOk result (λ end. end ≡ places.end_of number span.now) }
    ensures err { IfErr result (λ cause. cause ≡ Cause.OutOfMemory) }
{
    match &span.to {
        None => {
            let mut end = placed(number, least(alloc));
            end.number = u32::from(number) + 1;
            Ok(end)
        }
        Some(to) => Ok(placed(number, to.try_copy()?)),
    }
}
