//! How what expressions give is compared (chapter 4.6.7). None of these functions takes memory.
ghost use Rattle.std.specs.Prelude.{◌≡◌, Some, refl};
ghost use Rattle.std.specs.Cmp.{partial_equiv_from_equiv, eq_by_cmp_equiv, partial_order_from_agreeing_total};
ghost use Rattle.jpql_meaning.specs.eval.SeenOrder.{seen_cmp, same_seen, seen_total};
ghost use Rattle.jpql_meaning.specs.eval.Calls as calls;
ghost use Rattle.jpql_meaning.specs.eval.Data as data_;
ghost use Rattle.jpql_meaning.specs.eval.Seen.{seen};
ghost use Rattle.jpql_meaning.specs.eval.Truths.{is_yes};

use crate::eval::datum::Truth;
use crate::eval::seen::Seen;
use crate::eval::truths::{and3, truth_of};
use jpa_value::{Text, order_identities};
use jpql_trees::tree::Comparison;
use std::cmp::Ordering;

/// The place of two in one total order: nulls first, then integers, texts, byte strings and
/// entities. Of two integers, which most are, it is told in place.
#[inline]
#[tactic(auto, using(crate::proofs::eval::Orders::then_equal))]
pub fn order<'a>(left: &Seen<'a>, right: &Seen<'a>) -> Ordering
    ensures { result ≡ data_.datum_cmp (seen left.now) (seen right.now) }
{
    match (left, right) {
        (Seen::Int(one), Seen::Int(other)) => one.cmp(other),
        (left, right) => order_any(left, right),
    }
}

/// The place of two of any kinds.
#[tactic(auto, using(crate::proofs::eval::Orders::then_equal))]
fn order_any<'a>(left: &Seen<'a>, right: &Seen<'a>) -> Ordering
    ensures { result ≡ data_.datum_cmp (seen left.now) (seen right.now) }
{
    match (left, right) {
        (Seen::Null, Seen::Null) => Ordering::Equal,
        (Seen::Null, _) => Ordering::Less,
        (Seen::Int(_), Seen::Null) => Ordering::Greater,
        (Seen::Int(m), Seen::Int(n)) => m.cmp(n),
        (Seen::Int(_), _) => Ordering::Less,
        (Seen::Text(s), _) => order_text(s, right),
        (Seen::Made(s), _) => order_text(s, right),
        (Seen::Bytes(_), Seen::Entity(_)) => Ordering::Less,
        (Seen::Bytes(s), Seen::Bytes(t)) => s.as_slice().cmp(t.as_slice()),
        (Seen::Bytes(_), _) => Ordering::Greater,
        (Seen::Entity(x), Seen::Entity(y)) => order_identities(x, y),
        (Seen::Entity(_), _) => Ordering::Greater,
    }
}

/// The place of a text beside another.
#[tactic(auto, using(crate::proofs::eval::Orders::then_equal))]
fn order_text<'a>(text: &Text, other: &Seen<'a>) -> Ordering
    ensures { result ≡ data_.datum_cmp (calls.text text.now) (seen other.now) }
{
    match other {
        Seen::Null | Seen::Int(_) => Ordering::Greater,
        Seen::Text(other) => text.as_str().cmp(other.as_str()),
        Seen::Made(other) => text.as_str().cmp(other.as_str()),
        Seen::Bytes(_) | Seen::Entity(_) => Ordering::Less,
    }
}

/// Whether two are one: entities by their identity, and null as null, which groups and DISTINCT go
/// by.
#[inline]
#[tactic(auto, using(crate::proofs::eval::Orders::same_by_order))]
pub fn is_same<'a>(left: &Seen<'a>, right: &Seen<'a>) -> bool
    ensures { result ≡ data_.same_datum (seen left.now) (seen right.now) }
{
    order(left, right).is_eq()
}

/// Whether a comparison holds of what is the same or not, and ordered so.
pub(super) fn holds(comparison: Comparison, same: bool, order: Ordering) -> bool
    ensures { result ≡ data_.holds comparison same order }
{
    match comparison {
        Comparison::Equal => same,
        Comparison::Different => !same,
        Comparison::Less => order.is_lt(),
        Comparison::AtMost => order.is_le(),
        Comparison::Greater => order.is_gt(),
        Comparison::AtLeast => order.is_ge(),
    }
}

/// A comparison: with null it is unknown.
#[tactic(auto, using(crate::proofs::eval::Orders::same_by_order))]
pub fn compared<'a>(comparison: Comparison, left: &Seen<'a>, right: &Seen<'a>) -> Truth
    ensures { result ≡ data_.compared comparison (seen left.now) (seen right.now) }
{
    if left.is_nothing() || right.is_nothing() {
        return Truth::Unknown;
    }
    let order = order(left, right);
    truth_of(holds(comparison, order.is_eq(), order))
}

/// Whether a comparison is true. Of two integers it is told in place.
#[inline]
#[tactic(auto, using(crate::proofs::eval::Orders::same_by_order))]
pub fn is_true<'a>(comparison: Comparison, left: &Seen<'a>, right: &Seen<'a>) -> bool
    ensures { result ≡ is_yes (data_.compared comparison (seen left.now) (seen right.now)) }
{
    match (left, right) {
        (Seen::Int(m), Seen::Int(n)) => {
            let order = m.cmp(n);
            holds(comparison, order.is_eq(), order)
        }
        _ => matches!(compared(comparison, left, right), Truth::Yes),
    }
}

/// BETWEEN: at least the one, and at most the other.
pub fn between<'a>(middle: &Seen<'a>, low: &Seen<'a>, high: &Seen<'a>) -> Truth
    ensures { result ≡ data_.between (seen middle.now) (seen low.now) (seen high.now) }
{
    and3(
        compared(Comparison::AtLeast, middle, low),
        compared(Comparison::AtMost, middle, high),
    )
}

impl PartialEq for Seen<'_> {
    ghost eq = { same_seen };

    ghost laws = { partial_equiv_from_equiv (eq_by_cmp_equiv seen_total) };

    fn eq(&self, other: &Self) -> bool {
        self.cmp(other).is_eq()
    }
}

impl Eq for Seen<'_> {
    ghost laws = { eq_by_cmp_equiv seen_total };
}

impl PartialOrd for Seen<'_> {
    ghost partial_cmp = { λ x y. Some (seen_cmp x y) };

    ghost laws = { partial_order_from_agreeing_total seen_cmp seen_total (λ x y. refl) (λ x y. refl) };

    fn partial_cmp(&self, other: &Self) -> Option<Ordering> {
        Some(self.cmp(other))
    }
}

impl Ord for Seen<'_> {
    ghost cmp = { seen_cmp };

    ghost total = { seen_total };

    ghost matches_partial_cmp = { λ x y. refl };

    ghost matches_eq = { λ x y. refl };

    fn cmp(&self, other: &Self) -> Ordering {
        order(self, other)
    }
}
