//! Whether steps of paths are the same.
ghost use Rattle.std.specs.Prelude.{◌≡◌, true};

use jpa_model::Member;
use jpql_trees::typed::Step;

/// Whether two members are the same.
pub(crate) fn is_same_member(one: Member, other: Member) -> bool
    ensures { result ≡ true → one ≡ other }
{
    match (one, other) {
        (Member::Version, Member::Version) => true,
        (Member::KeyPart(one), Member::KeyPart(other))
        | (Member::Attribute(one), Member::Attribute(other))
        | (Member::Relation(one), Member::Relation(other)) => one == other,
        _ => false,
    }
}

fn is_same_step(one: Step, other: Step) -> bool
    ensures { result ≡ true → one ≡ other }
{
    one.class == other.class && is_same_member(one.member, other.member)
}

/// Whether two paths have the same steps.
pub(crate) fn are_same_steps(some: &[Step], others: &[Step]) -> bool
    ensures { result ≡ true → some.now ≡ others.now }
{
    if some.len() != others.len() {
        return false;
    }
    for place in 0..some.len() {
        if !is_same_step(some[place], others[place]) {
            return false;
        }
    }
    true
}
