//! Of which classes and members an index has entries.
ghost use Rattle.std.specs.Prelude.{◌≡◌};
ghost use Rattle.jpa_stored.specs.ordered.Values as places;

use jpa_model::Member;

/// That the index has an entry of this number for each object of this very class, by what it has in
/// this member: a part of the key or an attribute.
#[derive(Clone, Copy)]
pub struct Column {
    /// The place of the class among the entities of the persistence unit.
    pub class: usize,
    pub member: Member,
    pub number: u16,
}

/// Whether two members are the same.
fn is_same_member(one: Member, other: Member) -> bool
    ensures { result ≡ places.same_member one other }
{
    match (one, other) {
        (Member::Version, Member::Version) => true,
        (Member::KeyPart(one), Member::KeyPart(other))
        | (Member::Attribute(one), Member::Attribute(other))
        | (Member::Relation(one), Member::Relation(other)) => one == other,
        _ => false,
    }
}

/// Whether a column is that of a class and a member.
pub(super) fn is_of(column: &Column, class: usize, member: Member) -> bool
    ensures { result ≡ places.is_of class member column.now }
{
    column.class == class && is_same_member(column.member, member)
}

/// Whether a class and a member have a column of this number.
pub(super) fn has_column(columns: &[Column], class: usize, member: Member, number: u16) -> bool
    ensures { result ≡ places.has_column columns.now class member number }
{
    for column in columns {
        if is_of(column, class, member) && column.number == number {
            return true;
        }
    }
    false
}
