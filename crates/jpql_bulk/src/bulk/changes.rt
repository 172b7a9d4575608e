//! All assignments of an UPDATE.
ghost use Rattle.std.specs.Prelude.{◌≡◌, map};
ghost use Rattle.jpql_bulk.specs.bulk.Assigns.{Assigns, same};
ghost use Rattle.jpql_bulk.specs.bulk.Throwing.{throws_in};
ghost use Rattle.jpql_bulk.specs.bulk.Changes.{members_in, change_in};
ghost use Rattle.jpql_meaning.specs.plan.Bulk as bulk;

use crate::bulk::members::{assigned, copied};
use crate::bulk::refused::Refused;
use crate::bulk::update::Change;
use jpa_behaviour::{Behaviour, ServedUnit};
use jpa_model::Member;
use jpa_stored::objects::Stored;
use jpa_value::Identity;
use jpql_meaning::eval::Seen;
use std::alloc::Global;

/// The members of an object set, as written.
fn all_assigned<'a, B: Behaviour>(
    alloc: Global,
    unit: &ServedUnit<B>,
    object: Stored,
    members: &[(Member, Seen<'a>)],
) -> Result<Stored, Refused>
    ensures { Assigns same result
        (bulk.all_assigned unit.now.metamodel (throws_in B.meaning unit.now.registry) object
        (members_in members.now)) }
{
    let mut made = object;
    for (member, datum) in members {
        made = assigned(alloc, unit, made, *member, datum)?;
    }
    Ok(made)
}

/// The objects of an UPDATE with their members set, in rising order, under their identities.
///
/// `Limit` where a value is longer than a text or a byte value may be, `Converter` where an
/// attribute's converter throws for its value, and `Null` where a version is set to null: whichever
/// comes first, object by object and assignment by assignment. `Memory` where a growth was refused.
pub fn assign<'a, B: Behaviour>(
    alloc: Global,
    unit: &ServedUnit<B>,
    changes: &[Change<'a>],
) -> Result<Vec<(Identity, Stored)>, Refused>
    ensures { Assigns (λ v. v.items) result (bulk.each_assigned unit.now.metamodel
        (throws_in B.meaning unit.now.registry) (map change_in changes.now)) }
{
    let mut made = Vec::new(alloc);
    for change in changes {
        let old = copied(&change.object.at.1)?;
        let new = all_assigned(alloc, unit, old, &change.members)?;
        made.push((copied(&change.object.at.0)?, new))?;
    }
    Ok(made)
}
