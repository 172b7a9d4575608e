//! DELETE (chapter 4.11).
ghost use Rattle.std.specs.Prelude.{◌≡◌, true, map, T, IfOk};
ghost use Rattle.jpa_open.specs.Opened as opened;
ghost use Rattle.jpql_bulk.specs.bulk.Changes as changes;
ghost use Rattle.jpql_meaning.specs.eval.Finds.{Finds};
ghost use Rattle.jpql_run.specs.Keys as keys;
ghost use Rattle.jpql_run.specs.Objects.{entry, identities};

use crate::bulk::concerned::concerned;
use jpa_model::Metamodel;
use jpa_open::OpenSet;
use jpa_value::{Boxed, Identity};
use jpql_meaning::eval::{Datum, Failure};
use jpql_run::{Object, Run};
use jpql_trees::typed::TypedCondition;
use std::alloc::{AllocError, Global};

/// The identities of objects.
fn identities_of<'a>(alloc: Global, objects: &[Object<'a>]) -> Result<Vec<&'a Identity>, AllocError>
    ensures { IfOk result (λ v. identities v.items ≡ map (λ e. e.0) (map entry objects.now)) }
{
    let mut ids = Vec::new(alloc);
    for object in objects {
        ids.push(&object.at.0)?;
    }
    Ok(ids)
}

/// The identities of the objects that a DELETE of a class removes, in rising order; `is_named` says
/// whether they have a variable. They are read off the old set alone.
///
/// `Overflow` where some part is an integer outside 64 bits; `Memory` where a growth was refused.
pub fn found_by_delete<'a>(
    alloc: Global,
    metamodel: &'a Metamodel,
    set: &'a OpenSet,
    parameters: &'a [Datum],
    class: usize,
    is_named: bool,
    filter: &'a Option<Boxed<TypedCondition>>,
) -> Result<Vec<&'a Identity>, Failure>
    requires looked_up { keys.CanBeLookedUp metamodel.now (opened.now set.now) }
    ensures { Finds (λ v. identities v.items) result
        (changes.found_by_delete metamodel.now (opened.now set.now)
        parameters.now class is_named filter.now) }
{
    let run = Run {
        metamodel,
        set,
        parameters,
    };
    let found = concerned(alloc, &run, class, is_named, &[], filter)?;
    Ok(identities_of(alloc, &found)?)
}
