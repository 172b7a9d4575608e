//! What UPDATE and DELETE find in a set, of its own, so that it outlives the set.
ghost use Rattle.std.specs.Prelude.{◌≡◌, ◌⊎◌, IfOk, IfErr, map};
ghost use Rattle.jpa_open.specs.Opened.{now};
ghost use Rattle.jpa_value.specs.declared.refusal.Cause.{Cause};
ghost use Rattle.jpql_bulk.specs.bulk.Changes as changes;
ghost use Rattle.jpql_meaning.specs.eval.Seen.{seen};
ghost use Rattle.jpql_run.specs.Keys.{CanBeLookedUp};
ghost use Rattle.jpql_run.specs.Objects.{identities};
ghost use Rattle.jpa_questions.specs.row_queries.Answered.{Answers};
ghost use Rattle.jpa_questions.specs.row_queries.Changing.{by_identity, set_by_update};

use jpa_model::{Member, Metamodel};
use jpa_open::OpenSet;
use jpa_value::{Boxed, Cause, Identity, Seq, TryCopy, Value};
use jpql_bulk::bulk::{Change, found_by_delete, found_by_update};
use jpql_meaning::eval::{Datum, Failure, Seen};
use jpql_trees::typed::{TypedAssignment, TypedCondition};
use std::alloc::Global;

/// Copies of identities. Fails for want of memory alone, with `OutOfMemory`.
fn copies_of(alloc: Global, ids: &[&Identity]) -> Result<Seq<Identity>, Cause>
    ensures ok { IfOk result (λ copies. copies ≡ identities ids.now) }
    ensures err { IfErr result (λ cause. cause ≡ Cause.OutOfMemory) }
{
    let mut copies = Seq::new(alloc);
    for id in ids {
        copies.push(id.try_copy()?)?;
    }
    Ok(copies)
}

/// The identities of the objects that a DELETE takes out of a set, in rising order.
///
/// `Overflow` where some part is an integer outside 64 bits; `OutOfMemory` where a growth was
/// refused.
pub(super) fn taken(
    alloc: Global,
    metamodel: &Metamodel,
    set: &OpenSet,
    parameters: &[Datum],
    class: usize,
    is_named: bool,
    filter: &Option<Boxed<TypedCondition>>,
) -> Result<Seq<Identity>, Cause>
    requires looked_up { CanBeLookedUp metamodel.now (now set.now) }
    ensures answer { Answers result (changes.found_by_delete metamodel.now
        (now set.now) parameters.now class is_named filter.now) }
    ensures err { IfErr result
        (λ cause. (cause ≡ Cause.OutOfMemory) ⊎ (cause ≡ Cause.Overflow)) }
{
    match found_by_delete(alloc, metamodel, set, parameters, class, is_named, filter) {
        Ok(found) => copies_of(alloc, &found),
        Err(Failure::Overflow) => Err(Cause::Overflow),
        Err(Failure::Memory) => Err(Cause::OutOfMemory),
    }
}

/// A datum of its own. Fails for want of memory alone, with `OutOfMemory`.
fn datum_of(item: &Seen<'_>) -> Result<Datum, Cause>
    ensures ok { IfOk result (λ datum. datum ≡ seen item.now) }
    ensures err { IfErr result (λ cause. cause ≡ Cause.OutOfMemory) }
{
    Ok(match item {
        Seen::Null => Datum::Plain(Value::Null),
        Seen::Int(number) => Datum::Plain(Value::Int(*number)),
        Seen::Text(text) => Datum::Plain(Value::Text(text.try_copy()?)),
        Seen::Bytes(bytes) => Datum::Plain(Value::Bytes(bytes.try_copy()?)),
        Seen::Entity(id) => Datum::Entity(id.try_copy()?),
        Seen::Made(text) => Datum::Plain(Value::Text(text.try_copy()?)),
    })
}

/// Members with what they are set to. Fails for want of memory alone, with `OutOfMemory`.
fn members_of(alloc: Global, members: &[(Member, Seen<'_>)]) -> Result<Seq<(Member, Datum)>, Cause>
    ensures ok { IfOk result (λ own. own ≡ changes.members_in members.now) }
    ensures err { IfErr result (λ cause. cause ≡ Cause.OutOfMemory) }
{
    let mut own = Seq::new(alloc);
    for (member, item) in members {
        own.push((*member, datum_of(item)?))?;
    }
    Ok(own)
}

/// An object by its identity, with what its members are set to. Fails for want of memory alone,
/// with `OutOfMemory`.
fn change_of(alloc: Global, change: &Change<'_>) -> Result<(Identity, Seq<(Member, Datum)>), Cause>
    ensures ok { IfOk result (λ own. own ≡ by_identity (changes.change_in change.now)) }
    ensures err { IfErr result (λ cause. cause ≡ Cause.OutOfMemory) }
{
    let id = change.object.at.0.try_copy()?;
    let members = members_of(alloc, &change.members)?;
    Ok((id, members))
}

/// The same of each. Fails for want of memory alone, with `OutOfMemory`.
fn changes_of(
    alloc: Global,
    found: &[Change<'_>],
) -> Result<Seq<(Identity, Seq<(Member, Datum)>)>, Cause>
    ensures ok { IfOk result
        (λ own. own ≡ map by_identity (map changes.change_in found.now)) }
    ensures err { IfErr result (λ cause. cause ≡ Cause.OutOfMemory) }
{
    let mut own = Seq::new(alloc);
    for change in found {
        own.push(change_of(alloc, change)?)?;
    }
    Ok(own)
}

/// The objects of a set that an UPDATE concerns, by their identities, in rising order, each with
/// what its members are set to.
///
/// `Overflow` where some part is an integer outside 64 bits; `OutOfMemory` where a growth was
/// refused.
pub(super) fn assigned(
    alloc: Global,
    metamodel: &Metamodel,
    set: &OpenSet,
    parameters: &[Datum],
    class: usize,
    assignments: &[TypedAssignment],
    filter: &Option<Boxed<TypedCondition>>,
) -> Result<Seq<(Identity, Seq<(Member, Datum)>)>, Cause>
    requires looked_up { CanBeLookedUp metamodel.now (now set.now) }
    ensures answer { Answers result (set_by_update metamodel.now
        (now set.now) parameters.now class assignments.now filter.now) }
    ensures err { IfErr result
        (λ cause. (cause ≡ Cause.OutOfMemory) ⊎ (cause ≡ Cause.Overflow)) }
{
    match found_by_update(
        alloc,
        metamodel,
        set,
        parameters,
        class,
        assignments,
        filter,
    ) {
        Ok(found) => changes_of(alloc, &found),
        Err(Failure::Overflow) => Err(Cause::Overflow),
        Err(Failure::Memory) => Err(Cause::OutOfMemory),
    }
}
