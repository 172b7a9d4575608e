//! What is bound to the parameters of a statement.
ghost use Rattle.std.specs.Prelude.{◌≡◌, IfOk, IfErr};
ghost use Rattle.jpa_value.specs.declared.refusal.Cause.{Cause};
ghost use Rattle.jpa_work.specs.context.Undo.{now};
ghost use Rattle.jpa_operations.specs.fetch.Grown.{IsReady};
ghost use Rattle.jpa_work.specs.heap.Shape.{IsInHeap};
ghost use Rattle.jpa_asked.specs.Asking as asking;
ghost use Rattle.jpa_asked.specs.Premises.{AreInHeap};

use crate::asked::Binding;
use jpa_model::Metamodel;
use jpa_value::{Cause, Kind, Seq, Text, TryCopy, Value};
use jpa_work::context::UnitOfWork;
use jpa_work::heap::{Handed, identity_of};
use jpql_meaning::eval::Datum;
use jpql_types::{ParamType, Sort};
use std::alloc::Global;

/// What a value is of.
fn sort_of_value(value: &Value) -> ParamType
    ensures { result ≡ asking.sort_of_value value.now }
{
    match value {
        Value::Null => Sort::Null,
        Value::Int(_) => Sort::Basic(Kind::Int),
        Value::Text(_) => Sort::Basic(Kind::Text),
        Value::Bytes(_) => Sort::Basic(Kind::Bytes),
    }
}

/// What a parameter is of to which this is bound: an object is of its hierarchy.
fn sort_of(metamodel: &Metamodel, work: &UnitOfWork, value: &Handed) -> ParamType
    requires ready { IsReady metamodel.now (now work.now) }
    requires bound { IsInHeap work.now.objects.now value.now }
    ensures { result ≡ asking.sort_of metamodel.now (now work.now) value.now }
{
    match value {
        Handed::Plain(value) => sort_of_value(value),
        Handed::Object(place) => {
            let object = &work.objects.as_slice()[*place];
            Sort::Entity(metamodel.root_class(object.class))
        }
    }
}

/// What the parameters are of, by their names. Fails for want of memory alone, with `OutOfMemory`.
pub(crate) fn sorts_of(
    alloc: Global,
    metamodel: &Metamodel,
    work: &UnitOfWork,
    bindings: &[Binding],
) -> Result<Seq<(Text, ParamType)>, Cause>
    requires ready { IsReady metamodel.now (now work.now) }
    requires bound { AreInHeap work.now.objects.now bindings.now }
    ensures ok { IfOk result (λ sorts. sorts
        ≡ asking.sorts_of metamodel.now bindings.now (now work.now)) }
    ensures err { IfErr result (λ cause. cause ≡ Cause.OutOfMemory) }
{
    let mut sorts = Seq::new(alloc);
    for binding in bindings {
        let sort = sort_of(metamodel, work, &binding.value);
        sorts.push((binding.name.try_copy()?, sort))?;
    }
    Ok(sorts)
}

/// What stands for a parameter to which this is bound: a value for itself, an object for its
/// identity. None for an object whose key isn't whole. Fails for want of memory alone, with
/// `OutOfMemory`.
fn datum_of(
    metamodel: &Metamodel,
    work: &UnitOfWork,
    value: &Handed,
) -> Result<Option<Datum>, Cause>
    requires ready { IsReady metamodel.now (now work.now) }
    requires bound { IsInHeap work.now.objects.now value.now }
    ensures ok { IfOk result (λ datum. datum
        ≡ asking.datum_of metamodel.now (now work.now) value.now) }
    ensures err { IfErr result (λ cause. cause ≡ Cause.OutOfMemory) }
{
    match value {
        Handed::Plain(value) => Ok(Some(Datum::Plain(value.try_copy()?))),
        Handed::Object(place) => {
            let object = &work.objects.as_slice()[*place];
            Ok(identity_of(metamodel, object)?.map(Datum::Entity))
        }
    }
}

/// What stands for the parameters, by place; none where an object is bound whose key isn't whole.
/// Fails for want of memory alone, with `OutOfMemory`.
pub(crate) fn arguments_of(
    alloc: Global,
    metamodel: &Metamodel,
    work: &UnitOfWork,
    bindings: &[Binding],
) -> Result<Option<Seq<Datum>>, Cause>
    requires ready { IsReady metamodel.now (now work.now) }
    requires bound { AreInHeap work.now.objects.now bindings.now }
    ensures ok { IfOk result (λ arguments. arguments
        ≡ asking.arguments_of metamodel.now bindings.now (now work.now)) }
    ensures err { IfErr result (λ cause. cause ≡ Cause.OutOfMemory) }
{
    let mut arguments = Seq::new(alloc);
    for binding in bindings {
        match datum_of(metamodel, work, &binding.value)? {
            Some(datum) => arguments.push(datum)?,
            None => return Ok(None),
        }
    }
    Ok(Some(arguments))
}
