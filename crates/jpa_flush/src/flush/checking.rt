//! What is checked of an object before it is written.
ghost use Rattle.std.specs.Prelude.{◌≡◌, ◌<◌, length, is_some, true, IfOk, IfErr};
ghost use Rattle.jpa_behaviour.specs.Registered.{world_of, column_in};
ghost use Rattle.jpa_behaviour.specs.Served.{world_of_unit};
ghost use Rattle.jpa_work.specs.context.Undo.{now};
ghost use Rattle.jpa_work.specs.context.Work as works;
ghost use Rattle.jpa_work.specs.heap.Shape.{HasShape};
ghost use Rattle.jpa_model.specs.declared.unit.PersistenceUnit.{PersistenceUnit};
ghost use Rattle.jpa_value.specs.declared.refusal.Cause.{Cause};
ghost use Rattle.jpa_flush.specs.flush.Flush as flushes;
ghost use Rattle.jpa_flush.specs.flush.Plan as plans;

use jpa_behaviour::{Behaviour, Registry, ServedUnit};
use jpa_model::Attribute;
use jpa_value::{Cause, Identity, Value};
use jpa_work::context::UnitOfWork;
use jpa_work::heap::LiveObject;

/// Whether an object stands in the set under the identity.
pub fn is_stored(work: &UnitOfWork, id: &Option<Identity>) -> bool
    ensures { result ≡ is_some (works.row_at (now work.now) id.now) }
{
    match id {
        None => false,
        Some(id) => work.view.get(id).is_some(),
    }
}

/// Whether two versions are one.
fn is_same_version(a: Option<i64>, b: Option<i64>) -> bool
    ensures { result ≡ flushes.same_version a b }
{
    match (a, b) {
        (None, None) => true,
        (Some(m), Some(n)) => m == n,
        _ => false,
    }
}

/// Whether an object of this version stands in the set under the identity.
pub fn is_current(work: &UnitOfWork, id: &Option<Identity>, version: Option<i64>) -> bool
    ensures { result ≡ plans.has_version (works.row_at (now work.now) id.now) version }
{
    match id {
        None => false,
        Some(id) => match work.view.get(id) {
            None => false,
            Some(stored) => is_same_version(stored.version, version),
        },
    }
}

/// The class of what stands in the set under the identity, if anything does.
pub fn class_there(work: &UnitOfWork, id: &Option<Identity>) -> Option<usize>
    ensures { result ≡ plans.class_there (works.row_at (now work.now) id.now) }
{
    match id {
        None => None,
        Some(id) => match work.view.get(id) {
            None => None,
            Some(stored) => Some(stored.class),
        },
    }
}

/// Whether a version, if there is one, can rise.
pub fn can_rise(version: Option<i64>) -> bool
    ensures { result ≡ flushes.can_rise version }
{
    match version {
        None => true,
        Some(number) => number < i64::MAX,
    }
}

/// The version after a write.
pub fn raised(version: Option<i64>) -> Option<i64>
    requires { flushes.can_rise version ≡ true }
    ensures { result ≡ flushes.raised version }
{
    match version {
        None => None,
        Some(number) => Some(number + 1),
    }
}

/// Whether the converter of this name makes something of a value for its column. It doesn't where
/// it throws, where its answer counts as a throw, and where there is none of this name.
/// `OutOfMemory` where a growth was refused.
fn goes_through<B: Behaviour>(
    registry: &Registry<B>,
    name: &str,
    value: &Value,
) -> Result<bool, Cause>
    ensures ok { IfOk result (λ goes. goes
        ≡ is_some (column_in B.meaning registry.now name.now value.now)) }
    ensures err { IfErr result (λ cause. cause ≡ Cause.OutOfMemory) }
{
    match registry.to_column(name, value) {
        Ok(_) => Ok(true),
        Err(Cause::OutOfMemory) => Err(Cause::OutOfMemory),
        Err(_) => Ok(false),
    }
}

/// Whether a value goes through its attribute's converter, if there is one; null passes no
/// converter. `OutOfMemory` where a growth was refused.
fn converts<B: Behaviour>(
    registry: &Registry<B>,
    attribute: &Attribute,
    value: &Value,
) -> Result<bool, Cause>
    ensures ok { (m : PersistenceUnit) → let world = world_of B.meaning m registry.now in
        IfOk result (λ goes. goes
        ≡ flushes.converts world attribute.now.converter value.now) }
    ensures err { IfErr result (λ cause. cause ≡ Cause.OutOfMemory) }
{
    match (&attribute.converter, value) {
        (None, _) | (Some(_), Value::Null) => Ok(true),
        (Some(name), _) => goes_through(registry, name.as_str(), value),
    }
}

/// Whether no converter of an object throws (chapter 3.8). `OutOfMemory` where a growth was
/// refused.
pub fn all_convert<B: Behaviour>(unit: &ServedUnit<B>, object: &LiveObject) -> Result<bool, Cause>
    requires { HasShape unit.now.metamodel object.now }
    ensures ok { let world = world_of_unit B.meaning unit.now in
        IfOk result (λ convert. convert ≡ flushes.all_convert world object.now) }
    ensures err { IfErr result (λ cause. cause ≡ Cause.OutOfMemory) }
{
    let values = object.values.as_slice();
    let attributes = unit.metamodel.attributes_of(object.class);
    for (i, value) in values.iter().enumerate() {
        if !converts(&unit.registry, &attributes[i], value)? {
            return Ok(false);
        }
    }
    Ok(true)
}
