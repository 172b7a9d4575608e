//! What a listener sees of an object.
ghost use Rattle.std.specs.Prelude.{◌≡◌, [], ◌∷◌, ◌++◌, length, map, IfOk, IfErr, OnOk};
ghost use Rattle.std.specs.List.{zip};
ghost use Rattle.jpa_work.specs.heap.Shape.{HasShape};
ghost use Rattle.jpa_model.specs.Chains as chains;
ghost use Rattle.jpa_value.specs.declared.refusal.Cause.{Cause};
ghost use Rattle.jpa_lifecycle.specs.Callbacks as callbacks;

use jpa_behaviour::{Image, Named};
use jpa_model::{Attribute, Metamodel, Part, Root};
use jpa_value::{Cause, LifecycleEvent, Seq, Text, TryCopy, Value};
use jpa_work::heap::LiveObject;
use std::alloc::Global;

/// The name of a part of a key, behind that of the embedded id where there is one.
fn part_name(alloc: Global, root: &Root, part: &Part) -> Result<Text, Cause>
    ensures ok { IfOk result (λ name. name ≡ chains.part_name root.now part.now) }
    ensures err { IfErr result (λ cause. cause ≡ Cause.OutOfMemory) }
{
    let Some(id) = &root.embedded else {
        return part.name.try_copy();
    };
    let mut name = String::from_str(alloc, id.as_str())?;
    name.push_str(".")?;
    name.push_str(part.name.as_str())?;
    Ok(Text::from_string(name)?)
}

/// Adds a copy of a value under its name.
fn push_value(values: &mut Seq<Named>, name: Text, value: &Value) -> Result<(), Cause>
    ensures ok { OnOk result (values.new ≡ values.old ++ record { name = name; value = value.now }
        ∷ []) }
    ensures err { IfErr result (λ cause. cause ≡ Cause.OutOfMemory) }
{
    let value = value.try_copy()?;
    values.push(Named { name, value })?;
    Ok(())
}

/// Adds the parts of a key.
fn push_key(alloc: Global, values: &mut Seq<Named>, root: &Root, key: &[Value]) -> Result<(), Cause>
    requires { length key.now ≡ length root.now.key }
    ensures ok { OnOk result (values.new ≡ values.old
        ++ callbacks.named (zip (map (chains.part_name root.now) root.now.key) key.now)) }
    ensures err { IfErr result (λ cause. cause ≡ Cause.OutOfMemory) }
{
    let parts = root.key.as_slice();
    for (i, value) in key.iter().enumerate() {
        push_value(values, part_name(alloc, root, &parts[i])?, value)?;
    }
    Ok(())
}

/// Adds the version, where the hierarchy has one.
fn push_version(values: &mut Seq<Named>, root: &Root, object: &LiveObject) -> Result<(), Cause>
    ensures ok { OnOk result (values.new ≡ values.old
        ++ callbacks.version_image root.now.version object.now) }
    ensures err { IfErr result (λ cause. cause ≡ Cause.OutOfMemory) }
{
    if let Some(version) = &root.version {
        let name = version.name.try_copy()?;
        let value = object.version.map_or(Value::Null, Value::Int);
        values.push(Named { name, value })?;
    }
    Ok(())
}

/// Adds the attributes.
fn push_attributes(
    values: &mut Seq<Named>,
    attributes: &[Attribute],
    held: &[Value],
) -> Result<(), Cause>
    requires { length held.now ≡ length attributes.now }
    ensures ok { OnOk result (values.new ≡ values.old
        ++ callbacks.named (zip (map (λ a. a.name) attributes.now) held.now)) }
    ensures err { IfErr result (λ cause. cause ≡ Cause.OutOfMemory) }
{
    for (i, value) in held.iter().enumerate() {
        push_value(values, attributes[i].name.try_copy()?, value)?;
    }
    Ok(())
}

/// What a listener or callback sees of an object to which an event happens: its entity's name, and
/// its values under their names (chapter 3.5). Fails for want of memory alone, with `OutOfMemory`.
pub(crate) fn image_of(
    alloc: Global,
    metamodel: &Metamodel,
    event: LifecycleEvent,
    object: &LiveObject,
) -> Result<Image, Cause>
    requires { HasShape metamodel.now object.now }
    ensures ok { IfOk result (λ image. image ≡ callbacks.image_of metamodel.now event
        object.now) }
    ensures err { IfErr result (λ cause. cause ≡ Cause.OutOfMemory) }
{
    let root = metamodel.root_of(object.class);
    let mut values = Seq::new(alloc);
    push_key(alloc, &mut values, root, object.key.as_slice())?;
    push_version(&mut values, root, object)?;
    let attributes = metamodel.attributes_of(object.class);
    push_attributes(&mut values, attributes, object.values.as_slice())?;
    Ok(Image {
        entity: metamodel.entity(object.class).name.try_copy()?,
        event,
        values,
    })
}
