//! What a listener's assignments make of an object.
ghost use Rattle.std.specs.Prelude.{◌≡◌, ◌<◌, true, length, option_copied, IfOk, IfErr, IfSome};
ghost use Rattle.jpa_work.specs.heap.Assign as assigns;
ghost use Rattle.jpa_work.specs.heap.Shape.{HasShape};
ghost use Rattle.jpa_model.specs.Chains.{attributes_of};
ghost use Rattle.jpa_value.specs.declared.refusal.Cause.{Cause};
ghost use Rattle.jpa_lifecycle.specs.Callbacks as callbacks;

use jpa_behaviour::Named;
use jpa_model::{Attribute, Member, Metamodel};
use jpa_value::{Cause, TryCopy, Value, fits};
use jpa_work::heap::LiveObject;

fn fits_attribute(attribute: Option<&Attribute>, value: &Value) -> bool
    ensures { result ≡ assigns.fits_attribute (option_copied attribute.entry) value.now }
{
    match attribute {
        None => false,
        Some(attribute) => fits(attribute.kind, value),
    }
}

/// Whether a member of a class takes a value that a listener assigns: an attribute, where the value
/// fits it.
fn takes(metamodel: &Metamodel, class: usize, member: Option<Member>, value: &Value) -> bool
    requires { class < length metamodel.now.entities }
    ensures { result ≡ callbacks.takes (attributes_of metamodel.now class) member value.now }
{
    match member {
        Some(Member::Attribute(place)) => {
            fits_attribute(metamodel.attributes_of(class).get(place), value)
        }
        _ => false,
    }
}

/// An attribute that takes a value gets it.
fn assign(metamodel: &Metamodel, object: &mut LiveObject, member: Option<Member>, value: Value)
    requires shape { HasShape metamodel.now object.old }
    requires taken { callbacks.takes (attributes_of metamodel.now object.old.class) member value
        ≡ true }
    ensures assigned { object.new ≡ callbacks.assigned_to member object.old value }
    ensures shape { HasShape metamodel.now object.new }
{
    if let Some(Member::Attribute(place)) = member {
        object.values.set(place, value);
    }
}

/// An object after a listener's assignments, in their order; none where one of them is not allowed:
/// to what is no attribute, or of a value that doesn't fit it. Fails for want of memory alone, with
/// `OutOfMemory`.
pub(crate) fn assigned(
    metamodel: &Metamodel,
    object: &LiveObject,
    assignments: &[Named],
) -> Result<Option<LiveObject>, Cause>
    requires { HasShape metamodel.now object.now }
    ensures ok { IfOk result (λ made. made ≡ callbacks.assigned metamodel.now assignments.now
        object.now) }
    ensures shape { IfOk result (λ made. IfSome made (HasShape metamodel.now)) }
    ensures err { IfErr result (λ cause. cause ≡ Cause.OutOfMemory) }
{
    let mut made = object.try_copy()?;
    for assignment in assignments {
        let member = metamodel.member_of(made.class, assignment.name.as_str());
        if !takes(metamodel, made.class, member, &assignment.value) {
            return Ok(None);
        }
        assign(metamodel, &mut made, member, assignment.value.try_copy()?);
    }
    Ok(Some(made))
}
