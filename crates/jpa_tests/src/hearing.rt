//! A listener that is heard, without a run of the program.
use jpa_behaviour::{Heard, Image, Named, Registry};
use jpa_json::functions::{ProgramFunctions, read_functions, registry_of};
use jpa_value::{Cause, LifecycleEvent, Seq, Text, Value};
use jpql_trees::tree::Language;
use std::alloc::Global;
use std::test::Fail;

const NICK: &[u8] =
    b"{\"functions\":[{\"name\":\"nick\",\"make\":\"copy\",\"from\":\"name\",\"to\":\"nick\"}]}";

fn registry(alloc: Global) -> Result<Registry<ProgramFunctions>, Cause> {
    registry_of(alloc, Language::Profile, read_functions(alloc, NICK)?)
}

/// A person of this name.
fn image(alloc: Global, name: &str) -> Result<Image, Cause> {
    let mut values = Seq::new(alloc);
    values.push(Named {
        name: Text::of(alloc, "name")?,
        value: Value::Text(Text::of(alloc, name)?),
    })?;
    Ok(Image {
        entity: Text::of(alloc, "Person")?,
        event: LifecycleEvent::PreUpdate,
        values,
    })
}

/// Whether a text is assigned to an attribute, and nothing else.
fn assigns(heard: &Heard, name: &str, text: &str) -> bool {
    match heard {
        Heard::Assign(assigned) => match assigned.as_slice() {
            [one] => {
                one.name.as_str() == name
                    && matches!(&one.value, Value::Text(own) if own.as_str() == text)
            }
            _ => false,
        },
        Heard::Throw(_) => false,
    }
}

#[test]
fn a_name_is_copied(rt: HostRuntime) -> Result<(), Fail> {
    let registry = registry(rt.alloc())?;
    let image = image(rt.alloc(), "Ada")?;
    let heard = registry.hear("nick", &image)?;
    assert!(rt; assigns(&heard, "nick", "Ada"));
    Ok(())
}
