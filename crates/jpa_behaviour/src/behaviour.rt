//! What stored functions are, and what they mean.
ghost use Rattle.std.specs.Prelude.{◌≡◌, IfOk, IfErr};
ghost use Rattle.jpa_behaviour.specs.Registered.{Meaning, ConvertersAreInverse, ListenersAnswerRepresentable};
ghost use Rattle.jpa_value.specs.declared.refusal.Cause.{Cause};

use crate::{Heard, Image};
use jpa_value::{Cause, Value};
use std::alloc::Global;

/// The stored functions of a program: listeners and callbacks (Jakarta Persistence 3.1, chapter
/// 3.5) and converters (chapter 3.8). What each of them means is stated once, and what it does is
/// proved to be that.
pub trait Behaviour {
    /// A listener or callback.
    type Listener: Drop;
    /// A converter.
    type Converter: Drop;

    // What each of them answers.
    ghost meaning: { Meaning Self.Listener Self.Converter };

    /// What a listener answers to an image; `OutOfMemory` where a growth was refused.
    fn hear(alloc: Global, listener: &Self::Listener, image: &Image) -> Result<Heard, Cause>
        ensures heard { IfOk result (λ heard. heard ≡ meaning.heard listener.now image.now) }
        ensures err { IfErr result (λ cause. cause ≡ Cause.OutOfMemory) };

    /// What a converter makes of an attribute's value for its column, nothing where it throws;
    /// `OutOfMemory` where a growth was refused.
    fn to_column(
        alloc: Global,
        converter: &Self::Converter,
        value: &Value,
    ) -> Result<Option<Value>, Cause>
        ensures column { IfOk result (λ answer. answer
            ≡ meaning.column converter.now value.now) }
        ensures err { IfErr result (λ cause. cause ≡ Cause.OutOfMemory) };

    /// What a converter makes of a column's value for its attribute, nothing where it throws;
    /// `OutOfMemory` where a growth was refused.
    fn to_attribute(
        alloc: Global,
        converter: &Self::Converter,
        value: &Value,
    ) -> Result<Option<Value>, Cause>
        ensures attribute { IfOk result (λ answer. answer
            ≡ meaning.attribute converter.now value.now) }
        ensures err { IfErr result (λ cause. cause ≡ Cause.OutOfMemory) };

    // The two directions of a converter are inverse.
    ghost inverse: { ConvertersAreInverse meaning };

    // A listener that sees values of the program answers such.
    ghost representable: { ListenersAnswerRepresentable meaning };
}
