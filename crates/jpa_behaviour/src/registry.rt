//! The registry of stored functions.
ghost use Rattle.std.specs.Prelude.{◌≡◌, [], is_some, None, Ok, Err};
ghost use Rattle.jpa_value.specs.declared.refusal.Argument.{Argument};
ghost use Rattle.jpa_value.specs.declared.refusal.Cause.{Cause};
ghost use Rattle.jpa_model.specs.Described.{IsUnlessMemory};
ghost use Rattle.jpa_behaviour.specs.Behaviour.{IsRegular};
ghost use Rattle.jpa_behaviour.specs.Registered as spec;

use crate::behaviour::Behaviour;
use crate::by_name::ByName;
use crate::converted::or_thrown;
use crate::{Heard, Image};
use jpa_value::{Argument, Cause, Value};
use jpql_trees::tree::Language;
use std::alloc::Global;
use std::marker::Model;

/// Stored functions by name, and the language of queries. Listeners, with the callbacks among them,
/// and converters are two sorts of name.
#[derive(Drop)]
pub struct Registry<B: Behaviour> {
    alloc: Global,
    listeners: ByName<B::Listener>,
    converters: ByName<B::Converter>,
    language: Language,
}

impl<B: Behaviour> Model for Registry<B> {
    ghost use Rattle.jpa_behaviour.specs.Registered.{Registered};

    ghost Value = { Registered B.Listener B.Converter };

    ghost view = { λ r. record { listeners = r.listeners; converters = r.converters; language = r.language } };
}

impl<B: Behaviour> Registry<B> {
    /// No functions, and a language of queries. Takes no memory.
    pub fn new(alloc: Global, language: Language) -> Registry<B>
        ensures listeners { result.listeners ≡ [] }
        ensures converters { result.converters ≡ [] }
        ensures language { result.language ≡ language }
    {
        Registry {
            alloc,
            listeners: ByName::new(alloc),
            converters: ByName::new(alloc),
            language,
        }
    }

    /// The language of queries (chapter 4). Takes no memory.
    pub fn language(&self) -> Language
        ensures { result ≡ self.now.language }
    {
        self.language
    }

    /// Whether there is a listener or callback of this name. Takes no memory.
    pub fn has_listener(&self, name: &str) -> bool
        ensures { result ≡ is_some (spec.known_as name.now self.now.listeners) }
    {
        self.listeners.has(name)
    }

    /// Whether there is a converter of this name. Takes no memory.
    pub fn has_converter(&self, name: &str) -> bool
        ensures { result ≡ is_some (spec.known_as name.now self.now.converters) }
    {
        self.converters.has(name)
    }

    /// Adds a listener or callback. A listener's name that is there already is
    /// `IllegalArgument(second)`; after a refusal the registry is unchanged and the listener is
    /// dropped.
    pub fn add_listener(&mut self, name: &str, what: B::Listener) -> Result<(), Cause>
        ensures added { spec.Adds result self.old.listeners self.new.listeners
            (spec.added name.now what self.old.listeners) }
        ensures kept { self.new.converters ≡ self.old.converters }
        ensures same { self.new.language ≡ self.old.language }
    {
        self.listeners.add(self.alloc, name, what)
    }

    /// Adds a converter. A converter's name that is there already is `IllegalArgument(second)`;
    /// after a refusal the registry is unchanged and the converter is dropped.
    pub fn add_converter(&mut self, name: &str, what: B::Converter) -> Result<(), Cause>
        ensures added { spec.Adds result self.old.converters self.new.converters
            (spec.added name.now what self.old.converters) }
        ensures kept { self.new.listeners ≡ self.old.listeners }
        ensures same { self.new.language ≡ self.old.language }
    {
        self.converters.add(self.alloc, name, what)
    }

    /// What the listener or callback of this name answers to an image; an unknown name is
    /// `IllegalArgument(name)`.
    pub fn hear(&self, name: &str, image: &Image) -> Result<Heard, Cause>
        ensures unknown { spec.known_as name.now self.now.listeners ≡ None → result
            ≡ Err (Cause.IllegalArgument Argument.Name) }
        ensures answer { IsUnlessMemory result (spec.if_known
            (spec.known_as name.now self.now.listeners)
            (Ok (spec.heard_in B.meaning self.now name.now image.now))) }
    {
        let Some(listener) = self.listeners.get(name) else {
            return Err(Cause::IllegalArgument(Argument::Name));
        };
        B::hear(self.alloc, listener, image)
    }

    /// What the converter of this name makes of an attribute's value for its column; an unknown
    /// name is `IllegalArgument(name)`. Where it throws, or answers null or a value of over 65,535
    /// bytes, that is `Persistence(converter)`.
    pub fn to_column(&self, name: &str, value: &Value) -> Result<Value, Cause>
        ensures unknown { spec.known_as name.now self.now.converters ≡ None → result
            ≡ Err (Cause.IllegalArgument Argument.Name) }
        ensures answer { IsUnlessMemory result (spec.if_known
            (spec.known_as name.now self.now.converters)
            (spec.or_thrown (spec.column_in B.meaning self.now name.now value.now))) }
    {
        let Some(converter) = self.converters.get(name) else {
            return Err(Cause::IllegalArgument(Argument::Name));
        };
        or_thrown(B::to_column(self.alloc, converter, value)?)
    }

    /// What the converter of this name makes of a column's value for its attribute; it is refused
    /// as `to_column` is.
    pub fn to_attribute(&self, name: &str, value: &Value) -> Result<Value, Cause>
        ensures unknown { spec.known_as name.now self.now.converters ≡ None → result
            ≡ Err (Cause.IllegalArgument Argument.Name) }
        ensures answer { IsUnlessMemory result (spec.if_known
            (spec.known_as name.now self.now.converters)
            (spec.or_thrown (spec.attribute_in B.meaning self.now name.now value.now))) }
    {
        let Some(converter) = self.converters.get(name) else {
            return Err(Cause::IllegalArgument(Argument::Name));
        };
        or_thrown(B::to_attribute(self.alloc, converter, value)?)
    }

    /// The laws of registries, for contracts to cite; it does nothing. No name of a sort stands
    /// twice, and with any entities the registry makes a regular world.
    pub fn laws(&self)
        ensures names { spec.AreNamedOnce self.now }
        ensures regular { (m : _) → IsRegular (spec.world_of B.meaning m self.now) }
    {
        self.listeners.law();
        self.converters.law();
    }
}
