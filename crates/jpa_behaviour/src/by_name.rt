//! What was added under names.
ghost use Rattle.std.specs.Prelude.{◌≡◌, true, [], ◌∷◌, ◌++◌, None, is_some, option_copied, string_bytes, OnOk, OnErr, IfErr};
ghost use Rattle.jpa_value.specs.declared.refusal.Cause.{Cause};
ghost use Rattle.jpa_model.specs.WellFormed.{are_distinct_by};
ghost use Rattle.jpa_behaviour.specs.Registered.{added, known_as, Adds};

use indexmap::IndexMap;
use jpa_value::{Argument, Cause};
use std::alloc::Global;
use std::marker::Model;

/// What was added under names, in the order of adding; no name stands twice.
#[derive(Drop)]
pub(crate) struct ByName<W> {
    known: IndexMap<String, W>,
}

impl<W> Model for ByName<W> {
    ghost use Rattle.std.specs.Prelude.{◌≡◌, true, List, map};
    ghost use Rattle.jpa_model.specs.WellFormed.{are_distinct_by};
    ghost use Rattle.jpa_behaviour.specs.Registered.{Known};
    ghost use Rattle.jpa_behaviour.specs.Entries.{known_in};

    ghost Value = { List (Known W) };

    ghost view = { λ names. known_in names.known.entries };

    ghost invariant = { λ names. are_distinct_by (λ k. k.name) (known_in names.known.entries) ≡ true };
}

impl<W> ByName<W> {
    /// Nothing. Takes no memory.
    pub(crate) fn new(alloc: Global) -> ByName<W>
        ensures { result ≡ [] }
    {
        ByName {
            known: IndexMap::new(alloc),
        }
    }

    /// What was added under a name.
    pub(crate) fn get(&self, name: &str) -> Option<&W>
        ensures { option_copied result ≡ known_as name.now self.now }
    {
        self.known.get(name)
    }

    /// No name stands twice. It does nothing.
    pub(crate) fn law(&self)
        ensures { are_distinct_by (λ k. k.name) self.now ≡ true }
    {
        let _known = &self.known;
    }

    /// Whether something was added under a name.
    pub(crate) fn has(&self, name: &str) -> bool
        ensures { result ≡ is_some (known_as name.now self.now) }
    {
        self.get(name).is_some()
    }
}

impl<W: Drop> ByName<W> {
    // Adds it under a name that nothing stands under.
    fn put(&mut self, name: String, what: W) -> Result<(), Cause>
        requires { known_as (string_bytes name) self.old ≡ None }
        ensures put { OnOk result (self.new ≡ self.old
            ++ (record { name = string_bytes name; what = what }) ∷ []) }
        ensures kept { OnErr result (self.new ≡ self.old) }
        ensures err { IfErr result (λ cause. cause ≡ Cause.OutOfMemory) }
    {
        self.known.insert(name, what)?;
        Ok(())
    }

    /// Adds it under a name; a name that is there is `IllegalArgument(second)`. What is refused is
    /// dropped, and nothing has changed.
    pub(crate) fn add(&mut self, alloc: Global, name: &str, what: W) -> Result<(), Cause>
        ensures { Adds result self.old self.new (added name.now what self.old) }
    {
        if self.has(name) {
            return Err(Cause::IllegalArgument(Argument::Second));
        }
        let name = String::from_str(alloc, name)?;
        self.put(name, what)
    }
}
