//! Laws of the definitions, for contracts to cite.
ghost use Rattle.jpa_behaviour.specs.Behaviour.{World};
ghost use Rattle.jpa_updates.specs.Held.{UpdateLaws};

/// The laws of executeUpdate (chapter 4.11); it does nothing. What is bound to parameters is of
/// their sorts, and what a statement makes of a set that a store can hold a store can hold.
pub fn update_laws()
    ensures { (world : World) → UpdateLaws world }
{}
