//! Laws of the definitions, for contracts to cite.
ghost use Rattle.std.specs.Prelude.{List, ℕ};
ghost use Rattle.jpa_behaviour.specs.Behaviour.{World};
ghost use Rattle.jpa_model.specs.Kept.{IsDescribed};
ghost use Rattle.jpa_model.specs.declared.unit.PersistenceUnit.{PersistenceUnit};
ghost use Rattle.jpa_stored.specs.objects.Sets.{StoredSet};
ghost use Rattle.jpql_bulk.specs.kept.Fits.{AreInherited};
ghost use Rattle.jpql_bulk.specs.kept.Laws.{KeepLaws};

/// The laws of what UPDATE and DELETE keep (chapter 4.11); it does nothing. What a well-typed
/// statement makes of a set that a store can hold a store can hold, where it is sound and its
/// values are the program's.
pub fn keep_laws()
    ensures { (world : World) (s : StoredSet) (numbers : List ℕ) → KeepLaws world s numbers }
{}

/// The law of inheritance (chapter 2.12); it does nothing. Of a unit that a description gives what
/// a class has, each class below it has in the same place.
pub fn inheritance_law()
    ensures { (m : PersistenceUnit) → IsDescribed m → AreInherited m }
{}
