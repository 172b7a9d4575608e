//! Laws of the definitions, for contracts to cite.
ghost use Rattle.std.specs.Prelude.{List};
ghost use Rattle.jpa_model.specs.declared.unit.PersistenceUnit.{PersistenceUnit};
ghost use Rattle.jpa_stored.specs.objects.Sets.{StoredSet};
ghost use Rattle.jpql_bulk.specs.bulk.Laws.{BulkLaws};
ghost use Rattle.jpql_meaning.specs.declared.eval.datum.Datum.{Datum};

/// The laws of UPDATE and DELETE (chapter 4.11); it does nothing. The meaning of the statements
/// goes on from what they find in the old set.
pub fn bulk_laws()
    ensures { (m : PersistenceUnit) (s : StoredSet) (ps : List Datum) → BulkLaws m s ps }
{}
