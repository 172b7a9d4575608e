//! The law that in a well-typed statement each name means something.
ghost use Rattle.std.specs.Prelude.{List};
ghost use Rattle.jpa_model.specs.declared.unit.PersistenceUnit.{PersistenceUnit};
ghost use Rattle.jpql_trees.specs.declared.tree.Query.{Query};
ghost use Rattle.jpql_trees.specs.tree.Names.{Text};
ghost use Rattle.jpql_types.specs.declared.sort.Sort.{Sort};
ghost use Rattle.jpql_types.specs.Resolved.{IsResolved};

/// The law of names (chapters 4.4.1 to 4.4.4), for contracts to cite; it does nothing. The typed
/// tree of a statement that was checked is the one that its names mean: the entity of each name,
/// the variable in scope, the steps of each path, the item that ORDER BY names.
pub fn resolved_law()
    ensures { (m : PersistenceUnit) (parameters : List (Text × Sort)) (q : Query) →
        IsResolved m parameters q }
{}
