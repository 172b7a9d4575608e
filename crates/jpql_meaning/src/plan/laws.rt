//! Laws of the definitions, for contracts to cite.
ghost use Rattle.std.specs.Prelude.{Bool, List};
ghost use Rattle.jpa_model.specs.declared.unit.PersistenceUnit.{PersistenceUnit};
ghost use Rattle.jpa_stored.specs.objects.Sets.{StoredSet};
ghost use Rattle.jpql_trees.specs.declared.typed.typed.TypedKey.{TypedKey};
ghost use Rattle.jpql_meaning.specs.declared.eval.datum.Datum.{Datum};
ghost use Rattle.jpql_meaning.specs.declared.eval.datum.Truth.{Truth};
ghost use Rattle.jpql_meaning.specs.eval.Answers.{Answer};
ghost use Rattle.jpql_meaning.specs.plan.Paths.{Tuple};
ghost use Rattle.jpql_meaning.specs.plan.Selection.{Row};
ghost use Rattle.jpql_meaning.specs.plan.Laws.{FromLaws, AloneLaws, WhereLaws, GroupLaws, OrderLaws, FrontLaws};
ghost use Rattle.jpql_meaning.specs.plan.Laws.{DistinctLaws};

/// The laws of FROM and nested blocks (chapters 4.4, 4.6.14 and 4.6.16); it does nothing. A range is
/// the objects of its class in rising order, an inner join a filter of related objects; a LEFT JOIN
/// loses no tuple; elements of FROM may be parted anywhere; the rows of a nested block are its item of
/// each tuple that is left, and EXISTS is whether it has a tuple.
pub fn from_laws()
    ensures { (m : PersistenceUnit) (s : StoredSet) (ps : List Datum) → FromLaws m s ps }
{}

/// The law of nested blocks that name no variable around them (chapter 4.6.16); it does nothing. For
/// all tuples of so many variables their rows are the same.
pub fn alone_laws()
    ensures { (m : PersistenceUnit) (s : StoredSet) (ps : List Datum) → AloneLaws m s ps }
{}

/// The laws of WHERE (chapter 4.5); it does nothing. Where nothing overflows, WHERE is the filter
/// of what is true, and tuples may be tested one by one.
pub fn where_laws()
    ensures { (test : Tuple → Answer Truth) (drops : Tuple → Bool) (ts : List Tuple) →
        WhereLaws test drops ts }
{}

/// The law of GROUP BY (chapter 4.8); it does nothing. The first group has the first tuple and all
/// that are grouped by the same, in their order, and the others are the groups of those that are
/// left: so each tuple stands in one group, and no two groups are of one key.
pub fn group_laws()
    ensures { (key : Tuple → List Datum) (t : Tuple) (ts : List Tuple) → GroupLaws key t ts }
{}

/// The laws of ORDER BY (chapter 4.10); it does nothing. It is the one stable sort by the keys.
pub fn order_laws()
    ensures { (keys : List TypedKey) (rows : List Row) → OrderLaws keys rows }
{}

/// The law of a front of an order (chapter 4.10); it does nothing. Where a test parts tuples so that
/// no row behind precedes one in front, and one in front precedes those behind that come before it,
/// ORDER BY gives the rows in front, in their order, and then the others in theirs.
pub fn front_laws()
    ensures { (keys : List TypedKey) (p : Tuple → Bool) (row : Tuple → Row) (ts : List Tuple) →
        FrontLaws keys p row ts }
{}

/// The law of DISTINCT (chapter 4.9); it does nothing. One more row is kept exactly where no row
/// before it is the same.
pub fn distinct_laws()
    ensures { (rows : List Row) (row : Row) → DistinctLaws rows row }
{}
