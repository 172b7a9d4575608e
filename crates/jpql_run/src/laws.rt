//! Laws of what may be left out, for contracts to cite.
ghost use Rattle.std.specs.Prelude.{List, Option};
ghost use Rattle.std.specs.List.{AllByRecursion};
ghost use Rattle.jpa_model.specs.declared.unit.PersistenceUnit.{PersistenceUnit};
ghost use Rattle.jpa_stored.specs.objects.Sets.{StoredSet};
ghost use Rattle.jpql_trees.specs.declared.typed.typed.TypedCondition.{TypedCondition};
ghost use Rattle.jpql_trees.specs.declared.typed.typed.TypedSource.{TypedSource};
ghost use Rattle.jpql_meaning.specs.declared.eval.datum.Datum.{Datum};
ghost use Rattle.jpql_trees.specs.declared.typed.typed.TypedValue.{TypedValue};
ghost use Rattle.jpql_meaning.specs.plan.Paths.{Entry, Tuple};
ghost use Rattle.jpql_run.specs.Keys.{IsAlwaysTold, IsAnyTold};
ghost use Rattle.jpql_run.specs.Calm.{CalmLaws};
ghost use Rattle.jpql_run.specs.ByLink.{LinkLaws};
ghost use Rattle.jpql_run.specs.Lookups.{KeyLaws, LookupLaws, KnownLaws};
ghost use Rattle.jpql_run.specs.Refused.{AreJoinsTold, LeavingOut, JoinLeavingOut, RefusalLaws};

/// The laws of what can't overflow; it does nothing. Where no `+`, `-`, `*`, ABS, MOD or aggregate
/// stands, nested blocks and their items included, and no value beside the SUM of rows, Overflow
/// can't come from it.
pub fn calm_laws()
    ensures { CalmLaws }
{}

/// The law of what may be left out; it does nothing. Where WHERE and ON can't overflow, candidates
/// that WHERE or the ON of an inner join refuses decide nothing.
pub fn leaving_out_laws()
    ensures { (m : PersistenceUnit) (s : StoredSet) (ps : List Datum) (x : TypedSource)
        (more : List TypedSource) (c : Option TypedCondition) → AreJoinsTold x →
        AllByRecursion AreJoinsTold more → IsAnyTold c → LeavingOut m s ps x more c }
{}

/// The same of one join, by its own ON, LEFT or not; it does nothing.
pub fn join_laws()
    ensures { (m : PersistenceUnit) (s : StoredSet) (ps : List Datum) (on : TypedCondition) →
        IsAlwaysTold on → JoinLeavingOut m s ps on }
{}

/// The laws of what a condition refuses; it does nothing.
pub fn refusal_laws()
    ensures { (m : PersistenceUnit) (s : StoredSet) (ps : List Datum) (a b : TypedCondition)
        (t : Tuple) → RefusalLaws m s ps a b t }
{}

/// The laws of look-ups; it does nothing. What an index by value, an identity or the index of
/// references leaves out, an equation with what is known before refuses.
pub fn lookup_laws()
    ensures { (m : PersistenceUnit) (s : StoredSet) (ps : List Datum) (cs : List TypedCondition)
        (t : Tuple) (w : TypedValue) (y : Datum) (all : List Entry) →
        LookupLaws m s ps cs t w y all }
{}

/// What is known before a variable stands in the tuple; it does nothing.
pub fn known_laws()
    ensures { (m : PersistenceUnit) (s : StoredSet) (ps : List Datum) (t : Tuple) →
        KnownLaws m s ps t }
{}

/// The law of whole keys, of several parts too; it does nothing.
pub fn key_laws()
    ensures { (m : PersistenceUnit) (s : StoredSet) (ps : List Datum) (cs : List TypedCondition)
        (t : Tuple) → KeyLaws m s ps cs t }
{}

/// The law of keys that links lead to; it does nothing. What the index of references leaves out for
/// such a key, each part of which is asked, is refused.
pub fn link_laws()
    ensures { (m : PersistenceUnit) (s : StoredSet) (ps : List Datum) (cs : List TypedCondition)
        (t : Tuple) → LinkLaws m s ps cs t }
{}
