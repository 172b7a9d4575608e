//! That the table of functions is what the grammar and the types of queries have.
ghost use Rattle.jpql_trees.specs.declared.tree.Function.{Function};
ghost use Rattle.jpql_text.specs.shapes.Shapes.{IsCountedBy, IsTypedBy};

/// A function that is called by its name takes as many arguments as its shape says, and a call of it
/// is well typed just where its shape says so, of the sort that the shape gives.
pub fn calls_are_typed_by_shape()
    ensures counts { (f : Function) → IsCountedBy f }
    ensures sorts { (f : Function) → IsTypedBy f }
{}
