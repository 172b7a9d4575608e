//! What a call asks.
use jpa_value::{Seq, Text};
use jpa_work::heap::Handed;
use jpql_grammar::grammar::GivenList;
use jpql_meaning::eval::Datum;
use jpql_trees::tree::{Language, Query};
use jpql_trees::typed::Typed;

/// What is bound to a parameter (Jakarta Persistence 3.1, chapter 3.10.12), by its name: `x` for
/// `:x`, `1` for `?1`, and `value_name` of `x` and a place for a value of a collection.
#[derive(Drop)]
pub struct Binding {
    pub name: Text,
    pub value: Handed,
}

/// What query and querySingle are asked (chapters 3.10.1 and 3.10.3): the statement's text and its
/// language, the parameters that collections were handed in for, what is bound to parameters, how
/// many rows are skipped, and how many are kept at most.
#[derive(Drop)]
pub struct Asked {
    pub language: Language,
    pub lists: Seq<GivenList>,
    pub text: Text,
    pub bindings: Seq<Binding>,
    pub first: Option<i64>,
    pub max: Option<i64>,
}

/// What a text says (chapter 4): its tree, which a text outside the grammar hasn't, and whether each
/// collection that was handed in stands somewhere behind IN.
#[derive(Drop)]
pub struct Reading {
    pub tree: Option<Query>,
    pub uses_lists: bool,
}

/// A statement, typed, with what stands for its parameters by place.
#[derive(Drop)]
pub struct Statement {
    pub typed: Typed,
    pub arguments: Seq<Datum>,
}
