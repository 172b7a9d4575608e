//! Well-typed statements, with places for names.
//!
//! They are the trees of jpql_trees::tree again, since a list of resolved paths beside those would have to
//! be walked along with them wherever a query is given a meaning.
use crate::tree::{Against, Aggregate, Arithmetic, Comparison, Function, Sign};
use crate::typed::path::{Step, TypedPath};
use jpa_model::Member;
use jpa_value::{Boxed, Seq, Text};

/// A value (chapter 4.7).
#[derive(Drop)]
pub enum TypedValue {
    Integer(i64),
    Text(Text),
    /// The parameter at this place of those given.
    Parameter(usize),
    Path(TypedPath),
    Signed(Sign, Boxed<TypedValue>),
    Arithmetic(Arithmetic, Boxed<TypedValue>, Boxed<TypedValue>),
    Call(Function, Seq<TypedValue>),
    Size(TypedPath),
    /// The aggregate, whether DISTINCT is written, and what it is of.
    Aggregate(Aggregate, bool, Boxed<TypedValue>),
}

/// Where a variable's objects come from (chapter 4.4).
#[derive(Drop)]
pub enum TypedOrigin {
    /// The objects of a class and its subclasses.
    Entity(usize),
    /// What the variable at this place leads to by a step.
    Related(usize, Step),
}

/// A conditional expression (chapter 4.6).
#[cycle(typed_condition)]
#[derive(Drop)]
pub enum TypedCondition {
    Or(Boxed<TypedCondition>, Boxed<TypedCondition>),
    And(Boxed<TypedCondition>, Boxed<TypedCondition>),
    Not(Boxed<TypedCondition>),
    Compare(Comparison, TypedValue, TypedValue),
    Between(TypedValue, TypedValue, TypedValue),
    In(TypedValue, Seq<TypedValue>),
    Like(TypedValue, TypedValue, Option<Text>),
    IsNull(TypedValue),
    IsEmpty(TypedPath),
    Member(TypedValue, TypedPath),
    Exists(Boxed<TypedBlock>),
    Rows(Against, Comparison, TypedValue, Boxed<TypedBlock>),
    /// The place of a variable, and classes.
    Type(usize, Seq<usize>),
}

/// A variable of FROM, with the joins from it (chapter 4.4).
#[cycle(typed_condition)]
#[derive(Drop)]
pub struct TypedSource {
    pub origin: TypedOrigin,
    pub joins: Seq<TypedJoin>,
}

/// A join along a step of the variable at a place (chapter 4.4.5).
#[cycle(typed_condition)]
#[derive(Drop)]
pub struct TypedJoin {
    pub is_left: bool,
    pub of: usize,
    pub step: Step,
    pub on: Option<Boxed<TypedCondition>>,
}

/// A subquery (chapter 4.6.16).
#[cycle(typed_condition)]
#[derive(Drop)]
pub struct TypedBlock {
    pub item: TypedValue,
    pub sources: Seq<TypedSource>,
    pub filter: Option<Boxed<TypedCondition>>,
}

/// What ORDER BY sorts by: the item at a place, a path, or any other value.
#[derive(Drop)]
pub enum TypedSorted {
    Item(usize),
    Path(TypedPath),
    Value(TypedValue),
}

/// A key of ORDER BY (chapter 4.10).
#[derive(Drop)]
pub struct TypedKey {
    pub by: TypedSorted,
    pub is_descending: bool,
}

/// A SELECT statement (chapter 4.2.1).
#[derive(Drop)]
pub struct TypedSelect {
    pub is_distinct: bool,
    pub items: Seq<TypedValue>,
    pub sources: Seq<TypedSource>,
    pub filter: Option<Boxed<TypedCondition>>,
    pub groups: Seq<TypedPath>,
    pub having: Option<Boxed<TypedCondition>>,
    pub order: Seq<TypedKey>,
}

/// What an UPDATE sets a member to: a value, or null (chapter 4.11).
#[derive(Drop)]
pub struct TypedAssignment {
    pub member: Member,
    pub value: Option<TypedValue>,
}

/// A well-typed statement (chapter 4.2).
#[derive(Drop)]
pub enum Typed {
    Select(TypedSelect),
    Update {
        class: usize,
        assignments: Seq<TypedAssignment>,
        filter: Option<Boxed<TypedCondition>>,
    },
    Delete {
        class: usize,
        /// Whether its objects have a variable, the first in scope.
        is_named: bool,
        filter: Option<Boxed<TypedCondition>>,
    },
}
