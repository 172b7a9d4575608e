//! What a statement is typed by.
use crate::index::{NameIndex, PathIndex};
use crate::sort::Sort;
use jpa_model::Metamodel;
use jpa_value::Text;
use jpql_trees::tree::Path;

/// The parameters that are given, each with what it is of.
pub(crate) type Parameters<'a> = NameIndex<'a, (Text, Sort)>;

/// The grouping paths of a statement.
pub(crate) type Groups<'a> = PathIndex<'a, Path>;

/// What a statement is typed by: the metamodel, the parameters that are given, and its grouping
/// paths.
#[derive(Clone, Copy)]
pub(crate) struct Context<'a> {
    pub(crate) metamodel: &'a Metamodel,
    pub(crate) parameters: &'a Parameters<'a>,
    pub(crate) groups: &'a Groups<'a>,
}
