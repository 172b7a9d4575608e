//! What a mapping description says, with names where a persistence unit has places and with numbers
//! of any size.
use crate::unit::Part;
use jpa_value::{Kind, Seq, Text};

/// The version attribute of a hierarchy.
#[derive(Drop)]
pub struct DraftVersion {
    pub name: Text,
    pub column: i64,
}

/// What the root of a hierarchy says for all its classes.
#[derive(Drop)]
pub struct DraftRoot {
    pub table: i64,
    pub key: Seq<Part>,
    /// The name of the embedded id that the parts stand in, where there is one.
    pub embedded: Option<Text>,
    pub generated: bool,
    pub version: Option<DraftVersion>,
}

/// Where a class stands in its hierarchy.
#[derive(Drop)]
pub enum DraftOrigin {
    /// It begins one.
    Root(DraftRoot),
    /// It extends the entity of this name.
    Extends(Text),
}

/// An attribute with one value.
#[derive(Drop)]
pub struct DraftAttribute {
    pub name: Text,
    pub kind: Kind,
    pub column: i64,
    pub required: bool,
    /// The name of its converter, where it has one.
    pub converter: Option<Text>,
}

/// How many objects stand on the two sides of a relation: first on the declaring side, then on the
/// target's.
#[derive(Clone, Copy)]
pub enum RelationKind {
    ManyToOne,
    OneToMany,
    OneToOne,
    ManyToMany,
}

/// The column of an owning to-one relation.
#[derive(Clone, Copy)]
pub struct DraftColumn {
    pub column: i64,
    pub required: bool,
}

/// Where a relation is kept.
#[derive(Drop)]
pub enum DraftSide {
    /// In a column of the declaring entity's table.
    Column(DraftColumn),
    /// In the join table of this number.
    JoinTable(i64),
    /// By the target's relation of this name.
    MappedBy(Text),
}

/// An operation that goes along a relation, or all of them.
#[derive(Clone, Copy)]
pub enum Cascade {
    Persist,
    Merge,
    Remove,
    Refresh,
    Detach,
    All,
}

/// A relation to another entity.
#[derive(Drop)]
pub struct DraftRelation {
    pub name: Text,
    pub kind: RelationKind,
    /// The target's name.
    pub target: Text,
    pub side: DraftSide,
    pub cascade: Seq<Cascade>,
    pub orphan_removal: bool,
}

/// A listener or a callback, with the names of the events that it hears.
#[derive(Drop)]
pub struct DraftListener {
    pub name: Text,
    pub events: Seq<Text>,
}

/// An entity class.
#[derive(Drop)]
pub struct DraftEntity {
    pub name: Text,
    pub origin: DraftOrigin,
    /// The discriminator, where it is not the name.
    pub discriminator: Option<Text>,
    pub attributes: Seq<DraftAttribute>,
    pub relations: Seq<DraftRelation>,
    pub listeners: Seq<DraftListener>,
    pub callbacks: Seq<DraftListener>,
    pub exclude_default: bool,
    pub exclude_super: bool,
}

/// A whole description: its revision, the default listeners and the entities.
#[derive(Drop)]
pub struct Draft {
    pub revision: i64,
    pub listeners: Seq<DraftListener>,
    pub entities: Seq<DraftEntity>,
}
