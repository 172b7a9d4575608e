//! The entities of a persistence unit as plain data (chapters 2 and 8.2): what a name names is a
//! place in a list.
use jpa_value::{Kind, LifecycleEvent, Seq, Text};

/// A part of a primary key (chapter 2.4).
#[derive(Drop)]
pub struct Part {
    pub name: Text,
    pub kind: Kind,
}

/// The version attribute of a hierarchy (chapter 3.4.2).
#[derive(Drop)]
pub struct VersionColumn {
    pub name: Text,
    /// From 1 to 1,000,000.
    pub column: u64,
}

/// What the root of a hierarchy says for all its classes (chapters 2.4 and 2.12).
#[derive(Drop)]
pub struct Root {
    /// From 1 to 1,000,000.
    pub table: u64,
    /// The primary key: 1 to 4 parts.
    pub key: Seq<Part>,
    /// The name of the embedded id that the parts stand in, where there is one.
    pub embedded: Option<Text>,
    /// Whether the key's one part, an integer, is given by a generator.
    pub generated: bool,
    pub version: Option<VersionColumn>,
}

/// Where a class stands in its hierarchy (chapter 2.11).
#[derive(Drop)]
pub enum Origin {
    /// It begins one.
    Root(Root),
    /// It extends the entity at this place.
    Extends(usize),
}

/// An attribute with one value (chapter 2.2).
#[derive(Drop)]
pub struct Attribute {
    pub name: Text,
    pub kind: Kind,
    /// From 1 to 1,000,000.
    pub column: u64,
    /// Whether it may not be null.
    pub required: bool,
    /// The name of its converter (chapter 3.8), where it has one.
    pub converter: Option<Text>,
}

/// The column of an owning to-one relation (chapter 2.10).
#[derive(Clone, Copy)]
pub struct Column {
    /// From 1 to 1,000,000.
    pub column: u64,
    /// Whether it may not be none.
    pub required: bool,
}

/// A side of a relation (chapter 2.9). An inverse side names the place of its owner among the
/// relations of the target's chain.
#[derive(Clone, Copy)]
pub enum Side {
    ManyToOne(Column),
    OneToOne(Column),
    OneToOneInverse(usize),
    OneToMany(usize),
    /// The owning side, with the number of the join table, from 1 to 1,000,000.
    ManyToMany(u64),
    ManyToManyInverse(usize),
}

impl Side {
    ghost use Rattle.std.specs.Prelude.{◌≡◌};
    ghost use Rattle.jpa_model.specs.Chains as chains;

    /// Whether an object holds at most one other along it.
    pub fn is_to_one(self) -> bool
        ensures { result ≡ chains.is_to_one self }
    {
        !matches!(
            self,
            Side::OneToMany(_) | Side::ManyToMany(_) | Side::ManyToManyInverse(_)
        )
    }

    /// The place of the owning side among the relations of the target, for an inverse side.
    pub fn owner(self) -> Option<usize>
        ensures { result ≡ chains.owner_of self }
    {
        match self {
            Side::OneToOneInverse(owner)
            | Side::OneToMany(owner)
            | Side::ManyToManyInverse(owner) => Some(owner),
            _ => None,
        }
    }

    /// The column, for an owning to-one side.
    pub fn column(self) -> Option<Column>
        ensures { result ≡ chains.column_of self }
    {
        match self {
            Side::ManyToOne(column) | Side::OneToOne(column) => Some(column),
            _ => None,
        }
    }
}

/// Which operations go along a relation (chapter 3.2).
#[derive(Clone, Copy)]
pub struct Cascades {
    pub persist: bool,
    pub merge: bool,
    pub remove: bool,
    pub refresh: bool,
    pub detach: bool,
}

/// A relation to another entity (chapter 2.9).
#[derive(Drop)]
pub struct Relation {
    pub name: Text,
    pub side: Side,
    /// The place of the target among the entities.
    pub target: usize,
    pub cascade: Cascades,
    pub orphan_removal: bool,
}

/// A listener or a callback, with the events that it hears (chapter 3.5).
#[derive(Drop)]
pub struct Listener {
    pub name: Text,
    pub events: Seq<LifecycleEvent>,
}

/// An entity class (chapter 2.1).
#[derive(Drop)]
pub struct Entity {
    pub name: Text,
    pub origin: Origin,
    /// What tells the classes of a hierarchy apart in its table: at most 65,535 bytes (chapter
    /// 2.12).
    pub discriminator: Text,
    /// The attributes that this class itself declares.
    pub attributes: Seq<Attribute>,
    /// The relations that this class itself declares.
    pub relations: Seq<Relation>,
    /// The listeners of this class itself.
    pub listeners: Seq<Listener>,
    /// The callbacks of this class itself.
    pub callbacks: Seq<Listener>,
    /// Whether the default listeners are left out for it and its subclasses.
    pub exclude_default: bool,
    /// Whether the listeners of its superclasses are left out for it and its subclasses.
    pub exclude_super: bool,
}

/// What a name means for an object: a part of the key, the version, an attribute or a relation, by
/// its place in the chain of the class.
#[derive(Clone, Copy)]
pub enum Member {
    KeyPart(usize),
    Version,
    Attribute(usize),
    Relation(usize),
}

/// The revision of its rows, the default listeners and the entities, in the order of the
/// description.
#[derive(Drop)]
pub struct PersistenceUnit {
    /// 1, or 2 where the rows of a store were migrated once.
    pub revision: u64,
    pub listeners: Seq<Listener>,
    pub entities: Seq<Entity>,
}
