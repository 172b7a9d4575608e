//! The metamodel: which entities there are, how they inherit, and what they hold (chapter 2).
//!
//! `Draft` is what a mapping description says, by names; `PersistenceUnit` is the same with a place
//! for each name, as plain data; `Metamodel` is a persistence unit that some well-formed
//! description describes, with what its look-ups need kept beside it. Contracts see a `Metamodel`
//! as its `PersistenceUnit`.
//!
//! The definitions that contracts cite stand in `specs/`: in `Chains` the chains, members and sides
//! of a unit, in `Drafted` what names mean in a description, in `WellFormed` the conditions on it,
//! in `Described` the unit that it describes. That a description is well formed, `jpa_description`
//! checks. The crate stands on the crate of values alone.
#![tactic(auto)]

mod class_index;
mod copies;
mod draft;
mod index;
mod lineage;
mod metamodel;
mod unit;

pub use copies::copy_option;
pub use draft::{
    Cascade, Draft, DraftAttribute, DraftColumn, DraftEntity, DraftListener, DraftOrigin,
    DraftRelation, DraftRoot, DraftSide, DraftVersion, RelationKind,
};
pub use metamodel::Metamodel;
pub use unit::{
    Attribute, Cascades, Column, Entity, Listener, Member, Origin, Part, PersistenceUnit, Relation,
    Root, Side, VersionColumn,
};
