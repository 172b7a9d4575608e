//! Mapping descriptions: from the text of a mapping to the metamodel that it describes, with its
//! history.
//!
//! A description stands in the place of the annotations and the XML descriptor of Jakarta
//! Persistence 3.1 (chapters 11 and 12): one object of JSON in UTF-8. It is read in three steps,
//! and the first that fails is told: the text is JSON, each object has its members
//! (`Mapping(Shape)`), the metamodel and its history are well formed (`Mapping(Model)`). JSON is
//! what `serde_json` reads, so the last of repeated members counts.
//!
//! The definitions that contracts cite stand in `specs/`: what JSON data describes in `DraftOf`,
//! one definition for each object, and what it says of changes in `HistoryOf`; the three steps
//! stand in `MappingOf`. The crate stands on the crates of values, of the metamodel, of its history
//! and of the reading of JSON, and on `serde_json`.
//!
//! | Object | Members (`?` marks those that may be absent) |
//! |---|---|
//! | mapping | `revision`, `listeners`? (default listeners), `entities`, `functions`? (not asked
//! here) |
//! | root entity | `name`, `table`, `key` (a list of `name` and `type`), `embedded`?, `generated`?,
//! `version`? (`name`, `column`), `dropped`?, and those of either entity |
//! | subclass | `name`, `extends`, and those of either entity |
//! | either entity | `discriminator`?, `attributes`?, `relations`?, `listeners`?, `callbacks`?,
//! `excludeDefault`?, `excludeSuper`? |
//! | attribute | `name`, `type`, `column`, `required`?, `converter`?, `since`?, `default`?, `was`?
//! |
//! | relation | `name`, `kind`, `target`, exactly one of `column` (then `required`? too),
//! `joinTable` and `mappedBy`, `cascade`?, `orphanRemoval`? |
//! | listener, callback | `name`, `events` |
//!
//! `revision`, `table`, `column`, `joinTable`, `since` and `was` are integers of 64 bits, and
//! `dropped` is a list of such. `generated`, `required`, `orphanRemoval`, `excludeDefault` and
//! `excludeSuper` are truths; an absent one is false. `key`, `entities`, `attributes`, `relations`,
//! `listeners`, `callbacks`, `cascade` and `events` are lists; an absent one is empty. `default` is
//! null, an integer of 64 bits, a text, or bytes as `{"hex":"0aff"}`. The others are texts: a
//! `type` is `int`, `text` or `bytes`, a `kind` is `manyToOne`, `oneToMany`, `oneToOne` or
//! `manyToMany`, and an entry of `cascade` is `PERSIST`, `MERGE`, `REMOVE`, `REFRESH`, `DETACH` or
//! `ALL`.
//!
//! `since`, `default`, `was` and `dropped` are for `revision` 2 alone (with another one
//! `Mapping(Model)`): a new attribute has `since` 2 and may have a `default`, one that moved has
//! `was`, its column in revision 1, and `dropped` has the columns that are no more.

mod changes;
mod entities;
mod members;
mod parts;
mod reading;

pub use reading::{Mapping, read_mapping};
