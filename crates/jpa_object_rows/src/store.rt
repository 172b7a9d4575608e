//! Committed objects over a store of rows: what a commit writes (Jakarta Persistence 3.1, chapters
//! 2.4 keys, 2.10 relations, 2.12 hierarchies, 3.2.4 synchronization to the database).
//!
//! `write` brings the objects that a transaction wrote or removed, and the next numbers of
//! generated keys, into a store of rows: it makes the changes over the committed rows, leaves out
//! those that leave a row as it stands, and commits the others as one transaction. It reads nothing
//! of the store, so that a disk that lies can't change what a commit answers: what stands is what
//! the rows of the view's committed objects are, noted in a second overlay. `specs/Written` says
//! what set comes and what a difference of rows is. The crate stands on the mapper of objects to
//! rows, on changes over rows and on the laws of `jpa_object_rows`; it names no database.

mod commit;
mod numbers;
mod object_change;
mod objects;
mod rows;

pub use commit::write;
