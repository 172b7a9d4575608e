//! Changes over committed rows: an overlay, read together with the store of the rows.
//!
//! An overlay holds changes alone: a finite map from row ids to the row that is to stand there, or
//! to none where the row is dropped. Its reads take the store too, and answer as if the changes had
//! been made. `changes` gives the difference: the changes to make, without those that leave a row
//! as it was. Once they are made in the store, and the overlay has discarded its own, it sees the
//! same rows (`seen_after_commit` of `proofs/Difference`). `into_difference` gives the difference
//! with no look at the store, by a second overlay that says what stood. As with the store's own
//! reads, an answer is sure if the store is clean when it comes (`clean` of `RowSource` in
//! `jpa_rows`).
//!
//! `specs/Changes` of `jpa_rows::laws` defines rows with changes over them, and `proofs/Overlay`
//! there shows what is seen under an id, and that there is one difference. The crate stands on it,
//! on rows and on the places of a sorted list.

mod change;
mod merge;
mod overlay;
mod same;

pub use overlay::Overlay;
