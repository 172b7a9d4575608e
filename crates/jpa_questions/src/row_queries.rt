//! Stored objects read off a store of rows under changes, and SELECT statements over them, for one
//! who has no provider (Jakarta Persistence 3.1, chapters 2.4, 2.10 to 2.12 and 4.2.1).
//!
//! `object_under` reads one object off its row, by one look at it, and `set_seen` the whole set, one
//! table after another. `run` gives what a statement gives over the set whose rows a store holds
//! under changes of its own: a statement that asks one object by its key reads that object's row
//! alone; another reads all rows. The program's `--query` calls it. `found_by_update` and
//! `found_by_delete` give what those statements find in that set (chapter 4.11); no program calls
//! them yet.
//!
//! `specs/Seen.antt` says which set is seen, and `specs/Answered.antt` what a refusal says of the
//! answer; what a look leaves of the store stands in `Looks` of `jpa_rows`. The crate stands on the overlay of
//! rows (`jpa_rows::overlay`), on objects as rows (`jpa_object_rows::mapper`), on the judgment of rows (`jpa_opening::reader`)
//! and on `jpql_select`, the one evaluator.

mod alone;
mod answering;
mod changing;
mod gathering;
mod opened;
mod owning;
mod running;
mod seen;

pub use alone::object_under;
pub use changing::{found_by_delete, found_by_update};
pub use gathering::set_seen;
pub use running::run;
