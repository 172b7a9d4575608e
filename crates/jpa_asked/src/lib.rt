//! What a call asks of a manager: the text of a statement, and what is bound to its parameters,
//! judged before anything is done (Jakarta Persistence 3.1, chapters 3.10 and 4).
//!
//! The definitions stand in `specs/`: `Reading` is the tree of a text, `Asking` the typed statement
//! with what stands for its parameters. The crate stands on live objects and on the reader and
//! typer of the query language.
#![tactic(auto)]

mod asked;
mod laws;
mod lists;
mod parameters;
mod statement;

pub use asked::{Asked, Binding, Reading, Statement};
pub use laws::read_laws;
pub use statement::{read_of, statement_of};
