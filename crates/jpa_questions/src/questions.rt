//! One SELECT that is asked without a manager, off the rows of a store (Jakarta Persistence 3.1,
//! chapters 3.10 and 4).
//!
//! `read_parameters` reads words as parameters, `read_question` judges a text with them as a
//! provider's query does, `ask` answers it over any store of rows and `ask_store` over the cells of
//! a database, and `write_rows` writes the rows that were found. Both refuse a store of another
//! revision than the unit's, and write nothing. `write_plan` tells how a question is answered,
//! and `write_managed_plan` how a manager finds the objects for it. The definitions stand in `specs/`: `Parameters`, `Questions` and `Lines` for what is asked and
//! written, `Revisions`, `Asking` and `Plans` for the answer. `jpa_questions::row_queries` runs the statement.

mod asking;
mod bound;
mod line;
mod managed;
mod parameter;
mod plan;
mod question;
mod revision;
mod store;
mod telling;
mod unit;

pub use asking::ask;
pub use line::{write_row, write_rows};
pub use managed::write_managed_plan;
pub use parameter::{Misgiven, Parameter, ParameterValue, read_parameters};
pub use plan::write_plan;
pub use question::{Question, read_question};
pub use store::ask_store;
pub use telling::{Untold, tell_rows};
pub use unit::check_unit;
