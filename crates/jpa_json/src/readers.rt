//! Reading JSON: members of objects, each of its type.
//!
//! What a value of JSON is read as has `Described`: texts, integers of 64 bits, lists, and the
//! objects of the crates above. A reader fails for one of two reasons, `Unread`: the value has
//! another form, or memory ran out. A contract says what was read beside what a definition says of
//! the JSON data (`Gives`), so that a form is refused exactly where it means nothing; which refusal
//! that is, each crate above says once, by `or_refuse`.
//!
//! The definitions that contracts cite stand in `specs/`: what a reader answered in `Outcome`,
//! members and lists in `Members`, values in `Values`, texts of JSON in `JsonOf`. The crate stands
//! on the crate of values, on `serde_json` and on `hex`.

mod described;
mod members;
mod reading;
mod unread;
mod values;

pub use described::{Described, str_of};
pub use members::{member, only, str_at, text_at};
pub use reading::json_of;
pub use unread::{Unread, or_refuse};
pub use values::value_of;
