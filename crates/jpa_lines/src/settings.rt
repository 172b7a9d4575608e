//! How the program begins and ends: the words of its command line, and its exit statuses.
//!
//! `read_settings` reads the words by `clap`; `specs/Words` has the command, and `specs/Ending` the
//! statuses.

mod settings;
mod stop;

pub use settings::{Settings, read_settings};
pub use stop::{Stop, status};
