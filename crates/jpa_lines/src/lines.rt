//! From lines to calls, from replies to lines, and the run over both.
//!
//! A line is UTF-8 text of one JSON object, with the member `call` and exactly the members of that
//! call; a reply is one line of compact JSON. The model of a run is its bytes: the lines of the
//! input, what each of them means, and the text of the replies. It stands on jpa_protocol for
//! calls, replies and what serves them, on jpa_json for the reading of members, and on serde_json;
//! no provider is named here, so that a run is proved once for each of them.

pub mod laws;
pub mod reading;
pub mod run;
pub mod writing;

pub use reading::read_call;
pub use run::{RunFault, write_text};
pub use writing::{tell_value, write_reply};
