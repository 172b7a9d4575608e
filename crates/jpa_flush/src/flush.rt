//! The flush: what a manager's context writes to the set that it sees.
//!
//! The definition stands in `specs/Flush.antt`; `specs/Plan.antt` has it as a plan, which the code
//! makes, writes, judges and tells of, and `specs/Changes.antt` what a plan changes of a set. The
//! crate stands on the operations of a manager.

mod calm;
mod checking;
mod chosen;
mod differing;
mod flushing;
mod held;
mod judging;
mod keeping;
mod laws;
mod leading;
mod links;
mod locks;
mod orphans;
mod passes;
mod planning;
mod reaching;
mod remembering;
mod settling;
mod steps;
mod still;
mod storing;
mod telling;
mod touched;
mod walking;
mod writing;

pub use calm::{is_calm, is_calm_unlocked};
pub use chosen::Looked;
pub use flushing::{flush, flush_if};
pub use keeping::{keep_links, keep_names};
pub use laws::{calm_laws, mark_laws};
pub use leading::is_linked;
pub use locks::reads_hold;
pub use touched::looked;
