//! A list whose changes can be undone: what a refused call leaves is what it found.
//!
//! Contracts see an `UndoList` as two lists: `now`, its items, and `since`, the items as they were
//! when the changes were last kept. A change first notes what it overwrites, and fails before it
//! changes anything where there is no memory for the note; `keep`, `put`, `retain` and `undo` take
//! none. So a call may change what it touches in place, at a cost that does not grow with what it
//! leaves alone. The crate stands on the standard library alone.

mod list;

pub use list::UndoList;
