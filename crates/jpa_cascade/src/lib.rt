//! Cascades: which objects an operation reaches along relations, in which order.
//!
//! The definitions stand in `specs/Waves.antt`: the targets of a node, and the waves of a cascade,
//! breadth first. `specs/Reached.antt` says what a cascade is, and `cascade_laws` that the waves
//! are one; `waves` computes them over a manager at work. The crate stands on persistence contexts.
#![tactic(auto)]

mod context;
mod laws;
mod nodes;
mod targets;
mod view;
mod waving;

pub use context::{instance, state_of};
use jpa_value::Identity;
pub use laws::cascade_laws;
pub use targets::live_targets;
pub use view::{members, members_now};
pub use waving::waves;

/// The operations that go along relations (Jakarta Persistence 3.1, chapter 3.2).
#[derive(Clone, Copy)]
pub enum Operation {
    Persist,
    Merge,
    Remove,
    Refresh,
    Detach,
}

/// A node of a cascade: an object by its place in the heap, or an identity of the view without an
/// instance in the context.
#[derive(Drop)]
pub enum Node {
    Live(usize),
    Bare(Identity),
}
