//! The events of the life cycle, as a reply tells them.

use jpa_value::{LifecycleEvent, Seq, Text};

/// An event as it is told: what happened, to the object of which number (from 1), and the names of
/// the listeners and callbacks that ran, in their order (Jakarta Persistence 3.1, section 3.5.2).
#[derive(Drop)]
pub struct Told {
    pub event: LifecycleEvent,
    pub object: u64,
    pub ran: Seq<Text>,
}
