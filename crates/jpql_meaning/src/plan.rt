//! What a statement means over a set of stored objects (Jakarta Persistence 3.1, chapter 4).
//!
//! The typed tree has the meaning: `specs/Paths` says where paths lead from a tuple, `Meaning` what
//! values, conditions and FROM give, `Selection` what a SELECT gives, `Bulk` what an UPDATE or a
//! DELETE makes of a set, and `Laws` what follows in a reader's words. Every part is computed, and
//! Overflow of a part is Overflow of the whole.

mod laws;

pub use laws::{
    alone_laws, distinct_laws, from_laws, front_laws, group_laws, order_laws, where_laws,
};
