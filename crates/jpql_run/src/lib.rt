//! Statements run over the set that a transaction sees (Jakarta Persistence 3.1, chapter 4).
//!
//! Objects are borrowed from the set, and none is copied while tuples are joined. What is found is
//! what the definitions of jpql_meaning::plan say: the same tuples in the same order, or the same Overflow.
#![tactic(auto)]

mod alone;
mod asking;
mod block;
mod bounds;
mod by_key;
mod by_key_span;
mod by_link;
mod by_on;
mod by_reference;
mod by_span;
mod by_value;
mod calm;
mod choosing;
mod collections;
mod conditions;
mod drops;
mod ends;
mod finding;
mod from;
mod fronts;
mod gathering;
mod hardest;
mod holding;
mod indexed;
mod indexes;
mod joins;
mod known;
mod laws;
mod likes;
mod links;
mod looked_up;
mod members;
mod object;
mod passing;
mod paths;
mod prints;
mod ready;
mod row_index;
mod rows_told;
mod run;
mod simple;
mod spans;
mod standing;
mod steps;
mod tuple;
mod tuples;
mod value_fronts;
mod values;
mod ways;

pub use asking::is_key_part;
pub use block::{objects_for, tuples_for};
pub use drops::{any_drops, filter_drops, value_drops};
pub use from::are_calm_all;
pub use fronts::{Side, first_objects, tuples_among};
pub use gathering::indexes_for;
pub use holding::{kept, truth, truth_by};
pub use indexes::Indexes;
pub use laws::{
    calm_laws, join_laws, key_laws, known_laws, leaving_out_laws, link_laws, lookup_laws,
    refusal_laws,
};
pub use looked_up::copied;
pub use object::{Object, object_of};
pub use paths::{is_broken, path, walked};
pub use run::Run;
pub use tuple::Tuple;
pub use tuples::objects_of;
pub use value_fronts::{ValueOrder, first_objects_by, valued_member};
pub use values::value;
pub use ways::{FoundBy, Way, Within, ways_of};
