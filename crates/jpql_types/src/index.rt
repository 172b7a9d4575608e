//! Lists whose names and paths are found without a walk.
mod by_name;
mod by_path;
mod path_key;

pub(crate) use by_name::NameIndex;
pub(crate) use by_path::PathIndex;
