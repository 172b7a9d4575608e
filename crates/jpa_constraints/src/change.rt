//! A change of a set of stored objects.
use jpa_value::Identity;

/// That something was written or taken out under an identity.
#[derive(Clone, Copy)]
pub struct Change<'a> {
    pub id: &'a Identity,
    /// The class of the object that stood there before, if one did.
    pub class_before: Option<usize>,
}
