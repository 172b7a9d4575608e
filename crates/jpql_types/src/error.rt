//! Why nothing was typed.
ghost use Rattle.std.specs.Prelude.{◌≡◌};
ghost use Rattle.jpql_types.specs.declared.error.TypingError.TheVariants.{Memory};

use std::alloc::{AllocError, AllocFailed};

/// Why nothing was typed.
#[derive(Drop)]
pub(crate) enum TypingError {
    /// A growth was refused.
    Memory,
    /// It is ill-typed.
    Typing,
}

impl From<AllocError> for TypingError {
    ghost from_gives = { λ _ e. e ≡ Memory };

    fn from(_error: AllocError) -> TypingError {
        TypingError::Memory
    }
}

impl<T: Drop> From<AllocFailed<T>> for TypingError {
    ghost from_gives = { λ _ e. e ≡ Memory };

    fn from(_error: AllocFailed<T>) -> TypingError {
        TypingError::Memory
    }
}
