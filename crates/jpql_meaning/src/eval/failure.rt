//! Why nothing was computed.
ghost use Rattle.std.specs.Prelude.{◌≡◌};
ghost use Rattle.jpql_meaning.specs.declared.eval.failure.Failure.TheVariants.{Memory};

use std::alloc::{AllocError, AllocFailed};

/// Why nothing was computed.
#[derive(Drop)]
pub enum Failure {
    /// A growth was refused.
    Memory,
    /// An integer is outside 64 bits.
    Overflow,
}

impl From<AllocError> for Failure {
    ghost from_gives = { λ _ e. e ≡ Memory };

    fn from(_error: AllocError) -> Failure {
        Failure::Memory
    }
}

impl<T: Drop> From<AllocFailed<T>> for Failure {
    ghost from_gives = { λ _ e. e ≡ Memory };

    fn from(_error: AllocFailed<T>) -> Failure {
        Failure::Memory
    }
}
