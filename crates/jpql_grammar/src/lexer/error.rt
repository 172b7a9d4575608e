//! Why no tree was read.
use std::alloc::{AllocError, AllocFailed};

/// Why no tree was read.
#[derive(Debug, Drop)]
pub enum ReadError {
    /// A growth was refused.
    Memory,
    /// The tokens are not written so.
    Syntax,
}

impl From<AllocError> for ReadError {
    ghost use Rattle.std.specs.Prelude.{◌≡◌};
    ghost use Rattle.jpql_grammar.specs.declared.lexer.error.ReadError.TheVariants.{Memory};

    ghost from_gives = { λ _ e. e ≡ Memory };

    fn from(_error: AllocError) -> ReadError {
        ReadError::Memory
    }
}

impl<T: Drop> From<AllocFailed<T>> for ReadError {
    ghost use Rattle.std.specs.Prelude.{◌≡◌};
    ghost use Rattle.jpql_grammar.specs.declared.lexer.error.ReadError.TheVariants.{Memory};

    ghost from_gives = { λ _ e. e ≡ Memory };

    fn from(_error: AllocFailed<T>) -> ReadError {
        ReadError::Memory
    }
}
