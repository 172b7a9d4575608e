//! Why nothing was assigned.
ghost use Rattle.std.specs.Prelude.{◌≡◌};
ghost use Rattle.jpql_bulk.specs.bulk.Causes.{cause_of};
ghost use Rattle.jpql_bulk.specs.declared.bulk.refused.Refused.TheVariants.{Memory};

use jpa_value::{Cause, PersistenceFault};
use std::alloc::{AllocError, AllocFailed};

/// Why nothing was assigned.
#[derive(Drop)]
pub enum Refused {
    /// A growth was refused.
    Memory,
    /// A value is longer than a text or a byte value may be.
    Limit,
    /// An attribute's converter throws for its value.
    Converter,
    /// A version is set to null.
    Null,
}

impl Refused {
    /// The cause that a call is refused for.
    pub fn cause(&self) -> Cause
        ensures { result ≡ cause_of self.now }
    {
        match self {
            Refused::Memory => Cause::OutOfMemory,
            Refused::Limit => Cause::Limit,
            Refused::Converter => Cause::Persistence(PersistenceFault::Converter),
            Refused::Null => Cause::Persistence(PersistenceFault::Null),
        }
    }
}

impl From<AllocError> for Refused {
    ghost from_gives = { λ _ e. e ≡ Memory };

    fn from(_error: AllocError) -> Refused {
        Refused::Memory
    }
}

impl<T: Drop> From<AllocFailed<T>> for Refused {
    ghost from_gives = { λ _ e. e ≡ Memory };

    fn from(_error: AllocFailed<T>) -> Refused {
        Refused::Memory
    }
}
