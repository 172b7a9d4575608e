//! Why a call is refused.
ghost use Rattle.std.specs.Prelude.{◌≡◌};

use crate::list::{Bytes, Text};
use std::alloc::{AllocError, AllocFailed};

/// What is wrong with what a call was handed, in the order in which it is told.
#[derive(Clone, Copy, Debug)]
pub enum Argument {
    Entity,
    Name,
    Type,
    Key,
    Version,
    State,
    Range,
    Syntax,
    Typing,
    Parameter,
    Second,
}

/// What the state of a manager or of an object does not allow.
#[derive(Clone, Copy, Debug)]
pub enum State {
    Active,
    Inactive,
    Unfetched,
    Reference,
    Statement,
}

/// What cannot be persisted.
#[derive(Clone, Copy, Debug)]
pub enum PersistenceFault {
    Key,
    Null,
    Reference,
    Unique,
    Generator,
    Version,
    Converter,
    Callback,
}

/// What is wrong with a mapping.
#[derive(Clone, Copy, Debug)]
pub enum MappingFault {
    Json,
    Shape,
    Model,
    Function,
}

/// Why a call is refused, other than that its transaction rolled back. Each layer below the
/// provider refuses with a cause, so that none can answer a Rollback.
#[derive(Debug, Drop)]
pub enum Cause {
    /// A growth was refused; nothing has changed.
    OutOfMemory,
    /// The store refused a statement for another cause than memory; nothing has changed.
    StoreFault,
    /// The line is no call.
    BadLine,
    /// No open entity manager has this number.
    NoSuchManager,
    /// No object has this number.
    NoSuchObject,
    /// The call was handed something that it does not take (`IllegalArgumentException`).
    IllegalArgument(Argument),
    /// The state does not allow the call (`IllegalStateException`).
    IllegalState(State),
    /// The call needs an open transaction (`TransactionRequiredException`).
    TransactionRequired,
    /// Another object has this identity (`EntityExistsException`).
    EntityExists,
    /// No stored object has this identity (`EntityNotFoundException`).
    EntityNotFound,
    /// The stored version is not the one that was read (`OptimisticLockException`, chapter 3.4).
    OptimisticLock,
    /// What would be stored is not allowed (`PersistenceException`).
    Persistence(PersistenceFault),
    /// A listener or callback threw this text (chapter 3.5).
    Listener(Text),
    /// A query for a single result found none (`NoResultException`).
    NoResult,
    /// A query for a single result found several (`NonUniqueResultException`).
    NonUniqueResult,
    /// A whole number in a query lies outside 64 bits.
    Overflow,
    /// Another manager has the open transaction.
    Busy,
    /// More than this profile allows.
    Limit,
    /// The mapping can't be served.
    Mapping(MappingFault),
    /// The store's cells stand for nothing: the table's number and the row's bytes, both zero and
    /// empty where no single row is at fault.
    Damaged(u64, Bytes),
}

/// Why a call is refused. A rollback never holds a rollback.
#[derive(Debug, Drop)]
pub enum Refusal {
    /// For this cause; a transaction stays open.
    Because(Cause),
    /// A commit of a transaction that could only roll back (`RollbackException`, chapter 7.5).
    RollbackMarked,
    /// A commit that was refused on its way, and rolled back (`RollbackException`, chapter 7.5).
    Rollback(Cause),
}

impl From<AllocError> for Cause {
    ghost use Rattle.jpa_value.specs.declared.refusal.Cause.TheVariants.{OutOfMemory};

    ghost from_gives = { λ _ cause. cause ≡ OutOfMemory };

    fn from(_refused: AllocError) -> Cause {
        Cause::OutOfMemory
    }
}

impl<T: Drop> From<AllocFailed<T>> for Cause {
    ghost use Rattle.jpa_value.specs.declared.refusal.Cause.TheVariants.{OutOfMemory};

    ghost from_gives = { λ _ cause. cause ≡ OutOfMemory };

    fn from(_refused: AllocFailed<T>) -> Cause {
        Cause::from(AllocError)
    }
}
