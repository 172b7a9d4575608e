//! Why examples can't be tried.
use jpa_value::Cause;
use std::alloc::{AllocError, AllocFailed};
use std::io;

/// Why examples can't be tried.
#[derive(Drop)]
pub enum Stop {
    /// A refusal that is no answer.
    Refused(Cause),
    /// A file has another form.
    Form,
    /// A file can't be read, or nothing can be printed.
    Files,
}

impl Stop {
    /// What is told of it.
    pub(crate) fn name(&self) -> &'static str {
        match self {
            Stop::Refused(cause) => cause.name(),
            Stop::Form => "an example has another form",
            Stop::Files => "a file can't be read",
        }
    }
}

impl From<Cause> for Stop {
    fn from(cause: Cause) -> Stop {
        Stop::Refused(cause)
    }
}

impl From<AllocError> for Stop {
    fn from(_refused: AllocError) -> Stop {
        Stop::Refused(Cause::OutOfMemory)
    }
}

impl<T: Drop> From<AllocFailed<T>> for Stop {
    fn from(_refused: AllocFailed<T>) -> Stop {
        Stop::Refused(Cause::OutOfMemory)
    }
}

impl From<io::Error> for Stop {
    fn from(error: io::Error) -> Stop {
        match error.kind() {
            io::ErrorKind::OutOfMemory => Stop::Refused(Cause::OutOfMemory),
            _ => Stop::Files,
        }
    }
}
