//! Why a value was not read, and the refusal that this becomes.
ghost use Rattle.std.specs.Prelude.{◌≡◌};
ghost use Rattle.jpa_json.specs.readers.Outcome as outcome;
ghost use Rattle.jpa_json.specs.declared.readers.unread.Unread.TheVariants.{OutOfMemory};

use jpa_value::Cause;
use std::alloc::{AllocError, AllocFailed};

/// Why a value was not read.
#[derive(Clone, Copy, Debug)]
pub enum Unread {
    /// It has another form.
    Form,
    /// A growth was refused.
    OutOfMemory,
}

impl From<AllocError> for Unread {
    ghost from_gives = { λ _ unread. unread ≡ OutOfMemory };

    fn from(_refused: AllocError) -> Unread {
        Unread::OutOfMemory
    }
}

impl<T: Drop> From<AllocFailed<T>> for Unread {
    ghost from_gives = { λ _ unread. unread ≡ OutOfMemory };

    fn from(_refused: AllocFailed<T>) -> Unread {
        Unread::OutOfMemory
    }
}

/// What was read, or else a refusal: `form` of what has another form, `OutOfMemory` where a growth
/// was refused.
pub fn or_refuse<T>(read: Result<T, Unread>, form: Cause) -> Result<T, Cause>
    ensures { result ≡ outcome.or_refuse form read }
{
    match read {
        Ok(value) => Ok(value),
        Err(Unread::Form) => Err(form),
        Err(Unread::OutOfMemory) => Err(Cause::OutOfMemory),
    }
}
