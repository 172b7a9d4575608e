//! How the program ends.
ghost use Rattle.std.specs.Prelude.{◌≡◌};
ghost use Rattle.jpa_lines.specs.settings.Ending as ending;

use crate::lines::RunFault;
use jpa_value::{Cause, Refusal};

/// Why the program ends.
#[derive(Debug, Drop)]
pub enum Stop {
    /// The input ended, and its lines are answered.
    End,
    /// The command line asked for this text, the help or the version.
    Shown(String),
    /// The command line is refused, for which this is the text.
    Words(String),
    /// Before the first line, for this refusal.
    Refused(Refusal),
    /// The run broke off.
    Run(RunFault),
}

/// The exit status: 0 at the end of the input and after the help or the version, 2 for a command
/// line or a mapping that is refused, 3 for any other refusal before the first line, and 4 for a
/// run that broke off.
pub fn status(stop: &Stop) -> u8
    ensures { result ≡ ending.status stop.now }
{
    match stop {
        Stop::End | Stop::Shown(_) => 0,
        Stop::Words(_) | Stop::Refused(Refusal::Because(Cause::Mapping(_))) => 2,
        Stop::Refused(_) => 3,
        Stop::Run(_) => 4,
    }
}
