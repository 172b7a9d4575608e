//! What serves calls.
ghost use Rattle.jpa_protocol.specs.declared.call.Call.{Call};
ghost use Rattle.jpa_protocol.specs.declared.reply.Reply.{Reply};

use crate::call::Call;
use crate::reply::Reply;

/// A persistence provider, as those see it who hand it calls one after another.
pub trait PersistenceProvider {
    /// From the first state, the provider may give this reply to the call and go on to the second.
    ghost steps: { Self → Call → Reply → Self → Type 0 };

    /// What stands between calls, as that the store holds what was committed.
    ghost stands: { Self → Type 0 };

    /// Serves a call.
    fn call(&mut self, call: Call) -> Reply
        ensures { steps self.old call result self.new };

    /// A step keeps what stands.
    ghost kept: { (old : Self) (call : Call) (reply : Reply) (new : Self) → steps old call reply new → stands old → stands new };
}
