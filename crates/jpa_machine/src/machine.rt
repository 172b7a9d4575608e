//! The machine of a provider, as definitions and laws: what each call replies and leaves, and that
//! what holds of the machine between calls holds after each of them; what holds of the work of a
//! manager, and that the operations keep it.

ghost use Rattle.std.specs.Prelude.{◌≡◌, true};
ghost use Rattle.jpa_behaviour.specs.Behaviour.{World, IsRegular};
ghost use Rattle.jpa_operations.specs.fetch.Orderly.{IsOrderly};
ghost use Rattle.jpa_protocol.specs.declared.call.Call.{Call};
ghost use Rattle.jpa_protocol.specs.declared.reply.Reply.{Reply};
ghost use Rattle.jpa_machine.specs.machine.Machine.{Machine};
ghost use Rattle.jpa_machine.specs.machine.Invariant.{IsMachine, hands_representable};
ghost use Rattle.jpa_machine.specs.machine.Step.{Step};
ghost use Rattle.jpa_machine.specs.machine.Isolated.{IsSomeMove};

/// Each step is a move of which `isolation_law` of `jpa_open` speaks, for contracts to cite; it
/// does nothing. The move is allowed; it is a commit exactly where the call is a commit that was
/// accepted; and it is one of the manager that the call names, or of none (chapters 3.4.2 and 7.5).
pub fn move_law()
    ensures moves { (world : World) (M : Machine) (call : Call) (reply : Reply) (N : Machine)
        → IsOrderly world.model → IsRegular world → IsMachine world M
        → hands_representable call ≡ true → Step world M call reply N
        → IsSomeMove world M call reply N }
{}
