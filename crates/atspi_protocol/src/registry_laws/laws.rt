//! Laws of the registry. Each is the contract of a function that does nothing.

ghost use Rattle.std.specs.Prelude.{ℕ, List, fold};
ghost use Rattle.atspi_message.specs.Envelope.{Envelope};
ghost use Rattle.atspi_protocol.specs.registering.RegistryState.{RegistryState};
ghost use Rattle.atspi_protocol.specs.registering.Steps.{registry_takes, takes};
ghost use Rattle.atspi_protocol.specs.registry_laws.Asked.{AllAskedFor};
ghost use Rattle.atspi_protocol.specs.registry_laws.Sends.{AllMeet, AreNumbered, started};

/// Each message that the registry sends, from its start on and whatever it takes, meets the rules of messages (D-Bus
/// Specification, "Message Types"), if only the messages that it takes have a serial that is not 0.
pub fn what_it_sends()
    ensures { (taken : List Envelope) → AreNumbered taken → AllMeet (fold takes started taken).out }
{}

/// News of children are sent only where some pair asks for them: of the pairs that are there once the message was
/// taken, so who leaves is not told of its own child.
pub fn what_is_asked_for()
    ensures { (s : RegistryState) (e : Envelope)
        → AllAskedFor (registry_takes s e).state.pairs (registry_takes s e).sent }
{}
