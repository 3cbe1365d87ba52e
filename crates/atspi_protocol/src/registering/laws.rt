//! Laws of the registry, over the definitions that its contract cites.

ghost use Rattle.atspi_protocol.specs.registering.Laws.{RepliesOnce};

/// Once the registry has its name, a call that expects a reply gets exactly one return or error, to its sender and with
/// its serial; no other message gets any.
pub fn replies_once()
    ensures { RepliesOnce }
{}
