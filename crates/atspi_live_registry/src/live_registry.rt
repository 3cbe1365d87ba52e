//! The registry as an end that converses.

ghost use Rattle.std.specs.Prelude.{[], length, IfOk};
ghost use Rattle.atspi_live_registry.specs.Standing as standing;
ghost use Rattle.atspi_live_registry.specs.Standing.{IsAfter};

use atspi_base::NoMemory;
use atspi_live_conversation::BusEnd;
use atspi_message::Message;
use atspi_message_in_place::MessageRef;
use atspi_protocol::ends::EndFault;
use atspi_registry::Registry;
use std::alloc::Global;

/// A registry that has started.
#[derive(Drop)]
pub(crate) struct LiveRegistry {
    registry: Registry,
}

/// A registry with its calls to the bus queued.
pub(crate) fn start(alloc: Global) -> Result<LiveRegistry, NoMemory>
    ensures { IfOk result (λ l. IsAfter l.registry [] []) }
{
    let Ok(mut registry) = Registry::new(alloc) else {
        return Err(NoMemory);
    };
    if registry.start().is_err() {
        return Err(NoMemory);
    }
    Ok(LiveRegistry { registry })
}

impl BusEnd for LiveRegistry {
    // it tells nothing beside the link
    ghost Stands = { λ aside l took said. IsAfter l.registry took said };

    ghost IsSpent = { λ l e. standing.IsSpent l.registry e };

    ghost queued = { λ l. length l.registry.out };

    fn take(&mut self, m: &MessageRef) -> Result<(), EndFault> {
        self.registry.take(m)
    }

    fn next(&mut self) -> Option<Message> {
        self.registry.next()
    }
}
