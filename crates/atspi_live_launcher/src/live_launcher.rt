//! The launcher as an end that converses.

ghost use Rattle.std.specs.Prelude.{◌≡◌, [], length, IfOk};
ghost use Rattle.atspi_live_launcher.specs.Standing as standing;
ghost use Rattle.atspi_live_launcher.specs.Standing.{IsAfter};

use atspi_base::{NoMemory, Text};
use atspi_launcher::Launcher;
use atspi_live_conversation::BusEnd;
use atspi_message::Message;
use atspi_message_in_place::MessageRef;
use atspi_protocol::ends::EndFault;
use std::alloc::Global;

/// A launcher that has started.
#[derive(Drop)]
pub(crate) struct LiveLauncher {
    launcher: Launcher,
}

/// A launcher with this address, whose calls to the bus are queued.
pub(crate) fn start(alloc: Global, address: Text) -> Result<LiveLauncher, NoMemory>
    ensures begins { IfOk result (λ l. IsAfter address l.launcher [] []) }
    ensures address { IfOk result (λ l. l.launcher.state.address ≡ address) }
{
    let mut launcher = Launcher::new(alloc, address);
    if launcher.start().is_err() {
        return Err(NoMemory);
    }
    Ok(LiveLauncher { launcher })
}

impl BusEnd for LiveLauncher {
    // beside the link it was told the address
    ghost Stands = { λ address l took said. IsAfter address l.launcher took said };

    ghost IsSpent = { λ l e. standing.IsSpent l.launcher e };

    ghost queued = { λ l. length l.launcher.out };

    fn take(&mut self, m: &MessageRef) -> Result<(), EndFault> {
        self.launcher.take(m)
    }

    fn next(&mut self) -> Option<Message> {
        self.launcher.next()
    }
}
