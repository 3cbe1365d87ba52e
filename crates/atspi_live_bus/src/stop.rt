//! Why the bus stops.

ghost use Rattle.std.specs.Prelude.{◌≡◌};
ghost use Rattle.atspi_live_bus.specs.Stops.{IsFree};

use atspi_bus::BusFault;

/// Why the bus stops.
#[derive(Clone, Copy, Debug, PartialEq, Eq)]
pub(crate) enum Stop {
    /// An accept failed.
    HostFailed,
    /// The bus's own messages would pass number 4,294,967,295.
    Spent,
    NoMemory,
}

/// Why the bus stops where a message or a leaving of it was refused.
pub(crate) fn stop_of(fault: BusFault) -> Stop
    ensures free { IsFree result }
    ensures spent { result ≡ Stop.Spent → fault ≡ BusFault.Spent }
{
    match fault {
        BusFault::Spent => Stop::Spent,
        BusFault::NoMemory => Stop::NoMemory,
    }
}
