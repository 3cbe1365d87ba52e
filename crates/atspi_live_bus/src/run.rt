//! A run of the bus on a Unix socket.

ghost use Rattle.std.specs.Prelude.{◌≡◌, ◌≢◌, [], IfErr, MatchResult, OnOk};
ghost use Rattle.atspi_live_host.specs.declared.call.Call.{Call};
ghost use Rattle.atspi_live_host.specs.declared.call.Did.{Did};
ghost use Rattle.atspi_live_host.specs.Calls.{Adds};
ghost use Rattle.atspi_live_bus.specs.Rounds.{IsRun};
ghost use Rattle.atspi_live_bus.specs.Service.{HasNoCall, HasSpent, IsService, OfTold};
ghost use Rattle.atspi_live_bus.specs.Stops.{Ends, StopBlames, status_of};

use crate::hall::Hall;
use crate::stop::Stop;
use atspi_base::Text;
use atspi_live_host::{Did, Host};
use std::alloc::Global;

/// The status of a run that stopped.
fn status_of(stop: Stop) -> u8
    ensures { result ≡ status_of stop }
{
    match stop {
        Stop::HostFailed => 7,
        Stop::Spent => 13,
        Stop::NoMemory => 5,
    }
}

/// Listens at the path.
fn listen<H: Host>(path: &Text, host: &mut H) -> Result<(), Stop>
    ensures links { H.links host.new ≡ H.links host.old }
    ensures calls { (did : Did) × Adds (H.calls host.old) (H.calls host.new) (Call.Listen path.now did) }
    ensures told { MatchResult result
        (λ _. (did : Did) × (did ≢ Did.Failed) × Adds (H.calls host.old) (H.calls host.new) (Call.Listen path.now did))
        (λ _. Adds (H.calls host.old) (H.calls host.new) (Call.Listen path.now Did.Failed)) }
    ensures same { OnOk result (H.faults host.new ≡ H.faults host.old) }
    ensures cause { IfErr result (λ stop. StopBlames stop (H.faults host.old) (H.faults host.new)) }
    ensures failed { IfErr result (λ stop. stop ≡ Stop.HostFailed) }
{
    match host.listen(path) {
        Did::Done(_) => Ok(()),
        Did::NotYet => Ok(()),
        Did::End => Ok(()),
        Did::Failed => Err(Stop::HostFailed),
    }
}

/// Listens at the path, and is the message bus for so many rounds: in each it takes in one link that waits, and then
/// makes one read and, where output waits, one write on each link, in the order in which they came. Each link is
/// authenticated as by a server, and what it sends then goes to `Bus`; what `Bus` has for it is given. A link that
/// ends, fails, or sends what is at fault is closed and leaves the bus, and one that the bus closes is closed at once.
///
/// Status 5: no memory is left. 7: the listen or an accept failed. 8: all rounds were done. 13: a message of the bus's
/// own would pass number 4,294,967,295.
pub fn bus<H: Host>(alloc: Global, path: &Text, rounds: u32, host: &mut H) -> u8
    requires links { H.links host.old ≡ [] }
    requires calls { OfTold HasNoCall (H.calls host.old) }
    ensures service { OfTold IsService (H.calls host.new) }
    ensures spent { result ≡ 13 → OfTold HasSpent (H.calls host.new) }
    ensures ends { Ends result (H.faults host.old) (H.faults host.new) }
    ensures rounds { OfTold (IsRun path.now result rounds) (H.calls host.new) }
{
    if let Err(stop) = listen(path, host) {
        return status_of(stop);
    }
    let mut hall = Hall::new(alloc);
    for _ in 0..rounds {
        match hall.round(host) {
            Ok(()) => {}
            Err(stop) => return status_of(stop),
        }
    }
    8
}
