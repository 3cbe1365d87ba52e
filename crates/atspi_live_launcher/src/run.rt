//! A run of the launcher on a Unix socket.

ghost use Rattle.std.specs.Prelude.{◌≡◌, ◌≤◌, []};
ghost use Rattle.atspi_live_conversation.specs.Reports.{Begins, Causes};
ghost use Rattle.atspi_live_launcher.specs.Runs.{AllSpeak, RunEnds};

use crate::live_launcher::start;
use crate::talking::talk;
use atspi_base::{Sink, Text};
use atspi_live_conversation::report;
use atspi_live_host::{Did, Host};
use std::alloc::Global;

/// Connects to the session bus at the path, and is the launcher there for so many rounds: authentication as a client,
/// then Hello and RequestName of org.a11y.Bus, then what `Launcher` does with this address of the accessibility bus.
/// What is given on the link is a front of the authentication's lines and then of the launcher's messages, for the
/// bytes that were taken.
///
/// Status 0: the peer ended. 4: the sink failed at the line of a fault. 5: no memory is left. 6: a message of the peer
/// is malformed, and the line `fault START PLACE REASON` was written, where START is how many bytes of messages stand
/// before it. 7: a call of the host failed. 8: all rounds were done. 10: the peer did not authenticate. 13: a message
/// would pass number 4,294,967,295.
pub fn launcher<K: Sink, H: Host>(
    alloc: Global,
    path: &Text,
    address: Text,
    rounds: u32,
    sink: &mut K,
    host: &mut H,
) -> u8
    requires calls { Begins (H.calls host.old) }
    requires links { H.links host.old ≡ [] }
    ensures speech { AllSpeak address (H.links host.new) (H.calls host.new) }
    ensures ends { RunEnds path.now address (H.links host.new) result rounds (H.calls host.new)
        (K.written sink.old) (K.written sink.new) }
    ensures causes { Causes result (H.faults host.old) (H.faults host.new) (H.link_faults host.old)
        (H.link_faults host.new) (K.faults sink.old) (K.faults sink.new) }
    ensures later { K.faults sink.old ≤ K.faults sink.new }
{
    let Ok(mut end) = start(alloc, address) else {
        return 5;
    };
    let Did::Done(link) = host.connect(path) else {
        return 7;
    };
    let ending = talk(alloc, host, link, &mut end, rounds);
    report(alloc, ending, sink)
}
