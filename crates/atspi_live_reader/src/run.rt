//! A run of a reader on a Unix socket.

ghost use Rattle.std.specs.Prelude.{◌≡◌, ◌≤◌, ℕ, List, [], false, IfErr, IsTrue, MatchResult, OnOk};
ghost use Rattle.std.specs.Io.KnownBytes.{Appends};
ghost use Rattle.atspi_reader.specs.ReaderOf.{IsReader};
ghost use Rattle.atspi_live_conversation.specs.Reports.{Begins, SinkBlamed};
ghost use Rattle.atspi_live_reader.specs.Following.{AreWords, WritesPart};
ghost use Rattle.atspi_live_reader.specs.inner.Following.{HasWords};
ghost use Rattle.atspi_live_reader.specs.Runs.{AllSpeak, Causes, ReportsLast, RunEnds};

use crate::following::follow;
use crate::live_reader::{LiveReader, start};
use crate::over::Over;
use atspi_base::{Sink, Text, write_all};
use atspi_live_conversation::{Ending, report};
use atspi_live_host::{Did, Host};
use std::alloc::Global;

/// Whether a run that ended so may have left words to be written. Before authentication is over nothing is spoken.
fn has_words(ending: Ending) -> bool
    ensures yes { IsTrue result → HasWords ending }
    ensures no { result ≡ false → HasWords ending → ⊥ }
{
    match ending {
        Ending::NotAuthenticated | Ending::NoMemory => false,
        _ => true,
    }
}

/// Writes the last words of a reader whose run ended so. An error is the run's status: 4 where the sink failed, 5 where
/// memory was wanting.
fn tell_last<K: Sink>(
    alloc: Global,
    ending: Ending,
    end: &mut LiveReader,
    sink: &mut K,
) -> Result<(), u8>
    requires { IsReader end.old.reader }
    ensures ok { OnOk result
        ((words : List ℕ) → AreWords end.old ending words → Appends (K.written sink.old) (K.written sink.new) words) }
    ensures err { IfErr result
        (λ status. (words : List ℕ) → AreWords end.old ending words
        → WritesPart status words (K.written sink.old) (K.written sink.new)) }
    ensures cause { MatchResult result (λ _. K.faults sink.new ≡ K.faults sink.old)
        (λ status. SinkBlamed status (K.faults sink.old) (K.faults sink.new)) }
    ensures later { K.faults sink.old ≤ K.faults sink.new }
{
    let Ok(()) = end.conclude(alloc, ending) else {
        return Err(5);
    };
    match write_all(sink, end.lines.as_slice()) {
        Ok(()) => Ok(()),
        Err(_) => Err(4),
    }
}

/// The status of a run that ended so. What the reader has still to write is written first, and where a message was
/// malformed then the line of that.
fn tell<K: Sink>(alloc: Global, ending: Ending, end: &mut LiveReader, sink: &mut K) -> u8
    requires { HasWords ending → IsReader end.old.reader }
    ensures reports { (words : List ℕ) → AreWords end.old ending words
        → ReportsLast words ending result (K.written sink.old) (K.written sink.new) }
    ensures cause { SinkBlamed result (K.faults sink.old) (K.faults sink.new) }
    ensures later { K.faults sink.old ≤ K.faults sink.new }
{
    if !has_words(ending) {
        return report(alloc, ending, sink);
    }
    match tell_last(alloc, ending, end, sink) {
        Ok(()) => report(alloc, ending, sink),
        Err(status) => status,
    }
}

/// Connects to the bus at the path, and is a reader there for so many rounds: authentication as a client, then the
/// calls of its start, then what `Reader` does. What is given on the link is a front of the authentication's lines and
/// then of the reader's messages, for the bytes that were taken. What is written is a front of the lines
/// `say NAME "TEXT"` of what that reader speaks, after each round those of the round. With every status but 4 and 5 all
/// of them are written, up to what ended the run, with 10 none; and where the peer ended then for each application that
/// the reader holds, in the order in which they became known, a line `show NAME K` and K rows as a trace has them.
///
/// Status 0: the peer ended. 4: the sink failed. 5: no memory is left. 6: a message of the peer is malformed, and
/// behind the lines of what the messages before it made the reader speak the line `fault START PLACE REASON` was
/// written, where START is how many bytes of messages stand before it. 7: a call of the host failed. 8: all rounds were
/// done. 10: the peer did not authenticate. 13: a message would pass number 4,294,967,295. Where a call of the host
/// failed and then the lines could not be written, the status is 4 or 5.
pub fn read<K: Sink, H: Host>(
    alloc: Global,
    path: &Text,
    rounds: u32,
    sink: &mut K,
    host: &mut H,
) -> u8
    requires calls { Begins (H.calls host.old) }
    requires links { H.links host.old ≡ [] }
    ensures speech { AllSpeak (H.links host.new) (H.calls host.new) }
    ensures ends { RunEnds path.now (H.links host.new) result rounds (H.calls host.new) (K.written sink.old)
        (K.written sink.new) }
    ensures silent { result ≡ 10 → Appends (K.written sink.old) (K.written sink.new) [] }
    ensures causes { Causes result (H.faults host.old) (H.faults host.new) (H.link_faults host.old)
        (H.link_faults host.new) (K.faults sink.old) (K.faults sink.new) }
    ensures later { K.faults sink.old ≤ K.faults sink.new }
{
    let Ok(mut end) = start(alloc) else {
        return 5;
    };
    let Did::Done(link) = host.connect(path) else {
        return 7;
    };
    match follow(alloc, host, link, &mut end, sink, rounds) {
        Over::Ended(ending) => tell(alloc, ending, &mut end, sink),
        Over::NotWritten => 4,
    }
}
