//! A run of an application on a Unix socket.

ghost use Rattle.std.specs.Prelude.{◌≡◌, ◌≤◌, ◌⊎◌, [], length};
ghost use Rattle.atspi_live_conversation.specs.Reports.{Begins, Causes, SinkBlamed};
ghost use Rattle.atspi_live_app.specs.Lines.{lines_of};
ghost use Rattle.atspi_live_app.specs.Names.{refused_text};
ghost use Rattle.atspi_live_app.specs.Runs.{EndsKnown, IsEndStatus, OverReports, RunEnds, TextEnds, WritesRefusal};

use crate::input::{End, INPUT_LIMIT, read_all};
use crate::live_app::{LiveApp, Stop};
use crate::naming::{Refused, put_refused};
use crate::over::Over;
use crate::rounds::export;
use atspi_app::Application;
use atspi_base::{Bytes, Sink, Source, Text, write_all};
use atspi_live_conversation::report;
use atspi_live_host::{Did, Host};
use std::alloc::Global;

/// Writes the line of a refusal. Status 1 where it was written, 4 where the sink failed.
fn tell_refused<K: Sink>(alloc: Global, number: u64, why: Refused, sink: &mut K) -> u8
    ensures writes { WritesRefusal (refused_text number why) result (K.written sink.old) (K.written sink.new) }
    ensures cause { SinkBlamed result (K.faults sink.old) (K.faults sink.new) }
    ensures later { K.faults sink.old ≤ K.faults sink.new }
{
    let mut line = Bytes::new(alloc);
    if put_refused(number, why, &mut line).is_err() {
        return 5;
    }
    match write_all(sink, line.as_slice()) {
        Ok(()) => 1,
        Err(_) => 4,
    }
}

/// The status of a run that was over so. Where a message was malformed, or a line refused, a line says so.
fn tell<K: Sink>(alloc: Global, over: Over, sink: &mut K) -> u8
    ensures reports { OverReports over result (K.written sink.old) (K.written sink.new) }
    ensures cause { SinkBlamed result (K.faults sink.old) (K.faults sink.new) }
    ensures later { K.faults sink.old ≤ K.faults sink.new }
{
    match over {
        Over::Ended(ending) => report(alloc, ending, sink),
        Over::Stopped(Stop::Refused(number, why)) => tell_refused(alloc, number, why, sink),
        Over::Stopped(Stop::Spent) => 13,
        Over::Stopped(Stop::NoMemory) => 5,
    }
}

/// Connects to the bus at the path, and is an application there whose input is this text.
fn run_on<A: Application, K: Sink, H: Host>(
    alloc: Global,
    path: &Text,
    rounds: u32,
    text: Vec<u8>,
    sink: &mut K,
    host: &mut H,
    kit: A::Kit,
) -> u8
    requires kit { A.is_kit kit }
    requires short { length text.items ≤ INPUT_LIMIT }
    requires calls { Begins (H.calls host.old) }
    requires links { H.links host.old ≡ [] }
    ensures ends { TextEnds (lines_of text.items) path.now (H.links host.new) result rounds (H.calls host.new)
        (K.written sink.old) (K.written sink.new) }
    ensures known { (result ≡ 1) ⊎ IsEndStatus result }
    ensures causes { Causes result (H.faults host.old) (H.faults host.new) (H.link_faults host.old)
        (H.link_faults host.new) (K.faults sink.old) (K.faults sink.new) }
    ensures later { K.faults sink.old ≤ K.faults sink.new }
{
    let Did::Done(link) = host.connect(path) else {
        return 7;
    };
    let mut end = LiveApp::<A>::new(alloc, text, kit);
    let over = export(alloc, host, link, &mut end, rounds);
    tell(alloc, over, sink)
}

/// Reads the source to its end, connects to the bus at the path, and is an application there for so many rounds:
/// authentication as a client, and what the application does. A line of the input is done before each round's read:
/// `app Q` first, then edits as in a script without the words `edit A`, and `wait N`, which takes N rounds. What is
/// given on the link is a front of the authentication's lines and then of the messages that the application sends which
/// these lines and the messages that were taken make: each line is done behind just the messages that are whole in what
/// the reads of the rounds before its own took.
///
/// Status 0: the peer ended. 1: a line was refused, and `refused LINE NAME` was written. 3: the source failed. 4: the
/// sink failed. 5: no memory is left. 6: a message of the peer is malformed, and `fault START PLACE REASON` was
/// written. 7: a call of the host failed. 8: all rounds were done, or the source gave more than 16,777,216 bytes. 10:
/// the peer did not authenticate. 13: a message would pass number 4,294,967,295.
pub fn app<A: Application, S: Source, K: Sink, H: Host>(
    alloc: Global,
    path: &Text,
    rounds: u32,
    source: &mut S,
    sink: &mut K,
    host: &mut H,
    kit: A::Kit,
) -> u8
    requires kit { A.is_kit kit }
    requires calls { Begins (H.calls host.old) }
    requires links { H.links host.old ≡ [] }
    ensures ends { RunEnds path.now (S.left source.old) (S.left source.new) (S.faults source.old) (S.faults source.new)
        (H.links host.new) result rounds (H.calls host.old) (H.calls host.new) (K.written sink.old)
        (K.written sink.new) }
    ensures causes { Causes result (H.faults host.old) (H.faults host.new) (H.link_faults host.old)
        (H.link_faults host.new) (K.faults sink.old) (K.faults sink.new) }
    ensures later { K.faults sink.old ≤ K.faults sink.new }
    ensures source_later { S.faults source.old ≤ S.faults source.new }
    ensures known { EndsKnown result (S.faults source.old) (S.faults source.new) }
{
    let mut text = Vec::new(alloc);
    match read_all(source, &mut text) {
        Ok(End::Whole) => run_on::<A, K, H>(alloc, path, rounds, text, sink, host, kit),
        Ok(End::TooLong) => 8,
        Ok(End::Failed) => 3,
        Err(_) => 5,
    }
}
