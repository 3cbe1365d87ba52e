//! Runs of each end with one link, and of `check`.

ghost use Rattle.std.specs.Prelude.{◌≡◌, [], Some};

use crate::links::{given, host_of, path, put_pieces};
use atspi_app::App;
use atspi_app_exported::Kit;
use atspi_base::{MemSink, MemSource, Text};
use atspi_faces::{Deeds, Grid, PlainText};
use atspi_live_app::app;
use atspi_live_host::{Host, MemHost, Peer};
use atspi_live_reader::read;
use atspi_live_registry::registry;
use atspi_run_check::check;
use std::alloc::Global;
use std::collections::VecDeque;
use std::process::Abort;

/// What a server says to a client that names no uid, and then once it let it in.
const LETS_IN: &[u8] = b"DATA\r\nOK 61747370693200000000000000000001\r\n";

/// What a client says.
pub const LINES: &[u8] = b"\0AUTH EXTERNAL\r\nDATA\r\nBEGIN\r\n";

/// What the bytes come in: at most so many a piece; whether the link ends behind them; which write of the sink fails,
/// where each takes one byte; and how many rounds there are to be.
#[derive(Clone, Copy)]
pub struct Outside {
    pub most: usize,
    pub ends: bool,
    pub failing_write: Option<u64>,
    pub rounds: u32,
}

/// The input of the application: a text, a table, a button.
const INPUT: &[u8] =
    b"app \"T\"\ninsert 0 0 text \"E\" text \"hi\"\ninsert 0 1 table \"T\" columns 2 select\n\
insert 2 0 table-cell \"1\"\ninsert 2 1 table-cell \"2\"\ninsert 0 2 push-button \"B\" action \"press\"\n";

/// What a run came to: its status, what was given on the link, and what was written.
#[derive(Drop)]
pub struct Ended {
    pub status: u8,
    pub given: Vec<u8>,
    pub written: Vec<u8>,
}

impl Ended {
    /// Whether it has this status, and wrote just these bytes.
    pub fn wrote(&self, status: u8, written: &[u8]) -> bool {
        self.status == status && self.written.as_slice() == written
    }
}

/// A sink that takes all, or one byte in a call and fails at one.
pub fn sink_of(rt: &impl Abort, alloc: Global, failing_write: Option<u64>) -> MemSink {
    let Some(number) = failing_write else {
        return MemSink::new(alloc, Vec::new(alloc));
    };
    let mut numbers = Vec::new(alloc);
    numbers.push(number).expect(rt, "memory");
    MemSink::in_pieces(alloc, 1, numbers)
}

/// The application over three empty faces.
fn run_app(
    rt: &impl Abort,
    alloc: Global,
    path: &Text,
    rounds: u32,
    sink: &mut MemSink,
    host: &mut MemHost,
) -> u8
    requires calls { ⟦<MemHost as Host>⟧.calls host.old ≡ Some [] }
    requires links { ⟦<MemHost as Host>⟧.links host.old ≡ [] }
{
    let input = INPUT.to_vec(alloc).expect(rt, "memory");
    let mut source = MemSource::new(input, Vec::new(alloc));
    let kit = Kit {
        chars: Box::new(alloc, PlainText::new(alloc)).expect(rt, "memory"),
        grid: Box::new(alloc, Grid::new(alloc)).expect(rt, "memory"),
        deeds: Box::new(alloc, Deeds::new(alloc)).expect(rt, "memory"),
    };
    app::<App, MemSource, MemSink, MemHost>(alloc, path, rounds, &mut source, sink, host, kit)
}

/// A run of the end that a word names: `read`, `registry` or `app`.
fn run_over(
    rt: &impl Abort,
    alloc: Global,
    end: &str,
    rounds: u32,
    sink: &mut MemSink,
    host: &mut MemHost,
) -> u8
    requires calls { ⟦<MemHost as Host>⟧.calls host.old ≡ Some [] }
    requires links { ⟦<MemHost as Host>⟧.links host.old ≡ [] }
{
    let path = path(rt, alloc);
    match end {
        "read" => read(alloc, &path, rounds, sink, host),
        "registry" => registry(alloc, &path, rounds, sink, host),
        _ => run_app(rt, alloc, &path, rounds, sink, host),
    }
}

/// What a run of an end comes to, whose peer lets it in and then sends these bytes.
pub fn run(rt: &impl Abort, alloc: Global, end: &str, bytes: &[u8], outside: Outside) -> Ended {
    let mut pieces = VecDeque::new(alloc);
    put_pieces(rt, alloc, &mut pieces, LETS_IN, 4096);
    put_pieces(rt, alloc, &mut pieces, bytes, outside.most);
    let mut peers = Vec::new(alloc);
    peers
        .push(Peer::new(pieces, outside.ends))
        .expect(rt, "memory");
    let mut host = host_of(alloc, peers);
    let mut sink = sink_of(rt, alloc, outside.failing_write);
    let status = run_over(rt, alloc, end, outside.rounds, &mut sink, &mut host);
    Ended {
        status,
        given: given(rt, alloc, 0, &host),
        written: sink.bytes().to_vec(alloc).expect(rt, "memory"),
    }
}

/// The status of `check` of these bytes, and what it wrote.
pub fn checked(rt: &impl Abort, alloc: Global, bytes: &[u8]) -> (u8, Vec<u8>) {
    let input = bytes.to_vec(alloc).expect(rt, "memory");
    let mut source = MemSource::new(input, Vec::new(alloc));
    let mut sink = MemSink::new(alloc, Vec::new(alloc));
    let status = check(alloc, &mut source, &mut sink);
    (status, sink.bytes().to_vec(alloc).expect(rt, "memory"))
}
