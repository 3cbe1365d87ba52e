//! Openings of well-known clients, the states one by one, and the limits; each conversation in any two pieces.

use crate::words::{check, put, put_number};
use atspi_auth::{AuthFault, AuthLine, Client, Server};
use std::alloc::Global;
use std::process::Abort;

/// Either end.
trait End {
    fn hear(&mut self, piece: &[u8]) -> Result<usize, AuthFault>;

    fn say(&mut self) -> Option<AuthLine>;

    fn is_over(&self) -> bool;
}

impl End for Server {
    fn hear(&mut self, piece: &[u8]) -> Result<usize, AuthFault> {
        self.feed(piece)
    }

    fn say(&mut self) -> Option<AuthLine> {
        self.out()
    }

    fn is_over(&self) -> bool {
        self.ready()
    }
}

impl End for Client {
    fn hear(&mut self, piece: &[u8]) -> Result<usize, AuthFault> {
        self.feed(piece)
    }

    fn say(&mut self) -> Option<AuthLine> {
        self.out()
    }

    fn is_over(&self) -> bool {
        self.ready()
    }
}

/// What came of a conversation: the names of the lines that an end said, how many bytes it took, and its fault.
#[derive(Drop)]
struct Heard {
    said: String,
    taken: usize,
    fault: Option<AuthFault>,
}

/// The name of a line.
fn name_of(line: AuthLine) -> &'static str {
    match line {
        AuthLine::Granted => " Granted",
        AuthLine::Data => " Data",
        AuthLine::Rejected => " Rejected",
        AuthLine::Error => " Error",
        AuthLine::Hail => " Hail",
        AuthLine::Begin => " Begin",
    }
}

impl Heard {
    /// An end hears a piece, and says all that it has to say then.
    fn piece<E: End>(&mut self, rt: &impl Abort, end: &mut E, piece: &[u8]) {
        match end.hear(piece) {
            Ok(n) => self.taken = self.taken.wrapping_add(n),
            Err(fault) => self.fault = Some(fault),
        }
        for _ in 0..16 {
            if let Some(line) = end.say() {
                put(rt, &mut self.said, name_of(line));
            }
        }
    }
}

/// What an end makes of a piece, and of the bytes behind it in pieces of one length.
fn conversation<E: End>(
    rt: &impl Abort,
    alloc: Global,
    end: &mut E,
    front: &[u8],
    rest: &[u8],
    len: usize,
) -> Heard {
    let mut heard = Heard {
        said: String::new(alloc),
        taken: 0,
        fault: None,
    };
    heard.piece(rt, end, front);
    for piece in rest.chunks(len.max(1)) {
        heard.piece(rt, end, piece);
    }
    heard
}

/// How a conversation stands: `ready` where it is over, `waits` where it goes on, or its fault.
fn state_of(fault: Option<AuthFault>, is_over: bool) -> &'static str {
    match (fault, is_over) {
        (None, true) => "ready",
        (None, false) => "waits",
        (Some(AuthFault::Early), false) => "Early",
        (Some(AuthFault::NoZero), false) => "NoZero",
        (Some(AuthFault::Rejected), false) => "Rejected",
        (Some(AuthFault::TooLong), false) => "TooLong",
        _ => "?",
    }
}

/// Tells what came of a conversation: how it stands, how many bytes stand behind the last line where there is no fault,
/// and the lines that were said.
fn put_heard(rt: &impl Abort, told: &mut String, heard: &Heard, is_over: bool, behind: usize) {
    let behind = u32::try_from(behind).unwrap_or(u32::MAX);
    put(rt, told, state_of(heard.fault, is_over));
    put(rt, told, " ");
    put_number(rt, told, if heard.fault.is_some() { 0 } else { behind });
    put(rt, told, heard.said.as_str());
}

/// Whether an end at fault stays there, and says nothing.
fn stays<E: End>(end: &mut E, fault: Option<AuthFault>) -> bool {
    match fault {
        Some(fault) => end.hear(b"AUTH EXTERNAL 30\r\n") == Err(fault) && end.say() == None,
        None => true,
    }
}

/// Whether an end makes of bytes what is due: of a first piece, and of the others in pieces of one length. Then it
/// stays at its fault.
fn comes_to<E: End>(
    rt: &impl Abort,
    alloc: Global,
    end: &mut E,
    sent: (&[u8], &[u8]),
    len: usize,
    due: &str,
) -> bool {
    let (front, rest) = sent;
    let heard = conversation(rt, alloc, end, front, rest, len);
    let behind = front
        .len()
        .wrapping_add(rest.len())
        .wrapping_sub(heard.taken);
    let mut told = String::new(alloc);
    put_heard(rt, &mut told, &heard, end.is_over(), behind);
    told.as_str() == due && stays(end, heard.fault)
}

/// Whether a new server does.
fn serves(rt: &impl Abort, alloc: Global, sent: (&[u8], &[u8]), len: usize, due: &str) -> bool {
    comes_to(rt, alloc, &mut Server::new(alloc), sent, len, due)
}

/// Whether a new client does.
fn asks(rt: &impl Abort, alloc: Global, sent: (&[u8], &[u8]), len: usize, due: &str) -> bool {
    comes_to(rt, alloc, &mut Client::new(alloc), sent, len, due)
}

/// A server makes of a conversation what is due, in any two pieces and byte by byte.
fn try_server(rt: &impl Abort, alloc: Global, sent: &str, due: &str) {
    let bytes = sent.as_bytes();
    for cut in 0..bytes.len() {
        check(
            rt,
            sent,
            serves(rt, alloc, bytes.split_at(cut), bytes.len(), due),
        );
    }
    check(rt, sent, serves(rt, alloc, (&[], bytes), 1, due));
}

/// A client makes of a conversation what is due, in any two pieces.
fn try_client(rt: &impl Abort, alloc: Global, sent: &str, due: &str) {
    let bytes = sent.as_bytes();
    for cut in 0..bytes.len() {
        check(
            rt,
            sent,
            asks(rt, alloc, bytes.split_at(cut), bytes.len(), due),
        );
    }
}

/// What clients send, and what comes of it: the openings of libdbus, GDBus and sd-bus; uids that are none; where DATA
/// is awaited; where BEGIN is; and that a line ends in CR LF alone.
const SENT: [(&str, &str); 12] = [
    // libdbus
    (
        "\0AUTH EXTERNAL 31303030\r\nNEGOTIATE_UNIX_FD\r\nBEGIN\r\nl\x01\0\x01",
        "ready 4 Granted Error",
    ),
    // GDBus
    (
        "\0AUTH\r\nAUTH EXTERNAL 31303030\r\nNEGOTIATE_UNIX_FD\r\nBEGIN\r\n",
        "ready 0 Rejected Granted Error",
    ),
    // sd-bus
    (
        "\0AUTH EXTERNAL\r\nDATA\r\nNEGOTIATE_UNIX_FD\r\nBEGIN\r\n",
        "ready 0 Data Granted Error",
    ),
    (
        "\0AUTH EXTERNAL 3z\r\nCANCEL\r\nERROR\r\nAUTH EXTERNAL\r\nDATA 31303030\r\nCANCEL\r\nBEGIN\r\n",
        "Early 0 Rejected Error Rejected Data Granted Rejected",
    ),
    // uids that are none
    (
        "\0AUTH EXTERNAL 313\r\nAUTH EXTERNAL 3a\r\nAUTH EXTERNAL \r\nAUTH EXTERNAL 31 30\r\nAUTH EXTERNALS\r\n",
        "waits 0 Rejected Rejected Rejected Rejected Rejected",
    ),
    (
        "\0AUTH DBUS_COOKIE_SHA1 30\r\nAUTHOR\r\nDATA\r\n\r\nauth external\r\n",
        "waits 0 Rejected Error Error Error Error",
    ),
    // DATA is awaited
    (
        "\0AUTH EXTERNAL\r\nAUTH EXTERNAL 30\r\nDATA 3\r\nAUTH EXTERNAL\r\nDATA \r\nAUTH EXTERNAL\r\nCANCEL\r\n",
        "waits 0 Data Error Rejected Data Rejected Data Rejected",
    ),
    ("\0AUTH EXTERNAL\r\nBEGIN\r\n", "Early 0 Data"),
    // BEGIN is awaited
    (
        "\0AUTH EXTERNAL 30\r\nAUTH EXTERNAL 30\r\nDATA 30\r\nERROR no\r\nAUTH EXTERNAL 30\r\nBEGIN now\r\nBEGIN\r\n\r\n",
        "ready 2 Granted Error Error Rejected Granted Error",
    ),
    ("\0BEGIN\r\n", "Early 0"),
    ("AUTH EXTERNAL 30\r\n", "NoZero 0"),
    // a line ends in CR LF alone
    (
        "\0AUTH EXTERNAL\nDATA\r\r\nAUTH\n\r\n\r",
        "waits 0 Rejected Error",
    ),
];

#[test]
fn a_server_hears_each_conversation_in_any_two_pieces(rt: HostRuntime) {
    for (sent, due) in &SENT {
        try_server(&rt, rt.alloc(), sent, due);
    }
}

/// What servers answer, and what comes of it.
const ANSWERED: [(&str, &str); 12] = [
    (
        "DATA\r\nOK 61747370693200000000000000000001\r\nl\x02",
        "ready 2 Hail Data Begin",
    ),
    (
        "DATA\r\nOK 0123456789abcdefABCDEF9876543210\r\n",
        "ready 0 Hail Data Begin",
    ),
    (
        "DATA\r\nOK 61747370693200000000000000000001\r",
        "waits 0 Hail Data",
    ),
    ("REJECTED EXTERNAL\r\n", "Rejected 0 Hail"),
    ("DATA 30\r\n", "Rejected 0 Hail"),
    ("OK 61747370693200000000000000000001\r\n", "Rejected 0 Hail"),
    (
        "DATA\r\nOK 6174737069320000000000000000001\r\n",
        "Rejected 0 Hail Data",
    ),
    (
        "DATA\r\nOK 617473706932000000000000000000001\r\n",
        "Rejected 0 Hail Data",
    ),
    (
        "DATA\r\nOK 6174737069320000000000000000000g\r\n",
        "Rejected 0 Hail Data",
    ),
    ("DATA\r\nOK\r\n", "Rejected 0 Hail Data"),
    ("DATA\r\nDATA\r\n", "Rejected 0 Hail Data"),
    ("DATA\r\nREJECTED EXTERNAL\r\n", "Rejected 0 Hail Data"),
];

#[test]
fn a_client_accepts_data_and_a_number_alone(rt: HostRuntime) {
    for (sent, due) in &ANSWERED {
        try_client(&rt, rt.alloc(), sent, due);
    }
}

/// Each line, and its bytes.
const LINES: [(AuthLine, &[u8]); 6] = [
    (
        AuthLine::Granted,
        b"OK 61747370693200000000000000000001\r\n",
    ),
    (AuthLine::Data, b"DATA\r\n"),
    (AuthLine::Rejected, b"REJECTED EXTERNAL\r\n"),
    (AuthLine::Error, b"ERROR\r\n"),
    (AuthLine::Hail, b"\0AUTH EXTERNAL\r\n"),
    (AuthLine::Begin, b"BEGIN\r\n"),
];

#[test]
fn lines_are_sent_in_the_standard_form(rt: HostRuntime) {
    for (line, bytes) in &LINES {
        check(&rt, name_of(*line), line.bytes() == *bytes);
    }
}

/// Lines of so many letters, with or without their end, and what comes of them behind the zero byte.
const LONG: [(usize, &[u8], &str); 5] = [
    (16_381, b"\r\n", "waits 0 Error"),
    (16_382, b"\r\n", "waits 0 Error"),
    (16_383, b"\r\n", "TooLong 0"),
    (16_383, b"", "waits 0"),
    (16_384, b"", "TooLong 0"),
];

/// So many letters, and an end.
fn long_line(rt: &impl Abort, alloc: Global, letters: usize, end: &[u8]) -> Vec<u8> {
    let mut line = vec![in alloc; b'A'; letters].expect(rt, "memory");
    line.extend_from_slice(end).expect(rt, "memory");
    line
}

/// A server makes of a line behind the zero byte what is due, in pieces of each of some lengths.
fn try_line(rt: &impl Abort, alloc: Global, line: &[u8], due: &str) {
    for len in [1, 1_000, 16_383, 16_384, 20_000] {
        check(rt, due, serves(rt, alloc, (b"\0", line), len, due));
    }
}

#[test]
fn a_line_has_at_most_16384_bytes(rt: HostRuntime) {
    for (letters, end, due) in &LONG {
        let line = long_line(&rt, rt.alloc(), *letters, end);
        try_line(&rt, rt.alloc(), &line, due);
    }
}

/// Whether the client says this line and both ends take what the other one says.
fn exchange(client: &mut Client, server: &mut Server, want: AuthLine) -> Option<bool> {
    let line = client.out()?;
    let heard = server.feed(line.bytes()) == Ok(line.bytes().len());
    let answer = server.out()?;
    let taken = client.feed(answer.bytes()) == Ok(answer.bytes().len());
    Some(line == want && heard && taken)
}

/// Whether the client begins, and the server takes that.
fn begin(client: &mut Client, server: &mut Server) -> Option<bool> {
    let line = client.out()?;
    Some(line == AuthLine::Begin && server.feed(line.bytes()) == Ok(7))
}

/// Whether both ends come to their last line, and take nothing behind it.
fn agree(client: &mut Client, server: &mut Server) -> bool {
    exchange(client, server, AuthLine::Hail) == Some(true)
        && exchange(client, server, AuthLine::Data) == Some(true)
        && client.ready()
        && !server.ready()
        && begin(client, server) == Some(true)
        && server.ready()
        && server.out() == None
        && server.feed(b"l\x01") == Ok(0)
        && client.feed(b"l\x02") == Ok(0)
}

#[test]
fn the_two_ends_agree(rt: HostRuntime) {
    let mut client = Client::new(rt.alloc());
    let mut server = Server::new(rt.alloc());
    assert!(rt; agree(&mut client, &mut server));
}
