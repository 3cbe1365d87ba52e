//! What one call of a host moves on the stream of a link.
//!
//! The stream, what is known of the sockets and the count of faults are lent apart: nothing here stands over what the
//! host is generic in.

ghost use Rattle.std.specs.Prelude.{◌≡◌, ◌≢◌, ◌<◌, length};
ghost use Rattle.atspi_live_host.specs.declared.call.Did.{Did};
ghost use Rattle.atspi_live_host.specs.Calls.{Counts, Moves};

use crate::ready::Ready;
use atspi_live_host::Did;
use mio::net::UnixStream;
use std::io::{Error, ErrorKind, Read, Write};

/// How many bytes are moved in one call at the most.
const PIECE: usize = 4096;

/// One fault more.
pub(crate) fn fault(count: &mut u64) -> Did
    ensures failed { result ≡ Did.Failed }
    ensures count { Counts count.old count.new result }
{
    *count = count.saturating_add(1);
    Did::Failed
}

/// Moves bytes of the peer to the front of `into`, if the socket of this token may have some, and answers how many.
pub(crate) fn take(
    stream: &mut UnixStream,
    token: usize,
    into: &mut [u8],
    ready: &mut Ready,
    faults: &mut u64,
) -> Did
    requires room { 0 < length into.old }
    ensures within { Moves (length into.old) result }
    ensures cause { Counts faults.old faults.new result }
{
    if !ready.may_read(token) {
        return Did::NotYet;
    }
    let most = into.len().min(PIECE);
    match stream.read(&mut into[..most]) {
        Ok(0) => Did::End,
        Ok(n) => {
            ready.moves();
            if n < most {
                ready.gave_all(token);
            }
            Did::Done(n as u32)
        }
        Err(error) => took_none(&error, token, ready, faults),
    }
}

/// What a read answers that the system refused.
fn took_none(error: &Error, token: usize, ready: &mut Ready, faults: &mut u64) -> Did
    ensures within { Moves 0 result }
    ensures cause { Counts faults.old faults.new result }
{
    match error.kind() {
        ErrorKind::WouldBlock => {
            ready.found_nothing(token);
            Did::NotYet
        }
        ErrorKind::Interrupted => {
            ready.moves();
            Did::NotYet
        }
        // a peer that died with bytes unread has ended
        ErrorKind::ConnectionReset => Did::End,
        _ => fault(faults),
    }
}

/// Gives the first of the bytes to the peer, if the socket of this token may have room, and answers how many.
pub(crate) fn give(
    stream: &mut UnixStream,
    token: usize,
    bytes: &[u8],
    ready: &mut Ready,
    faults: &mut u64,
) -> Did
    requires some { 0 < length bytes.now }
    ensures within { Moves (length bytes.now) result }
    ensures no_end { result ≢ Did.End }
    ensures cause { Counts faults.old faults.new result }
{
    if !ready.may_write(token) {
        return Did::NotYet;
    }
    let most = bytes.len().min(PIECE);
    match stream.write(&bytes[..most]) {
        Ok(n) if 0 < n => {
            ready.moves();
            Did::Done(n as u32)
        }
        Ok(_) => fault(faults),
        Err(error) => gave_none(&error, token, ready, faults),
    }
}

/// What a write answers that the system refused.
fn gave_none(error: &Error, token: usize, ready: &mut Ready, faults: &mut u64) -> Did
    ensures within { Moves 0 result }
    ensures no_end { result ≢ Did.End }
    ensures cause { Counts faults.old faults.new result }
{
    match error.kind() {
        ErrorKind::WouldBlock => {
            ready.found_no_room(token);
            Did::NotYet
        }
        ErrorKind::Interrupted => {
            ready.moves();
            Did::NotYet
        }
        _ => fault(faults),
    }
}
