//! The list of calls that a host in memory keeps, while there is memory for it, and counts of faults.

ghost use Rattle.std.specs.Prelude.{◌≡◌, ◌≤◌, ◌<◌, ◌^◌, None, IsTrue, IfNone, IsSome, length};
ghost use Rattle.std.specs.Option.{option_map};
ghost use Rattle.atspi_live_host.specs.Calls.{Adds, Counts, Moves, front};
ghost use Rattle.atspi_live_host.specs.inner.Calls.{Keeps};
ghost use Rattle.atspi_live_host.specs.declared.call.Did.{Did};
ghost use Rattle.atspi_live_host.specs.declared.call.Call.{Call};

use crate::{Call, Did};
use atspi_base::Bytes;
use std::alloc::Global;

/// One fault more.
pub(crate) fn fault(count: &mut u64) -> Did
    ensures failed { result ≡ Did.Failed }
    ensures count { Counts count.old count.new result }
{
    *count = count.saturating_add(1);
    Did::Failed
}

/// Whether the call of this number fails; the next has the next number.
pub(crate) fn fails(made: &mut u64, failing: &Vec<u64>) -> bool {
    let call = *made;
    *made = call.saturating_add(1);
    failing.contains(&call)
}

/// Whether there is memory for one call more. Where there is not, no call is told from now on.
pub(crate) fn has_room(calls: &mut Option<Vec<Call>>) -> bool
    ensures { Keeps result (option_map (λ v. v.items) calls.old) (option_map (λ v. v.items) calls.new) }
{
    let Some(list) = calls else {
        return true;
    };
    if list.reserve(1).is_err() {
        *calls = None;
        return false;
    }
    true
}

/// Room for the bytes of a call. Where there is none, no call is told from now on.
pub(crate) fn room_for(alloc: Global, calls: &mut Option<Vec<Call>>, len: usize) -> Option<Vec<u8>>
    ensures none { IfNone result (option_map (λ v. v.items) calls.new ≡ None) }
    ensures some { IsSome result → option_map (λ v. v.items) calls.new ≡ option_map (λ v. v.items) calls.old }
{
    if !has_room(calls) {
        return None;
    }
    match Vec::with_capacity(alloc, len) {
        Ok(room) => Some(room),
        Err(_) => {
            *calls = None;
            None
        }
    }
}

/// Puts a call behind the others.
pub(crate) fn tell(calls: &mut Option<Vec<Call>>, call: Call)
    ensures { Adds (option_map (λ v. v.items) calls.old) (option_map (λ v. v.items) calls.new) call }
{
    let Some(list) = calls else {
        return;
    };
    if list.push(call).is_err() {
        *calls = None;
    }
}

/// Puts a read behind the others, with the bytes that were taken.
fn tell_read(calls: &mut Option<Vec<Call>>, link: u32, mut room: Vec<u8>, bytes: &[u8], did: Did)
    ensures { Adds (option_map (λ v. v.items) calls.old) (option_map (λ v. v.items) calls.new)
        (Call.Read link bytes.now did) }
{
    room.clear();
    match room.extend_from_slice(bytes) {
        Ok(()) => tell(calls, Call::Read(link, Bytes::from_vec(room), did)),
        Err(_) => *calls = None,
    }
}

/// Puts a read behind the others, with those of the bytes that were taken.
pub(crate) fn tell_taken(
    calls: &mut Option<Vec<Call>>,
    link: u32,
    room: Vec<u8>,
    bytes: &[u8],
    did: Did,
)
    requires { Moves (length bytes.now) did }
    ensures { Adds (option_map (λ v. v.items) calls.old) (option_map (λ v. v.items) calls.new)
        (Call.Read link (front did bytes.now) did) }
{
    match did {
        Did::Done(n) => tell_read(calls, link, room, &bytes[..n as usize], did),
        Did::NotYet => tell_read(calls, link, room, &[], did),
        Did::End => tell_read(calls, link, room, &[], did),
        Did::Failed => tell_read(calls, link, room, &[], did),
    }
}

/// Puts a write behind the others, with the bytes that were offered.
pub(crate) fn tell_given(
    calls: &mut Option<Vec<Call>>,
    link: u32,
    mut room: Vec<u8>,
    bytes: &[u8],
    did: Did,
)
    ensures { Adds (option_map (λ v. v.items) calls.old) (option_map (λ v. v.items) calls.new)
        (Call.Write link bytes.now did) }
{
    room.clear();
    match room.extend_from_slice(bytes) {
        Ok(()) => tell(calls, Call::Write(link, Bytes::from_vec(room), did)),
        Err(_) => *calls = None,
    }
}
