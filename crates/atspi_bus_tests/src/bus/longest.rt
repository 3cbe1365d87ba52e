//! The longest message of the wire, which its sender's name makes too long.

use crate::bus::playing::play;
use atspi_base::Bytes;
use std::alloc::Global;
use std::process::Abort;

/// A call of M with serial 2 at `/` of `:1.1`, as far as the length of the first of its two arrays of bytes, without a
/// sender. With both arrays, of 67,108,820 bytes each, it has 134,217,728 bytes, as many as a message may have.
const FRONT: &[u8] = b"l\x01\0\x01\xb0\xff\xff\x07\x02\0\0\0\x3a\0\0\0\
\x01\x01o\0\x01\0\0\0/\0\0\0\0\0\0\0\x03\x01s\0\x01\0\0\0M\0\0\0\0\0\0\0\
\x06\x01s\0\x04\0\0\0:1.1\0\0\0\0\x08\x01g\0\x04ayay\0\0\0\0\0\0\0";

/// The length of each of its arrays.
const LENGTH: &[u8] = b"\xd4\xff\xff\x03";

/// The longest message.
pub(crate) fn longest(rt: &impl Abort, alloc: Global) -> Bytes {
    let array = vec![in alloc; 7u8; 67_108_820].expect(rt, "memory");
    let mut bytes = Bytes::new(alloc);
    for part in [FRONT, LENGTH, &array, LENGTH, &array] {
        bytes.extend(part).expect(rt, "memory");
    }
    bytes
}

const LONGEST: &str = r#"join
bus 0 1 Hello
join
bus 1 1 Hello
skip 0
skip 1
longest 0
closings
> closed 1 quota 0 134217744 after 6
> no closing
read 0
> error l 1 7 error=org.freedesktop.DBus.Error.NoReply reply=2 destination=:1.0 sender=org.freedesktop.DBus signature=s ["NoReply"]
call 0 3 :1.1 M
read 0
> error l 1 9 error=org.freedesktop.DBus.Error.ServiceUnknown reply=3 destination=:1.0 sender=org.freedesktop.DBus signature=s ["ServiceUnknown"]
closings
> no closing
"#;

#[test]
fn a_message_that_its_sender_makes_too_long_closes_its_receiver(rt: HostRuntime) {
    play(&rt, rt.alloc(), 16_777_216, LONGEST);
}

#[test]
fn so_it_does_at_the_largest_quota(rt: HostRuntime) {
    play(&rt, rt.alloc(), u32::MAX, LONGEST);
}
