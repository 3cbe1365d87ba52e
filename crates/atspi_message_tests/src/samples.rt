//! Messages whose bytes are written out.

/// The call of Hello, 128 bytes.
pub(crate) const HELLO: &[u8] = b"l\x01\0\x01\0\0\0\0\x01\0\0\0\x6d\0\0\0\
\x01\x01o\0\x15\0\0\0/org/freedesktop/DBus\0\0\0\
\x02\x01s\0\x14\0\0\0org.freedesktop.DBus\0\0\0\0\
\x03\x01s\0\x05\0\0\0Hello\0\0\0\
\x06\x01s\0\x14\0\0\0org.freedesktop.DBus\0\0\0\0";

/// A return of serial 2 that replies to serial 1.
pub(crate) const RETURN: &[u8] = b"l\x02\x01\x01\0\0\0\0\x02\0\0\0\x08\0\0\0\x05\x01u\0\x01\0\0\0";

/// The same with its numbers in the other order.
pub(crate) const BIG: &[u8] = b"B\x02\x01\x01\0\0\0\0\0\0\0\x02\0\0\0\x08\x05\x01u\0\0\0\0\x01";

/// A message of a type without a meaning, with a body of the types `yu`.
pub(crate) const BODY: &[u8] =
    b"l\x05\0\x01\x08\0\0\0\x03\0\0\0\x08\0\0\0\x08\x01g\0\x02yu\0\x07\0\0\0\x09\0\0\0";

/// A message with a field without a meaning, whose value is the byte 7, and no body.
pub(crate) const UNKNOWN: &[u8] = b"l\x05\0\x01\0\0\0\0\x03\0\0\0\x05\0\0\0\xfa\x01y\0\x07\0\0\0";

/// A signal with each field, and a body with a value of each kind.
pub(crate) const EVERY: &[u8] = b"\
l\x04\x01\x01\xb0\0\0\0\x03\0\0\0\x8f\0\0\0\x01\x01o\0\x04\0\0\0/a/b\0\0\0\0\x02\x01\
s\0\x03\0\0\0a.b\0\0\0\0\0\x03\x01s\0\x02\0\0\0Go\0\0\0\0\0\0\x04\x01s\0\x05\0\0\0a.\
b.c\0\0\0\x05\x01u\0\x07\0\0\0\x06\x01s\0\x04\0\0\0:1.0\0\0\0\0\x07\x01s\0\x05\0\0\0\
a.b-c\0\0\0\x08\x01g\0\x21ybnqiuxtdsogayaua(yv)(bs)va{sv}at\0\0\x07\0\0\0\x01\0\0\0\
\xfe\xff\x01\x02\xfd\xff\xff\xff\x04\0\0\0\0\0\0\0\xfb\xff\xff\xff\xff\xff\xff\xff\
\x06\0\0\0\0\0\0\0\0\0\0\0\0\0\xf8\x3f\x03\0\0\0h\xc3\xa9\0\x04\0\0\0/a/b\0\x05a{sv}\
\0\x03\0\0\0\x01\x02\x03\0\x04\0\0\0\x09\0\0\0\x0d\0\0\0\0\0\0\0\x01\x01u\0\x02\0\0\
\0\x03\x01y\0\x04\0\0\0\0\0\0\0\x01\0\0\0x\0\x02as\0\0\0\x06\0\0\0\x01\0\0\0p\0\0\0\
\x18\0\0\0\x01\0\0\0k\0\x01t\0\0\0\0\0\0\0\0\x08\0\0\0\0\0\0\0\0\0\0\0\0\0\0\0";

/// The same in the other order.
pub(crate) const EVERY_BIG: &[u8] = b"\
B\x04\x01\x01\0\0\0\xb0\0\0\0\x03\0\0\0\x8f\x01\x01o\0\0\0\0\x04/a/b\0\0\0\0\x02\x01\
s\0\0\0\0\x03a.b\0\0\0\0\0\x03\x01s\0\0\0\0\x02Go\0\0\0\0\0\0\x04\x01s\0\0\0\0\x05a.\
b.c\0\0\0\x05\x01u\0\0\0\0\x07\x06\x01s\0\0\0\0\x04:1.0\0\0\0\0\x07\x01s\0\0\0\0\x05\
a.b-c\0\0\0\x08\x01g\0\x21ybnqiuxtdsogayaua(yv)(bs)va{sv}at\0\0\x07\0\0\0\0\0\0\x01\
\xff\xfe\x02\x01\xff\xff\xff\xfd\0\0\0\x04\0\0\0\0\xff\xff\xff\xff\xff\xff\xff\xfb\0\
\0\0\0\0\0\0\x06\x3f\xf8\0\0\0\0\0\0\0\0\0\x03h\xc3\xa9\0\0\0\0\x04/a/b\0\x05a{sv}\0\
\0\0\0\x03\x01\x02\x03\0\0\0\0\x04\0\0\0\x09\0\0\0\x0d\0\0\0\0\x01\x01u\0\0\0\0\x02\
\x03\x01y\0\x04\0\0\0\0\0\0\0\0\0\0\x01x\0\x02as\0\0\0\0\0\0\x06\0\0\0\x01p\0\0\0\0\
\0\0\x18\0\0\0\x01k\0\x01t\0\0\0\0\0\0\0\0\0\0\0\0\0\0\0\x08\0\0\0\0\0\0\0\0";

/// A call with its fields in another order, UNIX_FDS 0 and a field without a meaning.
pub(crate) const MIXED: &[u8] = b"\
l\x01\0\x01\x06\0\0\0\x09\0\0\0U\0\0\0\x07\x01s\0\x05\0\0\0a.b-c\0\0\0\x08\x01g\0\
\x01s\0\0(\x02au\0\0\0\0\x08\0\0\0\x01\0\0\0\x02\0\0\0\0\0\0\0\x03\x01s\0\x02\0\0\0G\
o\0\0\0\0\0\0\x09\x01u\0\0\0\0\0\x01\x01o\0\x04\0\0\0/a/b\0\0\0\0\x01\0\0\0x\0";

/// The same as it is written.
pub(crate) const RISING: &[u8] = b"\
l\x01\0\x01\x06\0\0\0\x09\0\0\07\0\0\0\x01\x01o\0\x04\0\0\0/a/b\0\0\0\0\x03\x01s\0\
\x02\0\0\0Go\0\0\0\0\0\0\x07\x01s\0\x05\0\0\0a.b-c\0\0\0\x08\x01g\0\x01s\0\0\x01\0\0\
\0x\0";

/// An error with an empty SIGNATURE and UNIX_FDS 0.
pub(crate) const EMPTY: &[u8] = b"\
l\x03\xff\x01\0\0\0\0\xff\xff\xff\xff\x26\0\0\0\x09\x01u\0\0\0\0\0\x08\x01g\0\0\0\0\
\0\x05\x01u\0\x07\0\0\0\x04\x01s\0\x05\0\0\0a.b.c\0\0\0";

/// The same as it is written.
pub(crate) const EMPTY_RISING: &[u8] = b"\
l\x03\xff\x01\0\0\0\0\xff\xff\xff\xff\x18\0\0\0\x04\x01s\0\x05\0\0\0a.b.c\0\0\0\x05\
\x01u\0\x07\0\0\0";

/// A message of a type without a meaning, without fields.
pub(crate) const OTHER: &[u8] = b"\
B\xc8\0\x01\0\0\0\0\0\0\0\x01\0\0\0\0";

/// A call of serial 7 with a body of the types `yasv`, its fields out of order and without a sender.
pub(crate) const CALL_LITTLE: &[u8] =
    b"l\x01\0\x01(\0\0\0\x07\0\0\0K\0\0\0\x08\x01g\0\x04yasv\0\0\0\0\0\0\0\x06\x01s\0\x04\0\0\0:1.3\0\0\0\
\0\x02\x01s\0\x03\0\0\0i.f\0\0\0\0\0\x03\x01s\0\x03\0\0\0Get\0\0\0\0\0\x01\x01o\0\x02\0\0\0/p\0\0\0\
\0\0\0\x05\0\0\0\x0f\0\0\0\x01\0\0\0a\0\0\0\x02\0\0\0bc\0\x01t\0\0\0\0\0\0\0\x09\0\0\0\0\0\0\0";

/// The call with a sender.
pub(crate) const CALL_LITTLE_SENT: &[u8] =
    b"l\x01\0\x01(\0\0\0\x07\0\0\0[\0\0\0\x07\x01s\0\x05\0\0\0:1.99\0\0\0\x08\x01g\0\x04yasv\0\0\0\0\0\0\0\
\x06\x01s\0\x04\0\0\0:1.3\0\0\0\0\x02\x01s\0\x03\0\0\0i.f\0\0\0\0\0\x03\x01s\0\x03\0\0\0Get\0\0\0\0\
\0\x01\x01o\0\x02\0\0\0/p\0\0\0\0\0\0\x05\0\0\0\x0f\0\0\0\x01\0\0\0a\0\0\0\x02\0\0\0bc\0\x01t\0\0\0\
\0\0\0\0\x09\0\0\0\0\0\0\0";

/// The call as it is written with the sender `:1.5`: its fields in rising order, its body as it was.
pub(crate) const CALL_LITTLE_PASSED: &[u8] =
    b"l\x01\0\x01(\0\0\0\x07\0\0\0Z\0\0\0\x01\x01o\0\x02\0\0\0/p\0\0\0\0\0\0\x02\x01s\0\x03\0\0\0i.f\0\0\0\
\0\0\x03\x01s\0\x03\0\0\0Get\0\0\0\0\0\x06\x01s\0\x04\0\0\0:1.3\0\0\0\0\x07\x01s\0\x04\0\0\0:1.5\0\0\
\0\0\x08\x01g\0\x04yasv\0\0\0\0\0\0\0\x05\0\0\0\x0f\0\0\0\x01\0\0\0a\0\0\0\x02\0\0\0bc\0\x01t\0\0\0\
\0\0\0\0\x09\0\0\0\0\0\0\0";

/// The same call with its numbers in the other order.
pub(crate) const CALL_BIG: &[u8] =
    b"B\x01\0\x01\0\0\0(\0\0\0\x07\0\0\0K\x08\x01g\0\x04yasv\0\0\0\0\0\0\0\x06\x01s\0\0\0\0\x04:1.3\0\0\0\
\0\x02\x01s\0\0\0\0\x03i.f\0\0\0\0\0\x03\x01s\0\0\0\0\x03Get\0\0\0\0\0\x01\x01o\0\0\0\0\x02/p\0\0\0\
\0\0\0\x05\0\0\0\0\0\0\x0f\0\0\0\x01a\0\0\0\0\0\0\x02bc\0\x01t\0\0\0\0\0\0\0\0\0\0\0\0\0\0\x09";

/// The same with its numbers in the other order.
pub(crate) const CALL_BIG_SENT: &[u8] =
    b"B\x01\0\x01\0\0\0(\0\0\0\x07\0\0\0[\x07\x01s\0\0\0\0\x05:1.99\0\0\0\x08\x01g\0\x04yasv\0\0\0\0\0\0\0\
\x06\x01s\0\0\0\0\x04:1.3\0\0\0\0\x02\x01s\0\0\0\0\x03i.f\0\0\0\0\0\x03\x01s\0\0\0\0\x03Get\0\0\0\0\
\0\x01\x01o\0\0\0\0\x02/p\0\0\0\0\0\0\x05\0\0\0\0\0\0\x0f\0\0\0\x01a\0\0\0\0\0\0\x02bc\0\x01t\0\0\0\
\0\0\0\0\0\0\0\0\0\0\0\x09";

/// The same with its numbers in the other order.
pub(crate) const CALL_BIG_PASSED: &[u8] =
    b"B\x01\0\x01\0\0\0(\0\0\0\x07\0\0\0Z\x01\x01o\0\0\0\0\x02/p\0\0\0\0\0\0\x02\x01s\0\0\0\0\x03i.f\0\0\0\
\0\0\x03\x01s\0\0\0\0\x03Get\0\0\0\0\0\x06\x01s\0\0\0\0\x04:1.3\0\0\0\0\x07\x01s\0\0\0\0\x04:1.5\0\0\
\0\0\x08\x01g\0\x04yasv\0\0\0\0\0\0\0\x05\0\0\0\0\0\0\x0f\0\0\0\x01a\0\0\0\0\0\0\x02bc\0\x01t\0\0\0\
\0\0\0\0\0\0\0\0\0\0\0\x09";
