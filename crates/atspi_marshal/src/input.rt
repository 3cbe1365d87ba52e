//! The bytes that are read, the numbers in them, and where what is read has to end.

ghost use Rattle.std.specs.Prelude.{◌≡◌, ◌<◌, ◌≤◌, ◌+◌, length};
ghost use Rattle.std.specs.Int.{w16, w32, w64, cast_unsigned};
ghost use Rattle.atspi_types.specs.declared.fault.ReadFault.TheVariants.{Bad};
ghost use Rattle.atspi_marshal.specs.Input.{Input, number_in, byte_in, slice_in, ReachTo};
ghost use Rattle.atspi_marshal.specs.Reading.{input_of};

use atspi_types::{Fault, Order, ReadFault};

/// Bytes, and the order of the numbers in them.
#[derive(Clone, Copy)]
pub struct Marshalled<'a> {
    pub order: Order,
    pub bytes: &'a [u8],
}

/// Where an item has to end, and the reason that is told where it passes that: 18 in an array, 19 elsewhere.
#[derive(Clone, Copy)]
pub struct Bound {
    pub end: usize,
    pub reason: u8,
}

/// A fault at a place.
pub fn bad(place: usize, reason: u8) -> ReadFault
    requires { place < 4294967296 }
    ensures { result ≡ Bad (record { place = place; reason = reason }) }
{
    ReadFault::Bad(Fault {
        place: place as u32,
        reason,
    })
}

/// So many bytes at a place.
pub fn slice<'a>(input: &'a Marshalled<'a>, at: usize, len: usize) -> &'a [u8]
    requires { at + len ≤ length input.now.bytes.now }
    ensures { result.now ≡ slice_in (input_of input.now) at len }
{
    &input.bytes[at..at + len]
}

/// The byte at a place.
pub fn byte_at(input: &Marshalled, at: usize) -> u8
    requires { at < length input.now.bytes.now }
    ensures { result ≡ byte_in (input_of input.now) at }
{
    input.bytes[at]
}

/// The number of 16 bits at a place.
pub fn u16_at(input: &Marshalled, at: usize) -> u16
    requires { ReachTo input.now (at + 2) }
    ensures { result ≡ number_in (input_of input.now) w16 at }
{
    let number = [input.bytes[at], input.bytes[at + 1]];
    match input.order {
        Order::Little => u16::from_le_bytes(number),
        Order::Big => u16::from_be_bytes(number),
    }
}

/// The number of 32 bits at a place.
pub fn u32_at(input: &Marshalled, at: usize) -> u32
    requires { ReachTo input.now (at + 4) }
    ensures { result ≡ number_in (input_of input.now) w32 at }
{
    let bytes = input.bytes;
    let number = [bytes[at], bytes[at + 1], bytes[at + 2], bytes[at + 3]];
    match input.order {
        Order::Little => u32::from_le_bytes(number),
        Order::Big => u32::from_be_bytes(number),
    }
}

/// The number of 64 bits at a place.
pub fn u64_at(input: &Marshalled, at: usize) -> u64
    requires { ReachTo input.now (at + 8) }
    ensures { result ≡ number_in (input_of input.now) w64 at }
{
    let bytes = input.bytes;
    let number = [
        bytes[at],
        bytes[at + 1],
        bytes[at + 2],
        bytes[at + 3],
        bytes[at + 4],
        bytes[at + 5],
        bytes[at + 6],
        bytes[at + 7],
    ];
    match input.order {
        Order::Little => u64::from_le_bytes(number),
        Order::Big => u64::from_be_bytes(number),
    }
}

/// The signed number of 16 bits at a place.
pub fn i16_at(input: &Marshalled, at: usize) -> i16
    requires { ReachTo input.now (at + 2) }
    ensures { cast_unsigned w16 result ≡ number_in (input_of input.now) w16 at }
{
    u16_at(input, at).cast_signed()
}

/// The signed number of 32 bits at a place.
pub fn i32_at(input: &Marshalled, at: usize) -> i32
    requires { ReachTo input.now (at + 4) }
    ensures { cast_unsigned w32 result ≡ number_in (input_of input.now) w32 at }
{
    u32_at(input, at).cast_signed()
}

/// The signed number of 64 bits at a place.
pub fn i64_at(input: &Marshalled, at: usize) -> i64
    requires { ReachTo input.now (at + 8) }
    ensures { cast_unsigned w64 result ≡ number_in (input_of input.now) w64 at }
{
    u64_at(input, at).cast_signed()
}
