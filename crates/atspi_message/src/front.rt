//! The first 16 bytes of a message.

ghost use Rattle.std.specs.Prelude.{◌≡◌, IfOk, IfErr};
ghost use Rattle.atspi_message.specs.Bytes.{order_byte};
ghost use Rattle.atspi_message.specs.Front.{order_by, length_in, front_in, IsSoundFront, WrongFront, IsFirst};

use atspi_marshal::{Marshalled, u32_at};
use atspi_types::{Fault, Order};

/// The order of the bytes that the first of them tells.
pub fn order_of(first: u8) -> Order
    ensures { result ≡ order_by first }
{
    if first == b'B' {
        Order::Big
    } else {
        Order::Little
    }
}

/// The byte that tells the order of the others.
pub fn order_byte(order: Order) -> u8
    ensures { result ≡ order_byte order }
{
    match order {
        Order::Little => b'l',
        Order::Big => b'B',
    }
}

/// The length of the message that begins with these bytes, by the lengths that they state. Refused with the first fault
/// of the reasons 22 to 27.
#[tactic(auto, unfolding(crate::specs::Front::front_in))]
pub fn total(first: &[u8; 16]) -> Result<u32, Fault>
    ensures length { IfOk result (λ length. length ≡ length_in first.now) }
    ensures sound { IfOk result (λ _. IsSoundFront first.now) }
    ensures first { IfErr result (λ fault. IsFirst (WrongFront first.now) fault.place fault.reason) }
{
    stated(first)
}

#[tactic(auto, unfolding(crate::specs::Front::front_in))]
fn stated(first: &[u8; 16]) -> Result<u32, Fault>
    ensures { result ≡ front_in first.now }
{
    if first[0] != b'l' && first[0] != b'B' {
        return Err(fault(0, 22));
    }
    if first[1] == 0 {
        return Err(fault(1, 23));
    }
    if first[3] != 1 {
        return Err(fault(3, 24));
    }
    let input = Marshalled {
        order: order_of(first[0]),
        bytes: first,
    };
    let fields = u32_at(&input, 12) as u64;
    let end = 16 + fields;
    let total = end + (8 - end % 8) % 8 + u32_at(&input, 4) as u64;
    if 134217728 < total {
        return Err(fault(4, 25));
    }
    if u32_at(&input, 8) == 0 {
        return Err(fault(8, 26));
    }
    if 67108864 < fields {
        return Err(fault(12, 27));
    }
    Ok(total as u32)
}

fn fault(place: u32, reason: u8) -> Fault
    ensures { result ≡ record { place = place; reason = reason } }
{
    Fault { place, reason }
}
