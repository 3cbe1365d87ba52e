//! Messages that lie in bytes.

ghost use Rattle.std.specs.Prelude.{IsTrue};
ghost use Rattle.atspi_marshal_in_place.specs.Items.{fields_data};
ghost use Rattle.atspi_message_in_place.specs.Bodies.{IsBody};
ghost use Rattle.atspi_message_in_place.specs.Names.{are_named};

use atspi_marshal_in_place::Fields;
use atspi_types::Order;

/// A message that lies in bytes (D-Bus Specification, "Message Protocol"): the order of its bytes, the fields of its
/// header, and the values of its body. Names are lent from the bytes, each of its rule; the values are walked where
/// they lie, and their bytes are lent too.
#[derive(Clone, Copy)]
pub struct MessageRef<'a> {
    pub order: Order,
    /// The type: 1 is a call, 2 a return, 3 an error and 4 a signal. 0 is no type, and larger ones have no meaning.
    pub kind: u8,
    /// Bit 0: a call expects no reply.
    pub flags: u8,
    pub serial: u32,
    pub path: Option<&'a str>,
    pub interface: Option<&'a str>,
    pub member: Option<&'a str>,
    /// The name of an error.
    pub error: Option<&'a str>,
    /// The serial of the message that this one replies to.
    pub reply: Option<u32>,
    pub destination: Option<&'a str>,
    pub sender: Option<&'a str>,
    pub body: Fields<'a>,
    /// The bytes of the body, up to the end of the message.
    pub body_bytes: &'a [u8],
    ghost named: { IsTrue (are_named path interface member error destination sender) },
    ghost lies: { ∥ IsBody order (fields_data body) body_bytes.now ∥₁ },
}
