//! Messages.

ghost use Rattle.std.specs.Prelude.{◌≡◌, IfOk};
ghost use Rattle.atspi_message.specs.Envelope.{envelope_of};

use atspi_base::NoMemory;
use atspi_base::valid_names::{BusName, Interface, Member, Path};
use atspi_types::{Order, Values};
use std::alloc::Global;

/// A message (D-Bus Specification, "Message Protocol"): the order of its bytes, the fields of its header, and the
/// values of its body.
#[derive(Drop)]
pub struct Message {
    pub order: Order,
    /// The type: 1 is a call, 2 a return, 3 an error and 4 a signal. 0 is no type, and larger ones have no meaning.
    pub kind: u8,
    /// Bit 0: a call expects no reply.
    pub flags: u8,
    pub serial: u32,
    pub path: Option<Path>,
    pub interface: Option<Interface>,
    pub member: Option<Member>,
    /// The name of an error.
    pub error: Option<Interface>,
    /// The serial of the message that this one replies to.
    pub reply: Option<u32>,
    pub destination: Option<BusName>,
    pub sender: Option<BusName>,
    pub body: Values,
}

impl Message {
    /// An equal message.
    pub fn copy(&self, alloc: Global) -> Result<Message, NoMemory>
        ensures { IfOk result (λ message. envelope_of message ≡ envelope_of self.now) }
    {
        Ok(Message {
            order: self.order,
            kind: self.kind,
            flags: self.flags,
            serial: self.serial,
            path: copied_path(alloc, &self.path)?,
            interface: copied_interface(alloc, &self.interface)?,
            member: copied_member(alloc, &self.member)?,
            error: copied_interface(alloc, &self.error)?,
            reply: self.reply,
            destination: copied_bus_name(alloc, &self.destination)?,
            sender: copied_bus_name(alloc, &self.sender)?,
            body: self.body.copy(alloc)?,
        })
    }
}

fn copied_path(alloc: Global, path: &Option<Path>) -> Result<Option<Path>, NoMemory>
    ensures { IfOk result (λ copied. copied ≡ path.now) }
{
    match path {
        Some(path) => Ok(Some(path.copy(alloc)?)),
        None => Ok(None),
    }
}

fn copied_interface(
    alloc: Global,
    interface: &Option<Interface>,
) -> Result<Option<Interface>, NoMemory>
    ensures { IfOk result (λ copied. copied ≡ interface.now) }
{
    match interface {
        Some(interface) => Ok(Some(interface.copy(alloc)?)),
        None => Ok(None),
    }
}

fn copied_member(alloc: Global, member: &Option<Member>) -> Result<Option<Member>, NoMemory>
    ensures { IfOk result (λ copied. copied ≡ member.now) }
{
    match member {
        Some(member) => Ok(Some(member.copy(alloc)?)),
        None => Ok(None),
    }
}

fn copied_bus_name(alloc: Global, bus_name: &Option<BusName>) -> Result<Option<BusName>, NoMemory>
    ensures { IfOk result (λ copied. copied ≡ bus_name.now) }
{
    match bus_name {
        Some(bus_name) => Ok(Some(bus_name.copy(alloc)?)),
        None => Ok(None),
    }
}
