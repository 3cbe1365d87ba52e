//! Messages that lie in bytes, made into owned ones. Only memory can be wanting.

ghost use Rattle.std.specs.Prelude.{◌≡◌, IfOk, IsTrue};
ghost use Rattle.atspi_base.specs.valid_names.Names.{is_path, is_interface, is_member, is_bus_name};
ghost use Rattle.atspi_message.specs.Envelope.{envelope_of};
ghost use Rattle.atspi_message_in_place.specs.Names.{fits};
ghost use Rattle.atspi_message_in_place.specs.View.{bytes_of, envelope_at};

use crate::message::MessageRef;
use atspi_base::NoMemory;
use atspi_base::valid_names::{BusName, Interface, Member, NameFault, Path};
use atspi_message::Message;
use std::alloc::Global;

/// The path, owned, if there is one.
fn owned_path(alloc: Global, path: Option<&str>) -> Result<Option<Path>, NoMemory>
    requires { IsTrue (fits is_path path) }
    ensures { IfOk result (λ owned. owned ≡ bytes_of path.entry) }
{
    let Some(text) = path else {
        return Ok(None);
    };
    match Path::read(alloc, text.as_bytes()) {
        Ok(owned) => Ok(Some(owned)),
        Err(NameFault::NoMemory) => Err(NoMemory),
        Err(NameFault::Form) => unreachable!(),
    }
}

/// The name of an interface or of an error, owned, if there is one.
fn owned_interface(alloc: Global, interface: Option<&str>) -> Result<Option<Interface>, NoMemory>
    requires { IsTrue (fits is_interface interface) }
    ensures { IfOk result (λ owned. owned ≡ bytes_of interface.entry) }
{
    let Some(text) = interface else {
        return Ok(None);
    };
    match Interface::read(alloc, text.as_bytes()) {
        Ok(owned) => Ok(Some(owned)),
        Err(NameFault::NoMemory) => Err(NoMemory),
        Err(NameFault::Form) => unreachable!(),
    }
}

/// The name of a member, owned, if there is one.
fn owned_member(alloc: Global, member: Option<&str>) -> Result<Option<Member>, NoMemory>
    requires { IsTrue (fits is_member member) }
    ensures { IfOk result (λ owned. owned ≡ bytes_of member.entry) }
{
    let Some(text) = member else {
        return Ok(None);
    };
    match Member::read(alloc, text.as_bytes()) {
        Ok(owned) => Ok(Some(owned)),
        Err(NameFault::NoMemory) => Err(NoMemory),
        Err(NameFault::Form) => unreachable!(),
    }
}

/// The bus name, owned, if there is one.
fn owned_bus_name(alloc: Global, bus_name: Option<&str>) -> Result<Option<BusName>, NoMemory>
    requires { IsTrue (fits is_bus_name bus_name) }
    ensures { IfOk result (λ owned. owned ≡ bytes_of bus_name.entry) }
{
    let Some(text) = bus_name else {
        return Ok(None);
    };
    match BusName::read(alloc, text.as_bytes()) {
        Ok(owned) => Ok(Some(owned)),
        Err(NameFault::NoMemory) => Err(NoMemory),
        Err(NameFault::Form) => unreachable!(),
    }
}

/// What a message is about, owned: the names of an object's path, of an interface and of a member of it.
#[derive(Drop)]
struct Subject {
    path: Option<Path>,
    interface: Option<Interface>,
    member: Option<Member>,
}

/// The name of an error and the names of both ends of a message, owned.
#[derive(Drop)]
struct Ends {
    error: Option<Interface>,
    destination: Option<BusName>,
    sender: Option<BusName>,
}

impl<'a> MessageRef<'a> {
    /// What the message is about, owned.
    #[tactic(auto, using(crate::proofs::Names::each_named))]
    fn subject(&self, alloc: Global) -> Result<Subject, NoMemory>
        ensures { IfOk result
            (λ subject. (subject.path ≡ bytes_of self.now.path) × (subject.interface ≡ bytes_of self.now.interface)
            × (subject.member ≡ bytes_of self.now.member)) }
    {
        Ok(Subject {
            path: owned_path(alloc, self.path)?,
            interface: owned_interface(alloc, self.interface)?,
            member: owned_member(alloc, self.member)?,
        })
    }

    /// The name of the error and the names of both ends, owned.
    #[tactic(auto, using(crate::proofs::Names::each_named))]
    fn ends(&self, alloc: Global) -> Result<Ends, NoMemory>
        ensures { IfOk result
            (λ ends. (ends.error ≡ bytes_of self.now.error) × (ends.destination ≡ bytes_of self.now.destination)
            × (ends.sender ≡ bytes_of self.now.sender)) }
    {
        Ok(Ends {
            error: owned_interface(alloc, self.error)?,
            destination: owned_bus_name(alloc, self.destination)?,
            sender: owned_bus_name(alloc, self.sender)?,
        })
    }

    /// The message, owned. Memory alone can be wanting.
    pub fn owned(&self, alloc: Global) -> Result<Message, NoMemory>
        ensures { IfOk result (λ message. envelope_of message ≡ envelope_at self.now) }
    {
        let body = self.body.values(alloc)?;
        let subject = self.subject(alloc)?;
        let ends = self.ends(alloc)?;
        Ok(Message {
            order: self.order,
            kind: self.kind,
            flags: self.flags,
            serial: self.serial,
            path: subject.path,
            interface: subject.interface,
            member: subject.member,
            error: ends.error,
            reply: self.reply,
            destination: ends.destination,
            sender: ends.sender,
            body,
        })
    }
}
