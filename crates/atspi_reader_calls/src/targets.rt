//! Whom a reader calls beside the bus: the registry, and the objects of applications.

ghost use Rattle.std.specs.Prelude.{◌≡◌, true, codes, IfOk};
ghost use Rattle.atspi_types.specs.DataView.{all_data};
ghost use Rattle.atspi_base.specs.valid_names.Names.{is_interface, is_member};
ghost use Rattle.atspi_message.specs.Envelope.{envelope_of};
ghost use Rattle.atspi_protocol.specs.ends.Messages as messages;
ghost use Rattle.atspi_protocol.specs.ends.Places.{registry, registry_path, root_path, cache_path};
ghost use Rattle.atspi_protocol.specs.members.Interfaces as interfaces;

use atspi_base::NoMemory;
use atspi_base::valid_names::{BusName, Path};
use atspi_message::Message;
use atspi_protocol::ends::{call_to, interface, member, path};
use atspi_protocol_messages::call;
use atspi_types::Values;
use std::alloc::Global;

/// RegisterEvent of the registry.
#[tactic(auto, unfolding(atspi_base::specs::valid_names::Names::is_bus_name, atspi_base::specs::valid_names::Names::is_path, atspi_base::specs::valid_names::Names::is_interface, atspi_base::specs::valid_names::Names::is_member, atspi_base::specs::valid_names::Elements::are_two_or_more, atspi_base::specs::valid_names::Elements::are_elements, atspi_base::specs::valid_names::Elements::parts_of))]
pub(crate) fn register_call(alloc: Global, body: Values) -> Result<Message, NoMemory>
    ensures { IfOk result
        (λ message. envelope_of message
        ≡ messages.call_to registry registry_path interfaces.registry (codes "RegisterEvent") (all_data body)) }
{
    call(
        alloc,
        "org.a11y.atspi.Registry",
        "/org/a11y/atspi/registry",
        "org.a11y.atspi.Registry",
        "RegisterEvent",
        body,
    )
}

/// GetChildren of the registry's root.
#[tactic(auto, unfolding(atspi_base::specs::valid_names::Names::is_bus_name, atspi_base::specs::valid_names::Names::is_path, atspi_base::specs::valid_names::Names::is_interface, atspi_base::specs::valid_names::Names::is_member, atspi_base::specs::valid_names::Elements::are_two_or_more, atspi_base::specs::valid_names::Elements::are_elements, atspi_base::specs::valid_names::Elements::parts_of))]
pub(crate) fn children_call(alloc: Global, body: Values) -> Result<Message, NoMemory>
    ensures { IfOk result
        (λ message. envelope_of message
        ≡ messages.call_to registry root_path interfaces.accessible (codes "GetChildren") (all_data body)) }
{
    call(
        alloc,
        "org.a11y.atspi.Registry",
        "/org/a11y/atspi/accessible/root",
        "org.a11y.atspi.Accessible",
        "GetChildren",
        body,
    )
}

/// The object that tells a whole application.
#[tactic(auto, unfolding(atspi_base::specs::valid_names::Names::is_path, atspi_base::specs::valid_names::Elements::are_elements, atspi_base::specs::valid_names::Elements::parts_of))]
pub(crate) fn cache_object(alloc: Global) -> Result<Path, NoMemory>
    ensures { IfOk result (λ path. path ≡ cache_path) }
{
    path(alloc, "/org/a11y/atspi/cache")
}

/// A call of a member of an application's object.
pub(crate) fn object_call(
    alloc: Global,
    name: &BusName,
    object: Path,
    of: &str,
    asked: &str,
    body: Values,
) -> Result<Message, NoMemory>
    requires interface { is_interface of.now ≡ true }
    requires member { is_member asked.now ≡ true }
    ensures { IfOk result
        (λ message. envelope_of message ≡ messages.call_to name.now object of.now asked.now (all_data body)) }
{
    Ok(call_to(
        name.copy(alloc)?,
        object,
        interface(alloc, of)?,
        member(alloc, asked)?,
        body,
    ))
}
