//! The messages of the bus's own, before they have their numbers.

ghost use Rattle.std.specs.Prelude.{◌≡◌, [], ◌∷◌, true, codes, IfOk, option_copied};
ghost use Rattle.atspi_types.specs.Data.{text_data};
ghost use Rattle.atspi_types.specs.DataView.{all_data};
ghost use Rattle.atspi_base.specs.valid_names.Names.{is_member};
ghost use Rattle.atspi_message.specs.Envelope.{envelope_of};
ghost use Rattle.atspi_names.specs.Owners.{own_name};
ghost use Rattle.atspi_match.specs.routing.BusState.{text_or_empty};
ghost use Rattle.atspi_match.specs.routing.OwnMessages as own;
ghost use Rattle.atspi_bus_answers.specs.Errors.{error_text};

use crate::BusError;
use crate::literal::{bus_name, interface, member, path};
use crate::values::{name_value, one, owner_value};
use atspi_base::valid_names::{BusName, Interface, Path};
use atspi_base::{NoMemory, Text};
use atspi_message::Message;
use atspi_types::{Order, Value, Values};
use std::alloc::Global;

/// The name of the bus itself, which is also that of its interface.
const OWN_NAME: &str = "org.freedesktop.DBus";

/// The path of the bus's own signals.
const OWN_PATH: &str = "/org/freedesktop/DBus";

/// A copy of the name, if there is one.
fn copied(alloc: Global, name: Option<&BusName>) -> Result<Option<BusName>, NoMemory>
    ensures { IfOk result (λ copy. copy ≡ option_copied name.entry) }
{
    match name {
        Some(name) => Ok(Some(name.copy(alloc)?)),
        None => Ok(None),
    }
}

/// Whom a message of the bus's own goes to, and whom it is from: the bus.
fn ends(alloc: Global, to: Option<&BusName>) -> Result<(Option<BusName>, BusName), NoMemory>
    ensures { IfOk result (λ ends. ends ≡ (option_copied to.entry, own_name)) }
{
    let to = copied(alloc, to)?;
    let from = bus_name(alloc, OWN_NAME)?;
    Ok((to, from))
}

/// Where the bus's own signals come from: its path, and its interface.
fn place(alloc: Global) -> Result<(Path, Interface), NoMemory>
    ensures { IfOk result (λ place. place ≡ (own.own_path, own_name)) }
{
    let at = path(alloc, OWN_PATH)?;
    let of = interface(alloc, OWN_NAME)?;
    Ok((at, of))
}

/// A signal, to one connection or to all that ask for it.
fn signal(
    alloc: Global,
    name: &str,
    to: Option<&BusName>,
    body: Values,
) -> Result<Message, NoMemory>
    requires { is_member name.now ≡ true }
    ensures { IfOk result (λ m. envelope_of m ≡ own.signal name.now (option_copied to.entry) (all_data body)) }
{
    let member = member(alloc, name)?;
    let (to, from) = ends(alloc, to)?;
    let (at, of) = place(alloc)?;
    Ok(Message {
        order: Order::Little,
        kind: 4,
        flags: 1,
        serial: 0,
        path: Some(at),
        interface: Some(of),
        member: Some(member),
        error: None,
        reply: None,
        destination: to,
        sender: Some(from),
        body,
    })
}

/// What a caller's call with this serial returns.
pub fn return_to(
    alloc: Global,
    caller: Option<&BusName>,
    serial: u32,
    body: Values,
) -> Result<Message, NoMemory>
    ensures { IfOk result (λ m. envelope_of m ≡ own.return_to (option_copied caller.entry) serial (all_data body)) }
{
    let (to, from) = ends(alloc, caller)?;
    Ok(Message {
        order: Order::Little,
        kind: 2,
        flags: 1,
        serial: 0,
        path: None,
        interface: None,
        member: None,
        error: None,
        reply: Some(serial),
        destination: to,
        sender: Some(from),
        body,
    })
}

/// The body of an error: its text.
fn error_body(alloc: Global, error: BusError) -> Result<Values, NoMemory>
    ensures { IfOk result (λ body. all_data body ≡ text_data (error_text error) ∷ []) }
{
    let text = Text::of(alloc, error.text())?;
    one(alloc, Value::Text(text))
}

/// The error that a caller's call with this serial gets.
pub fn error_to(
    alloc: Global,
    caller: Option<&BusName>,
    serial: u32,
    error: BusError,
) -> Result<Message, NoMemory>
    ensures { IfOk result (λ m. envelope_of m ≡ own.error_to (option_copied caller.entry) serial (error_text error)) }
{
    let body = error_body(alloc, error)?;
    let name = interface(alloc, error.name())?;
    let (to, from) = ends(alloc, caller)?;
    Ok(Message {
        order: Order::Little,
        kind: 3,
        flags: 1,
        serial: 0,
        path: None,
        interface: None,
        member: None,
        error: Some(name),
        reply: Some(serial),
        destination: to,
        sender: Some(from),
        body,
    })
}

/// A connection is told that it does not own the name any more.
pub fn name_lost(alloc: Global, to: Option<&BusName>, name: &BusName) -> Result<Message, NoMemory>
    ensures { IfOk result (λ m. envelope_of m ≡
        own.signal (codes "NameLost") (option_copied to.entry) (text_data name.now ∷ [])) }
{
    let body = one(alloc, name_value(alloc, name)?)?;
    signal(alloc, "NameLost", to, body)
}

/// A connection is told that it owns the name.
pub fn name_acquired(
    alloc: Global,
    to: Option<&BusName>,
    name: &BusName,
) -> Result<Message, NoMemory>
    ensures { IfOk result (λ m. envelope_of m ≡
        own.signal (codes "NameAcquired") (option_copied to.entry) (text_data name.now ∷ [])) }
{
    let body = one(alloc, name_value(alloc, name)?)?;
    signal(alloc, "NameAcquired", to, body)
}

/// All that ask for it are told that the name has another owner, or none.
pub fn owner_changed(
    alloc: Global,
    name: &BusName,
    before: Option<&BusName>,
    after: Option<&BusName>,
) -> Result<Message, NoMemory>
    ensures { IfOk result (λ m. envelope_of m ≡
        own.owner_changed name.now (text_or_empty (option_copied before.entry))
        (text_or_empty (option_copied after.entry))) }
{
    let mut body = one(alloc, name_value(alloc, name)?)?;
    body.push(owner_value(alloc, before)?)?;
    body.push(owner_value(alloc, after)?)?;
    signal(alloc, "NameOwnerChanged", None, body)
}
