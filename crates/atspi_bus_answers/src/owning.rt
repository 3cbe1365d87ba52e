//! NameHasOwner and GetNameOwner.

ghost use Rattle.std.specs.Prelude.{◌≡◌, [], ◌∷◌, chars, IfOk};
ghost use Rattle.std.specs.Option.{option_map};
ghost use Rattle.atspi_types.specs.Data.{text_data, boolean_data};
ghost use Rattle.atspi_types.specs.DataView.{data_of};
ghost use Rattle.atspi_match.specs.routing.Answers as answers;
ghost use Rattle.atspi_bus_answers.specs.Answered.{reply_of, AreNamed};

use crate::BusError;
use crate::answering::Reply;
use crate::literal::is_own;
use crate::values::{one, owner_value};
use atspi_base::valid_names::{BusName, NameFault};
use atspi_base::{NoMemory, Text};
use atspi_names::Names;
use atspi_types::Value;
use std::alloc::Global;

/// Who owns the name that the text is, as a text: the bus its own, and else a connection by its unique name.
fn owner_of(alloc: Global, names: &Names, text: &str) -> Result<Option<Value>, NoMemory>
    requires { AreNamed names.now.lists }
    ensures { IfOk result
        (λ owner. option_map data_of owner ≡ option_map text_data (answers.owner_name names.now (chars text.now))) }
{
    if is_own(text) {
        return Ok(Some(Value::Text(Text::of(alloc, "org.freedesktop.DBus")?)));
    }
    let name = match BusName::read(alloc, text.as_bytes()) {
        Ok(name) => name,
        Err(NameFault::Form) => return Ok(None),
        Err(NameFault::NoMemory) => return Err(NoMemory),
    };
    match names.owner(&name) {
        Some(conn) => Ok(Some(owner_value(alloc, names.unique_name(conn))?)),
        None => Ok(None),
    }
}

/// Whether anybody owns the name that the text is.
fn is_owned(alloc: Global, names: &Names, text: &str) -> Result<bool, NoMemory>
    requires { AreNamed names.now.lists }
    ensures { IfOk result (λ owned. owned ≡ answers.has_owner (answers.owner_name names.now (chars text.now))) }
{
    let owner = owner_of(alloc, names, text)?;
    Ok(owner.is_some())
}

/// NameHasOwner.
pub fn name_has_owner(alloc: Global, names: &Names, text: &str) -> Result<Reply, NoMemory>
    requires { AreNamed names.now.lists }
    ensures { IfOk result (λ reply. reply_of reply
        ≡ answers.returns (boolean_data (answers.has_owner (answers.owner_name names.now (chars text.now))) ∷ [])) }
{
    let owned = is_owned(alloc, names, text)?;
    Ok(Reply::Returns(one(alloc, Value::Bool(owned))?))
}

/// GetNameOwner.
pub fn get_name_owner(alloc: Global, names: &Names, text: &str) -> Result<Reply, NoMemory>
    requires { AreNamed names.now.lists }
    ensures { IfOk result
        (λ reply. reply_of reply ≡ answers.owner_reply (answers.owner_name names.now (chars text.now))) }
{
    match owner_of(alloc, names, text)? {
        Some(owner) => Ok(Reply::Returns(one(alloc, owner)?)),
        None => Ok(Reply::Fails(BusError::NameHasNoOwner)),
    }
}
