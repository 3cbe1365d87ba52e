//! ListNames and ListQueuedOwners.

ghost use Rattle.std.specs.Prelude.{◌≡◌, ℕ, [], ◌∷◌, Some, map, chars, IfOk};
ghost use Rattle.atspi_types.specs.Data.{text_data};
ghost use Rattle.atspi_types.specs.DataView.{data_of, all_data};
ghost use Rattle.atspi_names.specs.Owners.{listed};
ghost use Rattle.atspi_match.specs.routing.Answers as answers;
ghost use Rattle.atspi_match.specs.routing.BusState.{name_or_empty};
ghost use Rattle.atspi_bus_answers.specs.Answered.{reply_of, AreNamed};

use crate::BusError;
use crate::answering::Reply;
use crate::literal::is_own;
use crate::values::{name_value, one, owner_value};
use atspi_base::valid_names::{BusName, NameFault};
use atspi_base::{NoMemory, Text};
use atspi_names::Names;
use atspi_types::{Ty, Value, Values};
use std::alloc::Global;

/// The names as texts.
fn texts(alloc: Global, names: &[BusName]) -> Result<Values, NoMemory>
    ensures { IfOk result (λ values. all_data values ≡ map text_data names.now) }
{
    let mut values = Values::new(alloc);
    for name in names {
        values.push(name_value(alloc, name)?)?;
    }
    Ok(values)
}

/// ListNames.
pub fn list_names(alloc: Global, names: &Names) -> Result<Reply, NoMemory>
    ensures { IfOk result (λ reply. reply_of reply ≡ answers.returns (answers.texts (listed names.now) ∷ [])) }
{
    let listed = names.list()?;
    let values = texts(alloc, listed.as_slice())?;
    Ok(Reply::Returns(one(alloc, Value::Array(Ty::Text, values))?))
}

/// The unique names of those who own a name or wait for it, as texts.
fn owners(alloc: Global, names: &Names, queue: &[(u32, u32)]) -> Result<Values, NoMemory>
    ensures { IfOk result (λ values. all_data values
        ≡ map text_data (map (λ (e : ℕ × ℕ). name_or_empty names.now (Some e.0)) queue.now)) }
{
    let mut values = Values::new(alloc);
    for (conn, _) in queue {
        values.push(owner_value(alloc, names.unique_name(*conn))?)?;
    }
    Ok(values)
}

/// Those who own the name that the text is or wait for it, as texts, the owner first.
fn queued(alloc: Global, names: &Names, text: &str) -> Result<Values, NoMemory>
    requires { AreNamed names.now.lists }
    ensures { IfOk result
        (λ values. all_data values ≡ map text_data (answers.queued_names names.now (chars text.now))) }
{
    if is_own(text) {
        return one(alloc, Value::Text(Text::of(alloc, "org.freedesktop.DBus")?));
    }
    match BusName::read(alloc, text.as_bytes()) {
        Ok(name) => owners(alloc, names, names.queue(&name)),
        Err(NameFault::Form) => Ok(Values::new(alloc)),
        Err(NameFault::NoMemory) => Err(NoMemory),
    }
}

/// ListQueuedOwners.
pub fn list_queued_owners(alloc: Global, names: &Names, text: &str) -> Result<Reply, NoMemory>
    requires { AreNamed names.now.lists }
    ensures { IfOk result
        (λ reply. reply_of reply ≡ answers.queued_reply (answers.queued_names names.now (chars text.now))) }
{
    let values = queued(alloc, names, text)?;
    if values.len() == 0 {
        return Ok(Reply::Fails(BusError::NameHasNoOwner));
    }
    Ok(Reply::Returns(one(alloc, Value::Array(Ty::Text, values))?))
}
