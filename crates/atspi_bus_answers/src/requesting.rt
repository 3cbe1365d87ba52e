//! RequestName and ReleaseName.

ghost use Rattle.std.specs.Prelude.{◌≡◌, ℕ, List, IfOk, IfSome, OnErr, chars};
ghost use Rattle.atspi_marshal_in_place.specs.Items.{fields_data};
ghost use Rattle.atspi_match.specs.declared.condition.Condition.{Condition};
ghost use Rattle.atspi_bus_answers.specs.Answered.{with_parts, IsAnswer};
ghost use Rattle.atspi_bus_answers.specs.Free.{IsFreeName};
ghost use Rattle.atspi_bus_answers.specs.inner.Members.{IsAskedName, requested_answer, released_answer};

use crate::BusError;
use crate::answering::Reply;
use crate::arguments::first_text;
use crate::change::{release_change, request_change, tell_change};
use crate::literal::is_own;
use crate::values::one;
use atspi_base::NoMemory;
use atspi_base::valid_names::{BusName, NameFault};
use atspi_message::Message;
use atspi_message_in_place::MessageRef;
use atspi_names::Names;
use atspi_types::Value;
use std::alloc::Global;

/// The name that the text is, where connections may ask for it.
fn asked_name(alloc: Global, text: &str) -> Result<Option<BusName>, NoMemory>
    ensures { IfOk result (λ name. IsAskedName name (chars text.now)) }
{
    match BusName::read(alloc, text.as_bytes()) {
        Ok(name) => {
            if name.is_unique() {
                return Ok(None);
            }
            if is_own(name.as_str()) {
                return Ok(None);
            }
            Ok(Some(name))
        }
        Err(NameFault::Form) => Ok(None),
        Err(NameFault::NoMemory) => Err(NoMemory),
    }
}

/// The name that a call of RequestName asks for, where connections may ask for it and nobody has it.
pub fn free_name(alloc: Global, names: &Names, m: &MessageRef) -> Result<Option<BusName>, NoMemory>
    ensures { IfOk result (λ name. IfSome name (IsFreeName names.now (fields_data m.now.body))) }
{
    let Some(name) = asked_name(alloc, first_text(m.body))? else {
        return Ok(None);
    };
    if names.is_free(&name) {
        return Ok(Some(name));
    }
    Ok(None)
}

/// RequestName: what it changes is told before the name is asked for, and taken back where that fails, so that after
/// want of memory the names and what was told are as before.
pub fn request_name(
    alloc: Global,
    names: &mut Names,
    conn: u32,
    text: &str,
    flags: u32,
    told: &mut Vec<Message>,
) -> Result<Reply, NoMemory>
    ensures ok { IfOk result (λ reply. (rules : List (ℕ × List Condition)) →
        IsAnswer (requested_answer (with_parts names.old rules) conn (chars text.now) flags) names.new rules
        told.old.items told.new.items reply) }
    ensures err { OnErr result (names.new ≡ names.old) }
    ensures untold { OnErr result (told.new.items ≡ told.old.items) }
{
    let Some(name) = asked_name(alloc, text)? else {
        return Ok(Reply::Fails(BusError::InvalidArgs));
    };
    let change = request_change(names.queue(&name), conn, flags);
    let values = one(alloc, Value::U32(change.answer))?;
    let told_before = told.len();
    tell_change(alloc, names, &name, change, told)?;
    if names.request(conn, &name, flags).is_err() {
        told.truncate(told_before);
        return Err(NoMemory);
    }
    Ok(Reply::Returns(values))
}

/// ReleaseName. After want of memory the names and what was told are as before.
pub fn release_name(
    alloc: Global,
    names: &mut Names,
    conn: u32,
    text: &str,
    told: &mut Vec<Message>,
) -> Result<Reply, NoMemory>
    ensures ok { IfOk result (λ reply. (rules : List (ℕ × List Condition)) →
        IsAnswer (released_answer (with_parts names.old rules) conn (chars text.now)) names.new rules told.old.items
        told.new.items reply) }
    ensures err { OnErr result (names.new ≡ names.old) }
    ensures untold { OnErr result (told.new.items ≡ told.old.items) }
{
    let Some(name) = asked_name(alloc, text)? else {
        return Ok(Reply::Fails(BusError::InvalidArgs));
    };
    let change = release_change(names.queue(&name), conn);
    let values = one(alloc, Value::U32(change.answer))?;
    tell_change(alloc, names, &name, change, told)?;
    names.release(conn, &name);
    Ok(Reply::Returns(values))
}
