//! What is answered for a node, and the reply.

ghost use Rattle.std.specs.Prelude.{◌≡◌, None, pos, min, true, IfOk};
ghost use Rattle.atspi_types.specs.DataView.{data_of};
ghost use Rattle.atspi_message.specs.Envelope.{envelope_of};
ghost use Rattle.atspi_tree_model.specs.Forest.{has};
ghost use Rattle.atspi_tree_model.specs.Tree.{is_shape};
ghost use Rattle.atspi_protocol.specs.ends.Messages.{error_word, fails};
ghost use Rattle.atspi_protocol.specs.members.Arguments.{int};
ghost use Rattle.atspi_hit.specs.Places.{rect_at};
ghost use Rattle.atspi_hit_answers.specs.Component.{answered, extents, node_or_null, node_reply, reply_with};

use crate::ask::Ask;
use atspi_base::valid_names::BusName;
use atspi_base::{NoMemory, Text};
use atspi_hit::{Layout, Rect, at_point};
use atspi_message::Message;
use atspi_protocol::ends::{CallError, error_to, path, return_to};
use atspi_protocol_messages::{node_path, reference};
use atspi_tree::Tree;
use atspi_types::{Value, Values};
use std::alloc::Global;

/// A size, or the largest that can be told where it is larger.
fn size(n: u32) -> Value
    ensures { data_of result ≡ int (pos (min n 2147483647)) }
{
    Value::I32(n.min(2_147_483_647) as i32)
}

/// Where a node stands.
fn extents(alloc: Global, rect: Rect) -> Result<Value, NoMemory>
    ensures { IfOk result (λ value. data_of value ≡ extents rect) }
{
    let mut fields = Values::new(alloc);
    fields.push(Value::I32(rect.x))?;
    fields.push(Value::I32(rect.y))?;
    fields.push(size(rect.w))?;
    fields.push(size(rect.h))?;
    Ok(Value::Struct(fields))
}

/// The path of nobody.
#[tactic(auto, unfolding(atspi_base::specs::valid_names::Names::is_path, atspi_base::specs::valid_names::Elements::are_elements, atspi_base::specs::valid_names::Elements::parts_of))]
fn null(alloc: Global, name: &Text) -> Result<Value, NoMemory>
    ensures { IfOk result (λ value. data_of value ≡ node_or_null name.now None) }
{
    let null = path(alloc, "/org/a11y/atspi/null")?;
    reference(alloc, name, null)
}

/// A node, or nobody.
fn node_or_null(alloc: Global, name: &Text, node: Option<u32>) -> Result<Value, NoMemory>
    ensures { IfOk result (λ value. data_of value ≡ node_or_null name.now node) }
{
    match node {
        Some(node) => reference(alloc, name, node_path(alloc, node)?),
        None => null(alloc, name),
    }
}

/// What is answered for a node that is there.
fn answered(
    alloc: Global,
    tree: &Tree,
    layout: &Layout,
    name: &Text,
    node: u32,
    ask: Ask,
) -> Result<Value, NoMemory>
    requires { has (is_shape node) tree.now.rows ≡ true }
    ensures { IfOk result (λ value. data_of value ≡ answered tree.now (rect_at layout.now) name.now node ask) }
{
    match ask {
        Ask::Contains { x, y } => Ok(Value::Bool(layout.rect(node).covers(x, y))),
        Ask::AccessibleAtPoint { x, y } => {
            node_or_null(alloc, name, at_point(tree, layout, node, x, y))
        }
        Ask::Extents => extents(alloc, layout.rect(node)),
    }
}

/// A caller's call gets this error.
pub(crate) fn refused(
    alloc: Global,
    caller: BusName,
    call: u32,
    error: CallError,
    serial: u32,
) -> Result<Message, NoMemory>
    ensures { IfOk result
        (λ message. envelope_of message ≡ reply_with serial caller call (fails (error_word error))) }
{
    let mut message = error_to(alloc, caller, call, error)?;
    message.serial = serial;
    Ok(message)
}

/// The reply with this serial to a caller's call, which has the serial `call`, of a node's Component: the application
/// has this name on the bus, and its nodes stand where the layout says. A node that is not there is an unknown object.
pub fn reply(
    alloc: Global,
    tree: &Tree,
    layout: &Layout,
    name: &Text,
    node: u32,
    ask: Ask,
    caller: BusName,
    call: u32,
    serial: u32,
) -> Result<Message, NoMemory>
    ensures { IfOk result
        (λ message. envelope_of message
        ≡ reply_with serial caller call (node_reply tree.now (rect_at layout.now) name.now node ask)) }
{
    if !tree.has(node) {
        return refused(alloc, caller, call, CallError::UnknownObject, serial);
    }
    let mut body = Values::new(alloc);
    body.push(answered(alloc, tree, layout, name, node, ask)?)?;
    let mut message = return_to(caller, call, body);
    message.serial = serial;
    Ok(message)
}
