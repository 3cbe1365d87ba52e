//! The answer to a call of Component.

ghost use Rattle.std.specs.Prelude.{[], ℕ, IfOk, IsSome, MatchOption, unwrap_or};
ghost use Rattle.atspi_message.specs.Envelope.{envelope_of};
ghost use Rattle.atspi_hit.specs.Places.{rect_at};
ghost use Rattle.atspi_hit_answers.specs.Component.{Asks, IsAnswer, IsNode};

use crate::ask::{Ask, asked};
use crate::replies::{refused, reply};
use atspi_app_calls::node_at;
use atspi_base::{NoMemory, Text};
use atspi_hit::Layout;
use atspi_message::Message;
use atspi_protocol::ends::CallError;
use atspi_tree::Tree;
use std::alloc::Global;

/// The node whose path this is, where it is there.
fn node_with(tree: &Tree, path: &str) -> Option<u32>
    ensures { MatchOption result ((n : ℕ) → IsNode tree.now path.now n → ⊥) (λ n. IsNode tree.now path.now n) }
{
    tree.is_lawful();
    let Some(node) = node_at(path) else {
        return None;
    };
    if tree.has(node) {
        return Some(node);
    }
    None
}

/// The node of a call, where it is there.
fn node_of(tree: &Tree, call: &Message) -> Option<u32>
    ensures { MatchOption result ((n : ℕ) → IsNode tree.now (unwrap_or (envelope_of call.now).path []) n → ⊥)
        (λ n. IsNode tree.now (unwrap_or (envelope_of call.now).path []) n) }
{
    match &call.path {
        Some(path) => node_with(tree, path.as_str()),
        None => node_with(tree, ""),
    }
}

/// What a call asks.
fn asked_in(call: &Message) -> Result<Ask, CallError>
    ensures { Asks (unwrap_or (envelope_of call.now).member []) (envelope_of call.now).body result }
{
    match &call.member {
        Some(member) => asked(member.as_str(), &call.body),
        None => asked("", &call.body),
    }
}

/// The reply with this serial to a call of the interface Component, which has a sender: the application has this name
/// on the bus, and its nodes stand where the layout says. The path is judged first, then the member, then the
/// arguments: `UnknownObject`, `UnknownMethod`, `InvalidArgs`; a coordinate type other than 0, the screen, is no
/// argument.
pub fn answer(
    alloc: Global,
    tree: &Tree,
    layout: &Layout,
    name: &Text,
    call: &Message,
    serial: u32,
) -> Result<Message, NoMemory>
    requires { IsSome call.now.sender }
    ensures { IfOk result
        (λ message. IsAnswer tree.now (rect_at layout.now) name.now serial (envelope_of call.now)
        (envelope_of message)) }
{
    let Some(sender) = &call.sender else {
        unreachable!()
    };
    let caller = sender.copy(alloc)?;
    let Some(node) = node_of(tree, call) else {
        return refused(alloc, caller, call.serial, CallError::UnknownObject, serial);
    };
    match asked_in(call) {
        Ok(ask) => reply(
            alloc,
            tree,
            layout,
            name,
            node,
            ask,
            caller,
            call.serial,
            serial,
        ),
        Err(error) => refused(alloc, caller, call.serial, error, serial),
    }
}
