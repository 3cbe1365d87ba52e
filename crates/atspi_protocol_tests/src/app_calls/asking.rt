//! What calls ask: members, properties, and the first error.

use crate::made::{call, lent, stop_unless};
use atspi_app_calls::{AppInterface, AppObject, Ask, asked};
use atspi_protocol::ends::CallError;
use atspi_protocol::members::{ObjectMember, ObjectProperty};
use atspi_tree_model::Kinds;
use std::alloc::Global;
use std::process::Abort;

/// The object of a word: the root without interfaces of its own, a node with Text, Selection and Action, or the cache.
fn object_of(rt: &impl Abort, word: &str) -> AppObject {
    let is_node = word == "node";
    if word == "cache" {
        return AppObject::Cache;
    }
    stop_unless(rt, word, is_node || word == "root");
    AppObject::Node {
        is_root: !is_node,
        kinds: Kinds {
            text: is_node,
            editable: false,
            selection: is_node,
            table: false,
            action: is_node,
        },
    }
}

/// What is asked for, by its name.
fn ask_of(name: &str) -> Option<Ask> {
    match name {
        "GetChildren" => Some(Ask::Call(ObjectMember::GetChildren)),
        "GetState" => Some(Ask::Call(ObjectMember::GetState)),
        "Ping" => Some(Ask::Call(ObjectMember::Ping)),
        "GetNSelections" => Some(Ask::Call(ObjectMember::GetNSelections)),
        "GetChildAtIndex" => Some(Ask::Call(ObjectMember::GetChildAtIndex)),
        "GetText" => Some(Ask::Call(ObjectMember::GetText)),
        "GetStringAtOffset" => Some(Ask::Call(ObjectMember::GetStringAtOffset)),
        "GetItems" => Some(Ask::Call(ObjectMember::GetItems)),
        "Name" => Some(Ask::Get(ObjectProperty::Name)),
        "CaretOffset" => Some(Ask::Get(ObjectProperty::CaretOffset)),
        "Id" => Some(Ask::Get(ObjectProperty::Id)),
        "all of Text" => Some(Ask::GetAll(AppInterface::Text)),
        _ => None,
    }
}

/// What is due of a call: what it asks for, or an error behind `no `.
fn due_of(due: &str) -> Option<Result<Ask, CallError>> {
    match due {
        "no arguments" => Some(Err(CallError::InvalidArgs)),
        "no method" => Some(Err(CallError::UnknownMethod)),
        "no interface" => Some(Err(CallError::UnknownInterface)),
        "no property" => Some(Err(CallError::UnknownProperty)),
        name => Some(Ok(ask_of(name)?)),
    }
}

/// Whether the call of a row asks of its object what is due.
fn asks(rt: &impl Abort, alloc: Global, row: &str) -> bool {
    let (spelled, due) = row.split_once(" => ").expect(rt, "a row");
    let (object, spelled) = spelled.split_once(' ').expect(rt, "an object");
    let bytes = call(rt, alloc, spelled);
    let message = lent(rt, bytes.as_slice(), 1);
    asked(object_of(rt, object), &message) == due_of(due).expect(rt, "what is due")
}

/// AT-SPI2's interface files: what takes nothing is asked for, what takes something is refused. Then members with
/// numbers, and one with a text in place of a number; interfaces, which are looked for before members; properties by
/// the name of their interface and their own; and all of an interface.
const CALLS: &str = "\
node - GetChildren => GetChildren
node - GetState => GetState
node - Ping => Ping
node - GetNSelections => GetNSelections
node - GetChildAtIndex => no arguments
node - GetText => no arguments
node - Get => no arguments
node - GetLocale => no method
node - InsertText => no method
node - GetStringAtOffset => no arguments
node - GetTextBeforeOffset => no method
node - GetStringAtOffset|iu|i=-1|u=0 => GetStringAtOffset
node - GetStringAtOffset|iu|i=0|u=4 => GetStringAtOffset
node - GetStringAtOffset|iu|i=0|u=2 => no arguments
node - GetStringAtOffset|iu|i=0|u=5 => no arguments
node - GetStringAtOffset|ii|i=0|i=1 => no arguments
node - GetItems => no method
node - Embed => no method
node org.a11y.atspi.Accessible GetChildAtIndex|i|i=-2147483648 => GetChildAtIndex
node org.a11y.atspi.Accessible GetChildAtIndex|i|i=-1 => GetChildAtIndex
node org.a11y.atspi.Accessible GetChildAtIndex|i|i=0 => GetChildAtIndex
node org.a11y.atspi.Accessible GetChildAtIndex|i|i=2147483647 => GetChildAtIndex
node org.a11y.atspi.Text GetText|ii|i=0|i=-1 => GetText
root org.a11y.atspi.Text GetText|ii|i=0|i=-1 => no interface
node - GetChildAtIndex|s|s=0 => no arguments
node org.example.Other GetChildren => no interface
node org.a11y.atspi.Text GetChildren => no method
cache - GetItems => GetItems
node - Get|ss|s=org.a11y.atspi.Accessible|s=Name => Name
node - Get|ss|s=org.a11y.atspi.Text|s=CaretOffset => CaretOffset
node - Get|ss|s=org.a11y.atspi.Text|s=Name => no property
root - Get|ss|s=org.a11y.atspi.Text|s=CaretOffset => no interface
root - Get|ss|s=org.a11y.atspi.Application|s=Id => Id
node - Get|ss|s=org.a11y.atspi.Application|s=Id => no interface
node - Get|ss|s=org.freedesktop.DBus.Peer|s=Name => no property
node - GetAll|s|s=org.a11y.atspi.Text => all of Text";

#[test]
fn calls_ask_for_members_and_properties(rt: HostRuntime) {
    for row in CALLS.lines() {
        stop_unless(&rt, row, asks(&rt, rt.alloc(), row));
    }
}
