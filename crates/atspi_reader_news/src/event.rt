//! The arguments of an event, and the news in it.

ghost use Rattle.std.specs.Prelude.{◌≡◌, chars, IfOk, IsTrue};
ghost use Rattle.std.specs.Option.{option_map};
ghost use Rattle.atspi_base.specs.valid_names.Names.{is_path};
ghost use Rattle.atspi_marshal_in_place.specs.Items.{item_data, fields_data};
ghost use Rattle.atspi_tree_model.specs.declared.news.News.TheVariants.{ChildAdded, ChildRemoved, Name, Description};
ghost use Rattle.atspi_tree_model.specs.declared.news.News.TheVariants.{Inserted, Deleted, Caret};
ghost use Rattle.atspi_protocol.specs.news.Arguments.{event_in, reference_in};
ghost use Rattle.atspi_protocol.specs.news.Events as definitions;
ghost use Rattle.atspi_protocol.specs.news.Events.{own_child, with_text};
ghost use Rattle.atspi_reader_news.specs.Seen.{event_seen, reference_seen, own_reference, text_seen, role_seen};
ghost use Rattle.atspi_reader_news.specs.Seen.{state_number};

use crate::argument::{next_i32, next_text, next_variant, owned_path, reference};
use crate::borrowed::ReferenceRef;
use crate::words::{begins_with, is_named, is_same, is_word};
use atspi_base::{NoMemory, Text};
use atspi_marshal_in_place::{Fields, Item};
use atspi_tables::state_of_name;
use atspi_tree_model::News;
use std::alloc::Global;

/// The arguments of an event, where they lie.
#[derive(Clone, Copy)]
pub struct EventRef<'a> {
    pub minor: &'a str,
    pub detail1: i32,
    pub detail2: i32,
    pub value: Item<'a>,
}

/// The arguments of an event, if the body has them.
pub fn event<'a>(body: Fields<'a>) -> Option<EventRef<'a>>
    ensures { option_map event_seen result ≡ event_in (fields_data body.entry) }
{
    let mut rest = body;
    let minor = next_text(&mut rest)?;
    let detail1 = next_i32(&mut rest)?;
    let detail2 = next_i32(&mut rest)?;
    let value = next_variant(&mut rest)?;
    Some(EventRef {
        minor,
        detail1,
        detail2,
        value,
    })
}

/// The child that an event names, which is the application's own.
pub(crate) fn child<'a>(bus: &str, value: Item<'a>) -> Option<ReferenceRef<'a>>
    ensures { option_map reference_seen result ≡ own_reference (chars bus.now) (reference_in (item_data value.entry)) }
{
    let child = reference(value)?;
    if is_same(child.bus, bus) {
        return Some(child);
    }
    None
}

/// A child was put below a node.
fn child_added(alloc: Global, bus: &str, value: Item) -> Result<News, NoMemory>
    ensures { IfOk result (λ news. news ≡ own_child (chars bus.now) (reference_in (item_data value.entry)) ChildAdded) }
{
    match child(bus, value) {
        Some(child) => Ok(News::ChildAdded(owned_path(alloc, child.path)?)),
        None => Ok(News::Nothing),
    }
}

/// A child was taken from the place that it stood at.
fn child_removed(
    alloc: Global,
    bus: &str,
    path: &str,
    index: i32,
    value: Item,
) -> Result<News, NoMemory>
    requires { IsTrue (is_path path.now) }
    ensures { IfOk result
        (λ news. news
        ≡ own_child (chars bus.now) (reference_in (item_data value.entry)) (ChildRemoved path.now index)) }
{
    match child(bus, value) {
        Some(child) => Ok(News::ChildRemoved {
            parent: owned_path(alloc, path)?,
            index,
            child: owned_path(alloc, child.path)?,
        }),
        None => Ok(News::Nothing),
    }
}

/// A child was put below a node, or taken from the place that it stood at.
fn children_news(alloc: Global, bus: &str, path: &str, e: &EventRef) -> Result<News, NoMemory>
    requires { IsTrue (is_path path.now) }
    ensures { IfOk result (λ news. news ≡ definitions.children_changed (chars bus.now) path.now (event_seen e.now)) }
{
    if is_word(e.minor, "add") {
        return child_added(alloc, bus, e.value);
    }
    if is_word(e.minor, "remove") {
        return child_removed(alloc, bus, path, e.detail1, e.value);
    }
    Ok(News::Nothing)
}

/// The text that a value is, owned, if it is one.
pub(crate) fn text_of(alloc: Global, value: Item) -> Result<Option<Text>, NoMemory>
    ensures { IfOk result (λ text. text ≡ text_seen (item_data value.entry)) }
{
    match value.text() {
        Some(text) => Ok(Some(Text::of(alloc, text)?)),
        None => Ok(None),
    }
}

/// The role that a value is: a number, which may be signed but not negative.
fn role_of(value: Item) -> Option<u32>
    ensures { result ≡ role_seen (item_data value.entry) }
{
    if let Some(role) = value.u32() {
        return Some(role);
    }
    let role = value.i32()?;
    if role < 0 {
        return None;
    }
    Some(role as u32)
}

/// A node has another name.
fn name_news(alloc: Global, path: &str, value: Item) -> Result<News, NoMemory>
    requires { IsTrue (is_path path.now) }
    ensures { IfOk result (λ news. news ≡ with_text (item_data value.entry) (Name path.now)) }
{
    match text_of(alloc, value)? {
        Some(text) => Ok(News::Name(owned_path(alloc, path)?, text)),
        None => Ok(News::Nothing),
    }
}

/// A node has another description.
fn description_news(alloc: Global, path: &str, value: Item) -> Result<News, NoMemory>
    requires { IsTrue (is_path path.now) }
    ensures { IfOk result (λ news. news ≡ with_text (item_data value.entry) (Description path.now)) }
{
    match text_of(alloc, value)? {
        Some(text) => Ok(News::Description(owned_path(alloc, path)?, text)),
        None => Ok(News::Nothing),
    }
}

/// A node has another role.
fn role_news(alloc: Global, path: &str, value: Item) -> Result<News, NoMemory>
    requires { IsTrue (is_path path.now) }
    ensures { IfOk result (λ news. news ≡ definitions.role_news (item_data value.entry) path.now) }
{
    match role_of(value) {
        Some(role) => Ok(News::Role(owned_path(alloc, path)?, role)),
        None => Ok(News::Nothing),
    }
}

/// A name, a description or a role is another.
fn property_news(alloc: Global, path: &str, e: &EventRef) -> Result<News, NoMemory>
    requires { IsTrue (is_path path.now) }
    ensures { IfOk result (λ news. news ≡ definitions.property_change path.now (event_seen e.now)) }
{
    if is_word(e.minor, "accessible-name") {
        return name_news(alloc, path, e.value);
    }
    if is_word(e.minor, "accessible-description") {
        return description_news(alloc, path, e.value);
    }
    if is_word(e.minor, "accessible-role") {
        return role_news(alloc, path, e.value);
    }
    Ok(News::Nothing)
}

/// The bit of the state with this name; `default` is another name of `is-default`.
fn state_named(name: &str) -> Option<u8>
    ensures { result ≡ state_number (chars name.now) }
{
    if is_word(name, "default") {
        return Some(39);
    }
    state_of_name(name.as_bytes())
}

/// Whether a state is on, by the first number of its event.
fn is_on(detail: i32) -> bool
    ensures { result ≡ definitions.is_on detail }
{
    detail != 0
}

/// A state is on or off.
fn state_news(alloc: Global, path: &str, e: &EventRef) -> Result<News, NoMemory>
    requires { IsTrue (is_path path.now) }
    ensures { IfOk result (λ news. news ≡ definitions.state_changed path.now (event_seen e.now)) }
{
    match state_named(e.minor) {
        Some(state) => Ok(News::State(owned_path(alloc, path)?, state, is_on(e.detail1))),
        None => Ok(News::Nothing),
    }
}

/// Text was put in at a place.
fn inserted(alloc: Global, path: &str, at: i32, value: Item) -> Result<News, NoMemory>
    requires { IsTrue (is_path path.now) }
    ensures { IfOk result (λ news. news ≡ with_text (item_data value.entry) (Inserted path.now at)) }
{
    match text_of(alloc, value)? {
        Some(text) => Ok(News::Inserted {
            path: owned_path(alloc, path)?,
            at,
            text,
        }),
        None => Ok(News::Nothing),
    }
}

/// So many characters were taken out at a place.
fn deleted(alloc: Global, path: &str, at: i32, len: i32, value: Item) -> Result<News, NoMemory>
    requires { IsTrue (is_path path.now) }
    ensures { IfOk result (λ news. news ≡ with_text (item_data value.entry) (Deleted path.now at len)) }
{
    match text_of(alloc, value)? {
        Some(text) => Ok(News::Deleted {
            path: owned_path(alloc, path)?,
            at,
            len,
            text,
        }),
        None => Ok(News::Nothing),
    }
}

/// Text was put in or taken out, where the minor event begins so.
fn text_news(alloc: Global, path: &str, e: &EventRef) -> Result<News, NoMemory>
    requires { IsTrue (is_path path.now) }
    ensures { IfOk result (λ news. news ≡ definitions.text_changed path.now (event_seen e.now)) }
{
    if begins_with(e.minor, "insert") {
        return inserted(alloc, path, e.detail1, e.value);
    }
    if begins_with(e.minor, "delete") {
        return deleted(alloc, path, e.detail1, e.detail2, e.value);
    }
    Ok(News::Nothing)
}

/// The caret went to a place.
fn caret_news(alloc: Global, path: &str, at: i32) -> Result<News, NoMemory>
    requires { IsTrue (is_path path.now) }
    ensures { IfOk result (λ news. news ≡ Caret path.now at) }
{
    Ok(News::Caret(owned_path(alloc, path)?, at))
}

/// What an event of a node says, by the event's name.
pub(crate) fn event_news(
    alloc: Global,
    bus: &str,
    path: &str,
    member: &[u8],
    e: &EventRef,
) -> Result<News, NoMemory>
    requires { IsTrue (is_path path.now) }
    ensures { IfOk result
        (λ news. news ≡ definitions.event_news (chars bus.now) path.now member.now (event_seen e.now)) }
{
    if is_named(member, "ChildrenChanged") {
        return children_news(alloc, bus, path, e);
    }
    if is_named(member, "PropertyChange") {
        return property_news(alloc, path, e);
    }
    if is_named(member, "StateChanged") {
        return state_news(alloc, path, e);
    }
    if is_named(member, "TextChanged") {
        return text_news(alloc, path, e);
    }
    if is_named(member, "TextCaretMoved") {
        return caret_news(alloc, path, e.detail1);
    }
    Ok(News::Nothing)
}
