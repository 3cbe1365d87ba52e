//! The news in a message.

ghost use Rattle.std.specs.Prelude.{◌≡◌, ◌∷◌, [], chars, IfOk, IsTrue};
ghost use Rattle.atspi_base.specs.valid_names.Names.{is_path};
ghost use Rattle.atspi_marshal_in_place.specs.Items.{item_data, fields_data};
ghost use Rattle.atspi_message_in_place.specs.Names.{fits};
ghost use Rattle.atspi_message_in_place.specs.View.{envelope_at, bytes_of};
ghost use Rattle.atspi_tree_model.specs.declared.news.News.TheVariants.{Removed};
ghost use Rattle.atspi_protocol.specs.news.Arguments.{event_in, reference_in};
ghost use Rattle.atspi_protocol.specs.news.Events.{own_child};
ghost use Rattle.atspi_protocol.specs.news.CacheSignals as cache;
ghost use Rattle.atspi_protocol.specs.news.CacheSignals.{added, item_in};
ghost use Rattle.atspi_protocol.specs.news.NewsOf as definitions;
ghost use Rattle.atspi_protocol.specs.news.NewsOf.{or_empty, if_event};

use crate::argument::{only, owned_path};
use crate::event::{child, event, event_news};
use crate::item::item;
use crate::words::is_named;
use atspi_base::NoMemory;
use atspi_marshal_in_place::{Fields, Item};
use atspi_message_in_place::MessageRef;
use atspi_tree_model::News;
use std::alloc::Global;

/// A node is there.
fn item_added(alloc: Global, value: Item) -> Result<News, NoMemory>
    ensures { IfOk result (λ news. news ≡ added (item_in (item_data value.entry))) }
{
    match item(value) {
        Some(item) => Ok(News::Item(item.owned(alloc)?)),
        None => Ok(News::Nothing),
    }
}

/// A node is gone, which is the application's own.
fn node_removed(alloc: Global, bus: &str, value: Item) -> Result<News, NoMemory>
    ensures { IfOk result (λ news. news ≡ own_child (chars bus.now) (reference_in (item_data value.entry)) Removed) }
{
    match child(bus, value) {
        Some(object) => Ok(News::Removed(owned_path(alloc, object.path)?)),
        None => Ok(News::Nothing),
    }
}

/// What a signal of the cache with one argument says, by the signal's name.
fn argument_news(alloc: Global, bus: &str, member: &[u8], value: Item) -> Result<News, NoMemory>
    ensures { IfOk result (λ news. news ≡ cache.cache_news (chars bus.now) member.now (item_data value.entry ∷ [])) }
{
    if is_named(member, "AddAccessible") {
        return item_added(alloc, value);
    }
    if is_named(member, "RemoveAccessible") {
        return node_removed(alloc, bus, value);
    }
    Ok(News::Nothing)
}

/// What a signal of the cache says.
fn cache_news(alloc: Global, bus: &str, member: &[u8], body: Fields) -> Result<News, NoMemory>
    ensures { IfOk result (λ news. news ≡ cache.cache_news (chars bus.now) member.now (fields_data body.entry)) }
{
    match only(body) {
        Some(value) => argument_news(alloc, bus, member, value),
        None => Ok(News::Nothing),
    }
}

/// What an event says, where its node and its arguments are there.
fn of_event(
    alloc: Global,
    bus: &str,
    path: Option<&str>,
    member: &[u8],
    body: Fields,
) -> Result<News, NoMemory>
    requires { IsTrue (fits is_path path) }
    ensures { IfOk result
        (λ news. news ≡ if_event (chars bus.now) (bytes_of path.entry) member.now (event_in (fields_data body.entry))) }
{
    let Some(path) = path else {
        return Ok(News::Nothing);
    };
    match event(body) {
        Some(e) => event_news(alloc, bus, path, member, &e),
        None => Ok(News::Nothing),
    }
}

/// The bytes of a field, or none.
fn bytes_or_empty<'a>(field: Option<&'a str>) -> &'a [u8]
    ensures { result.now ≡ or_empty (bytes_of field.entry) }
{
    match field {
        Some(field) => field.as_bytes(),
        None => &[],
    }
}

/// The news in a message of the application with this bus name (AT-SPI2, interfaces Event.Object and Cache). Memory
/// alone can be wanting.
pub fn news_of(alloc: Global, bus: &str, m: &MessageRef<'_>) -> Result<News, NoMemory>
    ensures { IfOk result (λ news. news ≡ definitions.news_of (chars bus.now) (envelope_at m.now)) }
{
    if m.kind != 4 {
        return Ok(News::Nothing);
    }
    let interface = bytes_or_empty(m.interface);
    let member = bytes_or_empty(m.member);
    if interface == b"org.a11y.atspi.Event.Object".as_slice() {
        return of_event(alloc, bus, m.path, member, m.body);
    }
    if interface == b"org.a11y.atspi.Cache".as_slice() {
        return cache_news(alloc, bus, member, m.body);
    }
    Ok(News::Nothing)
}
