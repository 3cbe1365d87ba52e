//! The items of a tree, and the news in the signals of an application's cache.

ghost use Rattle.std.specs.Prelude.{◌≡◌, chars, map, IfOk};
ghost use Rattle.std.specs.Option.{option_map};
ghost use Rattle.atspi_marshal_in_place.specs.Items.{item_data, fields_data, elements_data};
ghost use Rattle.atspi_protocol.specs.news.Arguments.{text_in, number_in};
ghost use Rattle.atspi_protocol.specs.news.CacheSignals.{item_of, item_in, states_in, cache_news};
ghost use Rattle.atspi_reader_news.specs.inner.Items.{item_seen, word_seen, FrontComes};
ghost use Rattle.atspi_reader_news.specs.Seen.{reference_seen};

use crate::argument::{
    next_i32, next_numbers, next_reference, next_text, next_texts, next_u32, owned_path,
};
use crate::borrowed::{ItemFront, ItemRef};
use atspi_base::{NoMemory, Text, Texts};
use atspi_marshal_in_place::{Elements, Fields, Item};
use atspi_tree_model::{News, Reference};
use std::alloc::Global;

/// The first five fields of an item, if they are that.
fn item_front<'a>(fields: &mut Fields<'a>) -> Option<ItemFront<'a>>
    ensures { FrontComes result (fields_data fields.old) (fields_data fields.new) }
{
    let object = next_reference(fields)?;
    let application = next_reference(fields)?;
    let parent = next_reference(fields)?;
    let index = next_i32(fields)?;
    let children = next_i32(fields)?;
    Some(ItemFront {
        object,
        application,
        parent,
        index,
        children,
    })
}

/// The ten fields of an item, if they are that.
fn item_fields<'a>(fields: Fields<'a>) -> Option<ItemRef<'a>>
    ensures { option_map item_seen result ≡ item_of (fields_data fields.entry) }
{
    let mut rest = fields;
    let front = item_front(&mut rest)?;
    let interfaces = next_texts(&mut rest)?;
    let name = next_text(&mut rest)?;
    let role = next_u32(&mut rest)?;
    let description = next_text(&mut rest)?;
    let states = next_numbers(&mut rest)?;
    match rest.next() {
        None => Some(ItemRef {
            front,
            interfaces,
            name,
            role,
            description,
            states,
        }),
        Some(_more) => None,
    }
}

/// The texts in a list of them, owned.
fn owned_texts(alloc: Global, elements: Elements) -> Result<Texts, NoMemory>
    ensures { IfOk result (λ texts. texts ≡ map text_in (elements_data elements.entry)) }
{
    let mut texts = Texts::new(alloc);
    let mut rest = elements;
    while let Some(element) = rest.next() {
        texts.push(text_or_empty(alloc, element)?)?;
    }
    Ok(texts)
}

/// The text that a value is, or an empty one.
fn text_or_empty(alloc: Global, value: Item) -> Result<Text, NoMemory>
    ensures { IfOk result (λ text. text ≡ text_in (item_data value.entry)) }
{
    match value.text() {
        Some(text) => Text::of(alloc, text),
        None => Text::of(alloc, ""),
    }
}

/// The states in words of 32, the low one first.
fn states(words: Elements) -> u64
    ensures { result ≡ states_in (map number_in (elements_data words.entry)) }
{
    let mut rest = words;
    let low = word(rest.next());
    let high = word(rest.next());
    u64::from(low) + u64::from(high) * 0x1_0000_0000
}

/// A word, or 0 where there is none.
fn word(value: Option<Item>) -> u32
    ensures { result ≡ word_seen (option_map item_data value.entry) }
{
    let Some(value) = value else {
        return 0;
    };
    match value.u32() {
        Some(number) => number,
        None => 0,
    }
}

impl<'a> ItemFront<'a> {
    /// The references of an item, owned: to itself, to its application and to its parent.
    fn owned(self, alloc: Global) -> Result<(Reference, Reference, Reference), NoMemory>
        ensures { IfOk result
            (λ owned. (owned.0 ≡ reference_seen self.entry.object) × (owned.1 ≡ reference_seen self.entry.application)
            × (owned.2 ≡ reference_seen self.entry.parent)) }
    {
        let object = self.object.owned(alloc)?;
        let application = self.application.owned(alloc)?;
        let parent = self.parent.owned(alloc)?;
        Ok((object, application, parent))
    }
}

impl<'a> ItemRef<'a> {
    /// Its interfaces, its name and its description, owned.
    fn owned_words(self, alloc: Global) -> Result<(Texts, Text, Text), NoMemory>
        ensures { IfOk result
            (λ words. (words.0 ≡ map text_in (elements_data self.entry.interfaces))
            × (words.1 ≡ chars self.entry.name.now) × (words.2 ≡ chars self.entry.description.now)) }
    {
        let interfaces = owned_texts(alloc, self.interfaces)?;
        let name = Text::of(alloc, self.name)?;
        let description = Text::of(alloc, self.description)?;
        Ok((interfaces, name, description))
    }

    /// The item, owned.
    pub(crate) fn owned(self, alloc: Global) -> Result<atspi_tree_model::Item, NoMemory>
        ensures { IfOk result (λ item. item ≡ item_seen self.entry) }
    {
        let (interfaces, name, description) = self.owned_words(alloc)?;
        let (object, application, parent) = self.front.owned(alloc)?;
        Ok(atspi_tree_model::Item {
            object,
            application,
            parent,
            index: self.front.index,
            children: self.front.children,
            interfaces,
            name,
            role: self.role,
            description,
            states: states(self.states),
        })
    }
}

/// The item that a value is, if it is one.
pub(crate) fn item<'a>(value: Item<'a>) -> Option<ItemRef<'a>>
    ensures { option_map item_seen result ≡ item_in (item_data value.entry) }
{
    item_fields(value.fields()?)
}
