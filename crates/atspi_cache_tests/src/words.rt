//! Items and news in words. A function answers none where words are out of their form, and for want of memory.

use atspi_base::valid_names::Path;
use atspi_base::{Text, Texts};
use atspi_tree_model::{Item, Items, News, Reference};
use std::alloc::Global;
use std::test::*;

/// A text of fewer than 1,000 bytes.
pub(crate) fn text_of(alloc: Global, text: &str) -> Option<Text> {
    if text.len() >= 1000 {
        return None;
    }
    Text::read(alloc, text.as_bytes()).ok()
}

/// A path.
pub(crate) fn path_of(alloc: Global, path: &str) -> Option<Path> {
    Path::read(alloc, path.as_bytes()).ok()
}

/// A number of a word; 0 where there is none.
fn number(word: Option<&str>) -> i32 {
    match word {
        Some(word) => word.parse::<i32>().unwrap_or(0),
        None => 0,
    }
}

/// An object, of another application where a `!` stands before its path.
fn reference(alloc: Global, word: &str) -> Option<Reference> {
    let (bus, path) = match word.strip_prefix('!') {
        Some(path) => (":1.8", path),
        None => (":1.7", word),
    };
    let bus = text_of(alloc, bus)?;
    let path = path_of(alloc, path)?;
    Some(Reference { bus, path })
}

/// What spells an item: the paths of the object and of its parent, its index there, its role, its states and its name.
#[derive(Clone, Copy)]
struct ItemWords<'a> {
    object: &'a str,
    parent: &'a str,
    index: i32,
    role: u32,
    states: u64,
    name: &'a str,
}

/// The words of `OBJECT PARENT INDEX`, behind which a role, states and a name may stand, with a `!` before a path of
/// another application.
fn item_words(words: &str) -> Option<ItemWords<'_>> {
    let mut words = words.split_whitespace();
    let object = words.next()?;
    let parent = words.next()?;
    Some(ItemWords {
        object,
        parent,
        index: number(words.next()),
        role: words.next().unwrap_or("7").parse::<u32>().unwrap_or(7),
        states: words.next().unwrap_or("0").parse::<u64>().unwrap_or(0),
        name: words.next().unwrap_or(""),
    })
}

/// An item's object, its application and its parent.
fn references(
    alloc: Global,
    object: &str,
    parent: &str,
) -> Option<(Reference, Reference, Reference)> {
    let object = reference(alloc, object)?;
    let parent = reference(alloc, parent)?;
    let application = reference(alloc, "/r")?;
    Some((object, application, parent))
}

/// No interfaces, a name and an empty description.
fn texts(alloc: Global, name: &str) -> Option<(Texts, Text, Text)> {
    let name = text_of(alloc, name)?;
    let description = text_of(alloc, "")?;
    Some((Texts::new(alloc), name, description))
}

/// The item of these words.
fn item_of(alloc: Global, words: &ItemWords<'_>) -> Option<Item> {
    let (interfaces, name, description) = texts(alloc, words.name)?;
    let (object, application, parent) = references(alloc, words.object, words.parent)?;
    Some(Item {
        object,
        application,
        parent,
        index: words.index,
        children: 0,
        interfaces,
        name,
        role: words.role,
        description,
        states: words.states,
    })
}

/// Appends the item of words.
pub(crate) fn put_item(alloc: Global, items: &mut Items, words: &str) -> Option<()> {
    let item = item_of(alloc, &item_words(words)?)?;
    items.push(item).ok()
}

/// The items of a list, with `,` between any two.
pub(crate) fn items_of(alloc: Global, text: &str) -> Option<Items> {
    let mut items = Items::new(alloc);
    for words in text.split(',') {
        put_item(alloc, &mut items, words)?;
    }
    Some(items)
}

/// Whether these are one item, of an application.
fn is_application(items: &[Item]) -> bool {
    match items {
        [item] => item.role == 75,
        _ => false,
    }
}

#[test]
fn items_are_kept(rt: HostRuntime) {
    let items = items_of(rt.alloc(), "/r /r 0 75 0 Demo").expect(&rt, "memory");
    assert!(rt; items.len() == 1 && is_application(items.as_slice()));
    assert!(rt; Items::from_vec(items.into_vec()).len() == 1);
}

/// The news of `PARENT INDEX CHILD`.
fn child_removed(alloc: Global, words: &str) -> Option<News> {
    let (above, rest) = words.split_once(' ')?;
    let (index, below) = rest.split_once(' ')?;
    let parent = path_of(alloc, above)?;
    let child = path_of(alloc, below)?;
    Some(News::ChildRemoved {
        parent,
        index: number(Some(index)),
        child,
    })
}

/// The news of a path and a text.
fn text_news(alloc: Global, kind: &str, path: &str, text: &str) -> Option<News> {
    let path = path_of(alloc, path)?;
    let text = text_of(alloc, text)?;
    Some(match kind {
        "name" => News::Name(path, text),
        "description" => News::Description(path, text),
        "inserted" => News::Inserted { path, at: -5, text },
        "deleted" => News::Deleted {
            path,
            at: 9,
            len: 9,
            text,
        },
        _ => News::TextIs(path, text),
    })
}

/// The news of a path and a state.
fn plain_news(alloc: Global, kind: &str, path: &str, state: u8) -> Option<News> {
    let path = path_of(alloc, path)?;
    Some(match kind {
        "removed" => News::Removed(path),
        "child-added" => News::ChildAdded(path),
        "role" => News::Role(path, 2),
        "on" => News::State(path, state, true),
        "off" => News::State(path, state, false),
        "caret" => News::Caret(path, 3),
        "caret-is" => News::CaretIs(path, 3),
        "columns-is" => News::ColumnsIs(path, 3),
        _ => News::Nothing,
    })
}

/// The news of words: `item` and what spells it, `child-removed PARENT INDEX CHILD`, `on PATH STATE` or `off`, a kind
/// with a path and a text, as `name PATH TEXT`, or with a path alone, as `removed PATH`.
pub(crate) fn news_of(alloc: Global, words: &str) -> Option<News> {
    let (kind, rest) = words.trim().split_once(' ')?;
    let (path, text) = rest.split_once(' ').unwrap_or((rest, ""));
    match kind {
        "item" => Some(News::Item(item_of(alloc, &item_words(rest)?)?)),
        "child-removed" => child_removed(alloc, rest),
        "name" | "description" | "inserted" | "deleted" | "text-is" => {
            text_news(alloc, kind, path, text)
        }
        _ => plain_news(alloc, kind, path, text.parse::<u8>().unwrap_or(0)),
    }
}
