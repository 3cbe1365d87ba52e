//! News as texts that tables can have.

use crate::made::put;
use atspi_base::{Bytes, Texts, put_decimal, put_signed};
use atspi_tree_model::{Item, News, Reference};
use std::process::Abort;

/// Appends a blank and a number.
fn put_number(rt: &impl Abort, out: &mut Bytes, n: i64) {
    put(rt, out, b" ");
    put_signed(n, out).expect(rt, "memory");
}

/// Appends a blank and a text between `<` and `>`.
fn put_text(rt: &impl Abort, out: &mut Bytes, text: &str) {
    put(rt, out, b" <");
    put(rt, out, text.as_bytes());
    put(rt, out, b">");
}

/// Appends a word, a blank and a path.
fn put_at(rt: &impl Abort, out: &mut Bytes, word: &str, path: &str) {
    put(rt, out, word.as_bytes());
    put(rt, out, b" ");
    put(rt, out, path.as_bytes());
}

/// Appends a word, a path, and a number.
fn put_one(rt: &impl Abort, out: &mut Bytes, word: &str, path: &str, n: i64) {
    put_at(rt, out, word, path);
    put_number(rt, out, n);
}

/// Appends a word, a path, and a text.
fn put_told(rt: &impl Abort, out: &mut Bytes, word: &str, path: &str, text: &str) {
    put_at(rt, out, word, path);
    put_text(rt, out, text);
}

/// Appends a reference, its bus name and its path, and a blank.
fn put_reference(rt: &impl Abort, out: &mut Bytes, of: &Reference) {
    put(rt, out, of.bus.as_str().as_bytes());
    put(rt, out, of.path.as_str().as_bytes());
    put(rt, out, b" ");
}

/// Appends a blank and the names of interfaces, one behind the other.
fn put_names(rt: &impl Abort, out: &mut Bytes, texts: &Texts) {
    put(rt, out, b" ");
    for text in texts.as_slice() {
        put(rt, out, b"+");
        put(rt, out, text.as_str().as_bytes());
    }
}

/// Appends an item, field by field.
pub fn put_item(rt: &impl Abort, out: &mut Bytes, of: &Item) {
    put_reference(rt, out, &of.object);
    put_reference(rt, out, &of.application);
    put_reference(rt, out, &of.parent);
    put_signed(i64::from(of.index), out).expect(rt, "memory");
    put_number(rt, out, i64::from(of.children));
    put_names(rt, out, &of.interfaces);
    put_text(rt, out, of.name.as_str());
    put_number(rt, out, i64::from(of.role));
    put_text(rt, out, of.description.as_str());
    put(rt, out, b" ");
    put_decimal(of.states, out).expect(rt, "memory");
}

/// Appends news of text and caret.
fn put_text_news(rt: &impl Abort, out: &mut Bytes, news: &News) {
    match news {
        News::Inserted { path, at, text } => {
            put_one(rt, out, "Inserted", path.as_str(), i64::from(*at));
            put_text(rt, out, text.as_str());
        }
        News::Deleted {
            path,
            at,
            len,
            text,
        } => {
            put_one(rt, out, "Deleted", path.as_str(), i64::from(*at));
            put_number(rt, out, i64::from(*len));
            put_text(rt, out, text.as_str());
        }
        News::Caret(path, at) => put_one(rt, out, "Caret", path.as_str(), i64::from(*at)),
        News::TextIs(path, text) => put_told(rt, out, "TextIs", path.as_str(), text.as_str()),
        News::CaretIs(path, at) => put_one(rt, out, "CaretIs", path.as_str(), i64::from(*at)),
        News::ColumnsIs(path, n) => put_one(rt, out, "ColumnsIs", path.as_str(), i64::from(*n)),
        _ => put(rt, out, b"Nothing"),
    }
}

/// Appends the news as a text.
fn put_lent(rt: &impl Abort, out: &mut Bytes, news: &News) {
    match news {
        News::Item(of) => {
            put(rt, out, b"Item ");
            put_item(rt, out, of);
        }
        News::Removed(path) => put_at(rt, out, "Removed", path.as_str()),
        News::ChildAdded(path) => put_at(rt, out, "ChildAdded", path.as_str()),
        News::ChildRemoved {
            parent,
            index,
            child,
        } => {
            put_one(rt, out, "ChildRemoved", parent.as_str(), i64::from(*index));
            put_at(rt, out, "", child.as_str());
        }
        News::Name(path, text) => put_told(rt, out, "Name", path.as_str(), text.as_str()),
        News::Description(path, text) => {
            put_told(rt, out, "Description", path.as_str(), text.as_str())
        }
        News::Role(path, role) => put_one(rt, out, "Role", path.as_str(), i64::from(*role)),
        News::State(path, state, on) => {
            put_one(rt, out, "State", path.as_str(), i64::from(*state));
            put(rt, out, if *on { b" true" } else { b" false" });
        }
        other => put_text_news(rt, out, other),
    }
}

/// Appends what is told. It is let go.
pub fn put_news(rt: &impl Abort, out: &mut Bytes, told: News) {
    put_lent(rt, out, &told);
}

/// Appends what is told, or `none`.
pub fn put_what(rt: &impl Abort, out: &mut Bytes, told: Option<News>) {
    match told {
        Some(news) => put_news(rt, out, news),
        None => put(rt, out, b"none"),
    }
}
