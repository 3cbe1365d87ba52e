//! What loads and news make of a cache that holds the application, and what it speaks.

use crate::tables::{CHANGES, LOADS, NO_CHANGES, SPOKEN};
use crate::words::{items_of, news_of, path_of};
use atspi_base::valid_names::{BusName, Path};
use atspi_base::{Text, Texts};
use atspi_cache::{Cache, Seen, closing, lines};
use atspi_tree_model::Items;
use std::alloc::Global;
use std::process::Abort;
use std::test::*;

/// Loads items of the application with a root.
pub(crate) fn load(alloc: Global, cache: &mut Cache, root: &str, items: Items) -> Option<()> {
    let name = BusName::read(alloc, b":1.7").ok()?;
    let root = path_of(alloc, root)?;
    cache.load(7, &name, &root, items).ok()
}

/// The same for a list of items in words, with the root `/r`.
pub(crate) fn load_text(alloc: Global, cache: &mut Cache, text: &str) -> Option<()> {
    load(alloc, cache, "/r", items_of(alloc, text)?)
}

/// Takes a news in words, and answers whether it asks for a reload. None where the application is not held, too.
pub(crate) fn tell(alloc: Global, cache: &mut Cache, words: &str) -> Option<bool> {
    if !cache.is_held(7) {
        return None;
    }
    cache.fold(7, news_of(alloc, words)?).ok()
}

/// Appends a row as a walk shows it.
fn put_seen(alloc: Global, text: &mut String, seen: Seen) -> Option<()> {
    text.push_str(seen.row.path.as_str()).ok()?;
    if let Some(parent) = seen.parent {
        text.push('<').ok()?;
        text.push_str(parent.as_str()).ok()?;
    }
    let place = format!(in alloc; "@{}", seen.index).ok()?;
    text.push_str(place.as_str()).ok()
}

/// The rows of the application in preorder, each with a blank before it: `PATH`, for all but the root `<PARENT`, and
/// `@INDEX`.
pub(crate) fn shown(alloc: Global, cache: &Cache) -> Option<String> {
    let mut text = String::new(alloc);
    for seen in cache.rows(7)? {
        text.push(' ').ok()?;
        put_seen(alloc, &mut text, seen)?;
    }
    Some(text)
}

/// Whether these are the rows of the application.
fn shows(alloc: Global, cache: &Cache, due: &str) -> Option<bool> {
    let rows = shown(alloc, cache)?;
    Some(rows.as_str() == due)
}

/// Takes news, with `,` between any two, where the root `/r` has the children `/a`, `/b` and `/c`.
fn tell_all(alloc: Global, cache: &mut Cache, words: &str) -> Option<()> {
    load_text(alloc, cache, "/r /r 0, /a /r 0, /b /r 1, /c /r 2")?;
    for news in words.split(',') {
        tell(alloc, cache, news)?;
    }
    Some(())
}

/// Appends what is spoken at a news in words, before it is taken.
fn put_spoken(alloc: Global, cache: &Cache, words: &str, out: &mut Texts) -> Option<()> {
    if !cache.is_held(7) {
        return None;
    }
    let news = news_of(alloc, words)?;
    let put = lines(cache, 7, &news, out);
    drop(news);
    put.ok()
}

/// Whether these lines are the one that is due, or none.
fn are(lines: &[Text], due: &str) -> bool {
    match lines {
        [] => due.is_empty(),
        [line] => due.strip_prefix(' ') == Some(line.as_str()),
        _ => false,
    }
}

/// Whether this is spoken at a news, which the cache then takes.
fn speaks(alloc: Global, cache: &mut Cache, words: &str, due: &str) -> Option<bool> {
    let mut out = Texts::new(alloc);
    put_spoken(alloc, cache, words, &mut out)?;
    tell(alloc, cache, words)?;
    Some(are(out.as_slice(), due))
}

/// Whether this is spoken at the end of the application.
fn closes(cache: &Cache, due: &str) -> Option<bool> {
    if !cache.is_held(7) {
        return None;
    }
    let line = closing(cache, 7).ok()?;
    Some(due.strip_prefix(' ') == Some(line.as_str()))
}

/// Whether a cache answers as a row says, behind its ` =`: `load ITEMS` and the rows then; `after NEWS` and the rows
/// then; `tell NEWS`, and whether it asks for a reload; `say NEWS`, and the line that is spoken; or `closing`, and the
/// line at the end of the application.
fn holds(alloc: Global, cache: &mut Cache, row: &str) -> Option<bool> {
    let (asked, due) = row.split_once(" =")?;
    let (kind, words) = asked.split_once(' ').unwrap_or((asked, ""));
    match kind {
        "load" => {
            load_text(alloc, cache, words)?;
            shows(alloc, cache, due)
        }
        "after" => {
            tell_all(alloc, cache, words)?;
            shows(alloc, cache, due)
        }
        "tell" => Some(tell(alloc, cache, words)? == (due == " reload")),
        "say" => speaks(alloc, cache, words, due),
        _ => closes(cache, due),
    }
}

/// A cache answers as each row says, one behind another.
fn try_rows(rt: &impl Abort, alloc: Global, rows: &str) {
    let mut cache = Cache::new(alloc);
    for row in rows.lines() {
        assert!(rt; holds(alloc, &mut cache, row) == Some(true), "{row}");
    }
}

#[test]
fn loads_and_news_make_rows_and_lines(rt: HostRuntime) {
    try_rows(&rt, rt.alloc(), LOADS);
    try_rows(&rt, rt.alloc(), CHANGES);
    try_rows(&rt, rt.alloc(), NO_CHANGES);
    try_rows(&rt, rt.alloc(), SPOKEN);
}

/// Whether an application is held with the row of a path, or not at all.
fn is_held(cache: &Cache, app: u32, at: &Path) -> bool {
    cache.is_held(app)
        && cache.find(app, at).is_some()
        && cache.rows(app).is_some()
        && cache.bus(app).is_some()
        && cache.root(app).is_some()
}

/// Whether nothing is held of an application.
fn is_unknown(cache: &Cache, app: u32, at: &Path) -> bool {
    !cache.is_held(app)
        && cache.find(app, at).is_none()
        && cache.rows(app).is_none()
        && cache.bus(app).is_none()
        && cache.root(app).is_none()
}

/// Whether the application is held with its bus name and its root.
fn is_named(cache: &Cache) -> Option<bool> {
    Some(cache.bus(7)?.as_str() == ":1.7" && cache.root(7)?.as_str() == "/r")
}

#[test]
fn an_application_is_held_from_its_load_until_it_is_dropped(rt: HostRuntime) {
    let at = path_of(rt.alloc(), "/a").expect(&rt, "a path");
    let mut cache = Cache::new(rt.alloc());
    assert!(rt; load_text(rt.alloc(), &mut cache, "/r /r 0, /a /r 0").is_some());
    assert!(rt; is_held(&cache, 7, &at) && is_unknown(&cache, 8, &at));
    assert!(rt; is_named(&cache) == Some(true));
    cache.drop_app(8);
    assert!(rt; is_held(&cache, 7, &at));
    cache.drop_app(7);
    assert!(rt; is_unknown(&cache, 7, &at));
}
