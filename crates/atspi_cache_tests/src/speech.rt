//! What is spoken at each kind of news, of a node `/a` below the root `/r`, and at an application's end.

use crate::cached::load_text;
use crate::words::{news_of, text_of};
use atspi_base::{Text, Texts};
use atspi_cache::Cache;
use atspi_speech::{closing_line, lines};
use atspi_tree_model::Row;
use std::alloc::Global;
use std::test::*;

/// One line that stood there.
fn front(alloc: Global) -> Option<Texts> {
    let line = text_of(alloc, "front")?;
    let mut lines = Texts::new(alloc);
    lines.push(line).ok()?;
    Some(lines)
}

/// Loads a cache with `/a` as it is known.
fn load_known(alloc: Global, cache: &mut Cache, known: &str) -> Option<()> {
    let items = format!(in alloc; "/r /r 0, /a /r 0 {known}").ok()?;
    load_text(alloc, cache, items.as_str())
}

/// The row of `/a`, behind that of the root; none where `/a` is not known (`unknown`), or neither it nor an item's
/// parent (`nobody`).
fn row_of<'a>(cache: &'a Cache, known: &str) -> Option<&'a Row> {
    if known == "unknown" || known == "nobody" {
        return None;
    }
    let mut rows = cache.rows(7)?;
    rows.next()?;
    Some(rows.next()?.row)
}

/// Appends the lines of a news.
fn put_lines(
    alloc: Global,
    cache: &Cache,
    known: &str,
    words: &str,
    out: &mut Texts,
) -> Option<()> {
    let root = cache.root(7)?;
    let bus = cache.bus(7)?;
    let row = row_of(cache, known);
    let news = news_of(alloc, words)?;
    let put = lines(alloc, root, bus, row, known != "nobody", &news, out);
    drop(news);
    put.ok()
}

/// The same of news with `, ` between any two.
fn put_all(alloc: Global, cache: &Cache, known: &str, list: &str, out: &mut Texts) -> Option<()> {
    for words in list.split(',') {
        put_lines(alloc, cache, known, words, out)?;
    }
    Some(())
}

/// Whether behind the first line stands the one that is due, or none where a dash is due.
fn are(lines: &[Text], due: &str) -> bool {
    match lines {
        [_] => due == "-",
        [_, line] => line.as_str() == due,
        _ => false,
    }
}

/// Whether just that is spoken which a row says: what is known, the news, and behind ` => ` the line.
fn holds(alloc: Global, cache: &mut Cache, row: &str) -> Option<bool> {
    let (asked, due) = row.split_once(" => ")?;
    let (known, list) = asked.split_once(": ")?;
    load_known(alloc, cache, known)?;
    let mut out = front(alloc)?;
    put_all(alloc, cache, known, list, &mut out)?;
    Some(are(out.as_slice(), due))
}

/// What is known of `/a`, its role, its states and its name, news of it, and the line that is due, or a dash for none.
/// The focus comes and goes: the states are checkable (bit 41), and that with checked, collapsible, pressed and
/// selected; then states of a node that has the focus, and of one that has not; names and texts of a node that has the
/// focus, of a password, and of other nodes; new alerts and notifications of a parent that is known; then another role,
/// other applications, and the root; and other news of a node that has the focus.
const NEWS: &str = "\
33 0 File: on /a 12 => File, menu
8 2199023255552 Wrap: on /a 12 => Wrap, check menu item, not checked
8 2199032693264: on /a 12 => check menu item, checked, collapsed, selected, pressed
nobody: on /a 12 => -
33 0 File: off /a 12 => -
8 4096 Wrap: on /a 4 => checked
8 4096 Wrap: off /a 4 => not checked
8 4096 Wrap: on /a 10 => expanded
8 4096 Wrap: off /a 10 => collapsed
8 4096 Wrap: on /a 20 => pressed
8 4096 Wrap: off /a 20 => not pressed
8 4096 Wrap: on /a 23 => selected
8 4096 Wrap: off /a 23 => not selected
8 4096 Wrap: on /a 0 => -
8 4096 Wrap: on /a 9 => -
8 4096 Wrap: on /a 41 => -
8 4096 Wrap: on /a 43 => -
8 4096 Wrap: on /a 63 => -
8 4096 Wrap: on /a 64 => -
8 4096 Wrap: on /a 255 => -
8 0 Wrap: on /a 0, on /a 1, on /a 2, on /a 3, on /a 4, on /a 5, on /a 6, on /a 7, on /a 8, on /a 9, on /a 10, on /a 11, on /a 13, on /a 14, on /a 15, on /a 16, on /a 17, on /a 18, on /a 19, on /a 20, on /a 21, on /a 22, on /a 23, on /a 24, on /a 25, on /a 26, on /a 27, on /a 28, on /a 29, on /a 30, on /a 31, on /a 32, on /a 33, on /a 34, on /a 35, on /a 36, on /a 37, on /a 38, on /a 39, on /a 40, on /a 41, on /a 42, on /a 43, on /a 44, on /a 45, on /a 46, on /a 47, on /a 48, on /a 49, on /a 50, on /a 51, on /a 52, on /a 53, on /a 54, on /a 55, on /a 56, on /a 57, on /a 58, on /a 59, on /a 60, on /a 61, on /a 62, on /a 63 => -
79 4096 Find: name /a New => New
79 4096 Find: name /a => -
79 4096 Find: inserted /a né => typed: né
40 4096 Password: inserted /a né => typed: 2 characters
79 4096 Find: deleted /a é => deleted: é
40 4096 Password: deleted /a é => deleted: 1 characters
79 0 Find: name /a New => -
unknown: name /a New => -
79 0 Find: inserted /a né => -
unknown: inserted /a né => -
79 0 Find: deleted /a é => -
unknown: deleted /a é => -
unknown: item /b /a 0 2 4096 Saved => alert: Saved
nobody: item /b /a 0 2 4096 Saved => -
2 4096 Saved: item /b /a 0 2 4096 Saved => -
unknown: item /b /a 0 101 4096 Saved => alert: Saved
unknown: item /b /a 0 3 4096 Saved => -
unknown: item !/b /a 0 2 4096 Saved => -
unknown: item /b !/a 0 2 4096 Saved => -
unknown: item /r /a 0 2 4096 Saved => -
2 4096 Find: removed /a => -
2 4096 Find: child-added /a => -
2 4096 Find: description /a x => -
2 4096 Find: role /a => -
2 4096 Find: caret /a => -
2 4096 Find: nothing /a => -";

#[test]
fn news_are_spoken(rt: HostRuntime) {
    let mut cache = Cache::new(rt.alloc());
    for row in NEWS.lines() {
        assert!(rt; holds(rt.alloc(), &mut cache, row) == Some(true), "{row}");
    }
}

/// Whether this is spoken at the end of an application with that name, or none.
fn closes(alloc: Global, name: Option<&Text>, due: &str) -> Option<bool> {
    let line = closing_line(alloc, name).ok()?;
    Some(line.as_str() == due)
}

#[test]
fn an_end_is_spoken(rt: HostRuntime) {
    let name = text_of(rt.alloc(), "Demo").expect(&rt, "a name");
    assert!(rt; closes(rt.alloc(), Some(&name), "Demo, closed") == Some(true));
    assert!(rt; closes(rt.alloc(), None, ", closed") == Some(true));
}
