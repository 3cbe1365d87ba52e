//! Rows that a reader shows. What is due was worked out by hand.

use crate::traces::made::{number, path, tells, text};
use atspi_base::valid_names::Path;
use atspi_trace_events::{Event, Shown, ShownRow};
use atspi_tree_model::{NumPart, Part, Row};
use std::alloc::Global;
use std::test::*;

/// A number that is known, that is not (`?`), or that is not there (`-`).
fn num_part(word: &str) -> NumPart {
    match word {
        "?" => NumPart::Unknown,
        "-" => NumPart::Absent,
        _ => NumPart::Known(number(word)),
    }
}

/// The same of a text, which stands behind `=`.
fn text_part(alloc: Global, word: &str) -> Option<Part> {
    match word {
        "?" => Some(Part::Unknown),
        "-" => Some(Part::Absent),
        _ => Some(Part::Known(text(alloc, word.strip_prefix('=')?)?)),
    }
}

/// The words of a row without a description, `PATH,ROLE,STATES,FACES,NAME,CARET,COLUMNS,TEXT`: the states and the faces
/// as numbers.
#[derive(Clone, Copy)]
struct RowWords<'a> {
    path: &'a str,
    role: u32,
    states: u64,
    faces: u8,
    name: &'a str,
    caret: NumPart,
    columns: NumPart,
    text: &'a str,
}

/// The words of a row that is spelled.
fn row_words(spelled: &str) -> RowWords<'_> {
    let mut words = spelled.split(',');
    RowWords {
        path: words.next().unwrap_or(""),
        role: number(words.next().unwrap_or("")),
        states: words.next().unwrap_or("").parse::<u64>().unwrap_or(0),
        faces: words.next().unwrap_or("").parse::<u8>().unwrap_or(0),
        name: words.next().unwrap_or(""),
        caret: num_part(words.next().unwrap_or("")),
        columns: num_part(words.next().unwrap_or("")),
        text: words.next().unwrap_or(""),
    }
}

/// The row of these words.
fn row_of(alloc: Global, words: RowWords<'_>) -> Option<Row> {
    Some(Row {
        path: path(alloc, words.path)?,
        name: text(alloc, words.name)?,
        description: text(alloc, "")?,
        role: words.role,
        states: words.states,
        faces: words.faces,
        text: text_part(alloc, words.text)?,
        caret: words.caret,
        columns: words.columns,
    })
}

/// The path of a parent; `-` for none.
fn parent_of(alloc: Global, word: &str) -> Option<Option<Path>> {
    match word {
        "-" => Some(None),
        _ => Some(Some(path(alloc, word)?)),
    }
}

/// A row that is shown: its parent's path, and behind it its index and the row, with a blank between.
fn shown_row(alloc: Global, parent: &str, rest: &str) -> Option<ShownRow> {
    let (index, row) = rest.split_once(' ')?;
    Some(ShownRow {
        parent: parent_of(alloc, parent)?,
        index: index.parse::<i32>().unwrap_or(0),
        row: row_of(alloc, row_words(row))?,
    })
}

/// The rows that are spelled, with `;` between two, or none: each its parent's path, its index and the row, with a
/// blank between two.
fn shown(alloc: Global, spelled: &str) -> Option<Shown> {
    let mut rows = Vec::new(alloc);
    for row in spelled.split(';') {
        if let Some((parent, rest)) = row.split_once(' ') {
            rows.push(shown_row(alloc, parent, rest)?).ok()?;
        }
    }
    Some(Shown::from_vec(rows))
}

/// Whether a reader that shows these rows of an application is told so.
fn shows(alloc: Global, reader: u32, app: u32, spelled: &str, due: &str) -> Option<bool> {
    let rows = Some(shown(alloc, spelled)?);
    Some(tells(alloc, Event::Show { reader, app, rows }, due))
}

/// The root, and a node below it.
const ORDERED: &str =
    "- -1 /org/a11y/atspi/accessible/root,75,1124073728,0,Demo,-,-,-;/org/a11y/atspi/accessible/root 0 /org/a11y/atspi/accessible/1,43,1124073728,0,Save,-,-,-";

/// A row of which all parts are known.
const KNOWN: &str =
    "/org/a11y/atspi/accessible/20 2147483647 /org/a11y/atspi/accessible/4294967295,117,0,31,x,0,1024,=a \"b\"";

/// A row of which no part is known.
const UNKNOWN: &str = "- -2147483648 /org/a11y/atspi/accessible/2,0,18446744073709551615,9,y,?,?,?";

#[test]
fn rows_are_told_in_order_and_as_far_as_they_are_known(rt: HostRuntime) {
    assert!(rt; shows(rt.alloc(), 3, 15, "", "show r3 a15 0") == Some(true));
    let due =
        "show r0 a0 2\n| root - -1 application 0000000043000100 \"Demo\" \"\" - - - -\n| 1 root 0 push-button 0000000043000100 \"Save\" \"\" - - - -";
    assert!(rt; shows(rt.alloc(), 0, 0, ORDERED, due) == Some(true));
    let due =
        "show r0 a0 1\n| 4294967295 20 2147483647 117 0000000000000000 \"x\" \"\" TELBA \"a \\\"b\\\"\" 0 1024";
    assert!(rt; shows(rt.alloc(), 0, 0, KNOWN, due) == Some(true));
    let due = "show r0 a0 1\n| 2 - -2147483648 invalid ffffffffffffffff \"y\" \"\" TB ? ? ?";
    assert!(rt; shows(rt.alloc(), 0, 0, UNKNOWN, due) == Some(true));
}

/// Paths that nearly name a node.
const STRANGE: &str =
    "/ /a /org/a11y/atspi/accessible /org/a11y/atspi/accessible/0 /org/a11y/atspi/accessible/01 \
    /org/a11y/atspi/accessible/4294967296 /org/a11y/atspi/accessible/root/1 /org/a11y/atspi/accessible/1a \
    /org/a11y/atspi/accessible/Root";

/// Whether the path of a node and of its parent is told whole.
fn is_told_whole(alloc: Global, strange: &str) -> Option<bool> {
    let spelled = format!(in alloc; "{strange} 0 {strange},2,1124073728,0,,-,-,-").ok()?;
    let due = format!(in alloc;
        "show r0 a0 1\n| {strange} {strange} 0 alert 0000000043000100 \"\" \"\" - - - -"
    ).ok()?;
    shows(alloc, 0, 0, spelled.as_str(), due.as_str())
}

#[test]
fn paths_that_are_no_nodes_are_told_whole(rt: HostRuntime) {
    for strange in STRANGE.split(' ') {
        assert!(rt;
            is_told_whole(rt.alloc(), strange) == Some(true),
            "path {strange}"
        );
    }
}
