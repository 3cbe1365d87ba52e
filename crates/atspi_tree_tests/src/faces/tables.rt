//! Calls and their answers as rows of a text, which every face of a kind goes through.

use atspi_base::{Marks, Text, Texts};
use atspi_faces::face::{Change, Face, FaceData, FaceKind};
use atspi_faces::guarded::{caret, change, marks, part, put};
use std::alloc::Global;
use std::process::Abort;

/// The node that the calls are about.
const NODE: u32 = 7;

/// What spells a call and its answer: a word, whether the call is done (`no-` stands before the word of one that is
/// refused), up to three numbers, and what stands behind `|`.
#[derive(Clone, Copy)]
struct Row<'a> {
    word: &'a str,
    is_done: bool,
    first: u32,
    second: u32,
    third: u32,
    text: &'a str,
}

/// A number of a word; 0 where there is none.
fn number(word: Option<&str>) -> u32 {
    match word {
        Some(word) => word.parse::<u32>().unwrap_or(0),
        None => 0,
    }
}

/// The row of a line.
fn row_of(line: &str) -> Row<'_> {
    let (front, text) = line.split_once('|').unwrap_or((line, ""));
    let mut words = front.split(' ');
    let word = words.next().unwrap_or("");
    let refused = word.strip_prefix("no-");
    Row {
        word: refused.unwrap_or(word),
        is_done: refused.is_none(),
        first: number(words.next()),
        second: number(words.next()),
        third: number(words.next()),
        text,
    }
}

/// A text of at most 8 MiB.
fn text(alloc: Global, chars: &[u8]) -> Option<Text> {
    if 8_388_608 < chars.len() {
        return None;
    }
    Text::read(alloc, chars).ok()
}

/// Goes through a table: each of its calls has the answer that its row says.
pub fn run(rt: &impl Abort, alloc: Global, face: &mut Box<dyn Face>, table: &str) {
    for line in table.lines() {
        let row = row_of(line);
        assert!(rt; holds(alloc, face, row) == Some(row.is_done), "{line}");
    }
}

/// Makes the call of a row. Answers whether it was done, or had the answer that is due, none for want of memory:
/// - `open CARET|TEXT` opens the node with a text, its caret and one text selection from 1 to 3, `other NODE|TEXT`
///   opens a node with a text alone, and `long|CHARACTER` opens the node with 1,048,576 of these;
/// - `alike NODE N` opens a node with so many characters, columns or actions, whichever the face keeps, and
///   `actions|NAMES` opens the node with actions of these names;
/// - the other words are those of changes and of what is read.
fn holds(alloc: Global, face: &mut Box<dyn Face>, row: Row<'_>) -> Option<bool> {
    match row.word {
        "open" => opens(alloc, face, row.first, row.text.as_bytes()),
        "long" => opens_long(alloc, face, row.text),
        "other" => opens_plain(alloc, face, row.first, row.text),
        "alike" => opens_alike(alloc, face, row.first, row.second),
        "actions" => opens_actions(alloc, face, row.text),
        _ => changes(alloc, face, row),
    }
}

/// The same of changes: `insert AT|TEXT`, `delete AT LEN`, `move TO` of the caret, `select N` for so many text
/// selections, the one at i from i to i + 1, and `close NODE`.
fn changes(alloc: Global, face: &mut Box<dyn Face>, row: Row<'_>) -> Option<bool> {
    match row.word {
        "insert" => inserts(alloc, face, row.first, row.text),
        "delete" => deletes(face, row.first, row.second),
        "move" => moves(face, row.first),
        "select" => selects(alloc, face, row.first),
        "close" => {
            face.drop_node(row.first);
            Some(true)
        }
        _ => reads(face, row),
    }
}

/// The same of what is read: `part FROM TO|TEXT`, `absent FROM TO` for no such part, `count N`, `caret AT`,
/// `marks N FROM TO` for how many text selections there are and the last of them, `next FROM NODE` for the next node
/// from one on, `last FROM` for none, and `kind|KIND`.
fn reads(face: &Box<dyn Face>, row: Row<'_>) -> Option<bool> {
    match row.word {
        "part" => has_part(face, row.first, row.second, row.text),
        "absent" => has_no_part(face, row.first, row.second),
        "count" => Some(face.count(NODE) == row.first),
        "caret" => Some(caret(face, NODE) == Some(row.first)),
        "marks" => has_marks(face, row),
        "next" => Some(face.next_node(row.first) == Some(row.second)),
        "last" => Some(face.next_node(row.first).is_none()),
        "kind" => Some(name_of(face.kind()) == row.text),
        _ => None,
    }
}

/// A list of one text selection.
fn one_mark(alloc: Global) -> Option<Marks> {
    let mut marks = Marks::new(alloc);
    marks.push((1, 3)).ok()?;
    Some(marks)
}

/// Opens the node with a text, its caret and one text selection. Answers whether it was done.
fn opens(alloc: Global, face: &mut Box<dyn Face>, caret: u32, chars: &[u8]) -> Option<bool> {
    let marks = one_mark(alloc)?;
    let text = text(alloc, chars)?;
    Some(put(face, NODE, FaceData::Chars { text, caret, marks }).is_ok())
}

/// Opens a node with a text. Answers whether it was done.
fn opens_plain(alloc: Global, face: &mut Box<dyn Face>, node: u32, chars: &str) -> Option<bool> {
    let what = FaceData::Chars {
        text: text(alloc, chars.as_bytes())?,
        caret: 0,
        marks: Marks::new(alloc),
    };
    Some(put(face, node, what).is_ok())
}

/// Inserts a text. Answers whether it was done.
fn inserts(alloc: Global, face: &mut Box<dyn Face>, at: u32, chars: &str) -> Option<bool> {
    let text = text(alloc, chars.as_bytes())?;
    change(face, NODE, &Change::Insert { at, text }).ok()
}

/// Deletes so many characters. Answers whether it was done.
fn deletes(face: &mut Box<dyn Face>, at: u32, len: u32) -> Option<bool> {
    change(face, NODE, &Change::Delete { at, len }).ok()
}

/// Moves the caret. Answers whether it was done.
fn moves(face: &mut Box<dyn Face>, to: u32) -> Option<bool> {
    change(face, NODE, &Change::Caret(to)).ok()
}

/// Sets so many text selections. Answers whether it was done.
fn selects(alloc: Global, face: &mut Box<dyn Face>, n: u32) -> Option<bool> {
    let mut ranges = Marks::new(alloc);
    for i in 0..n {
        ranges.push((i, i.saturating_add(1))).ok()?;
    }
    change(face, NODE, &Change::Marks(ranges)).ok()
}

/// Whether the node's text from a place up to another is this.
fn has_part(face: &Box<dyn Face>, from: u32, to: u32, due: &str) -> Option<bool> {
    match part(face, NODE, from, to) {
        Ok(Some(text)) => Some(text.as_str() == due),
        _ => None,
    }
}

/// Whether there is no such part.
fn has_no_part(face: &Box<dyn Face>, from: u32, to: u32) -> Option<bool> {
    match part(face, NODE, from, to) {
        Ok(found) => Some(found.is_none()),
        Err(_) => None,
    }
}

/// Whether there are as many text selections as the row says, and the last of them is the one that it says.
fn has_marks(face: &Box<dyn Face>, row: Row<'_>) -> Option<bool> {
    match marks(face, NODE) {
        Ok(Some(found)) => Some(are_marks(found.as_slice(), row)),
        _ => None,
    }
}

/// The same of a list.
fn are_marks(found: &[(u32, u32)], row: Row<'_>) -> bool {
    let last = found.last().copied().unwrap_or((0, 0));
    found.len() == row.first as usize && last == (row.second, row.third)
}

/// The name of a kind.
fn name_of(kind: FaceKind) -> &'static str {
    match kind {
        FaceKind::Chars => "chars",
        FaceKind::Grid => "grid",
        FaceKind::Deeds => "deeds",
    }
}

/// Opens a node with contents of the face's kind. Answers whether it was done.
fn opens_alike(alloc: Global, face: &mut Box<dyn Face>, node: u32, n: u32) -> Option<bool> {
    let what = contents(alloc, face.kind(), n)?;
    Some(put(face, node, what).is_ok())
}

/// Contents of a kind: so many characters of two bytes, columns, or actions.
fn contents(alloc: Global, kind: FaceKind, n: u32) -> Option<FaceData> {
    match kind {
        FaceKind::Chars => chars(alloc, n),
        FaceKind::Grid => Some(FaceData::Grid(n)),
        FaceKind::Deeds => deeds(alloc, n),
    }
}

fn chars(alloc: Global, n: u32) -> Option<FaceData> {
    let mut bytes = Vec::new(alloc);
    for _ in 0..n {
        bytes.extend_from_slice("ß".as_bytes()).ok()?;
    }
    Some(FaceData::Chars {
        text: text(alloc, &bytes)?,
        caret: 0,
        marks: Marks::new(alloc),
    })
}

fn deeds(alloc: Global, n: u32) -> Option<FaceData> {
    let mut names = Texts::new(alloc);
    for _ in 0..n {
        names.push(text(alloc, b"click")?).ok()?;
    }
    Some(FaceData::Deeds(names))
}

/// Opens the node with actions, whose names stand between blanks. Answers whether it was done.
fn opens_actions(alloc: Global, face: &mut Box<dyn Face>, names: &str) -> Option<bool> {
    let mut list = Texts::new(alloc);
    for name in names.split(' ') {
        list.push(text(alloc, name.as_bytes())?).ok()?;
    }
    Some(put(face, NODE, FaceData::Deeds(list)).is_ok())
}

/// 1,048,576 equal characters.
fn long(alloc: Global, unit: &str) -> Option<Vec<u8>> {
    let mut bytes = unit.as_bytes().to_vec(alloc).ok()?;
    for _ in 0..20usize {
        let half = bytes.as_slice().to_vec(alloc).ok()?;
        bytes.extend_from_slice(&half).ok()?;
    }
    Some(bytes)
}

/// Opens the node with the longest text, and the caret behind it. Answers whether it was done.
fn opens_long(alloc: Global, face: &mut Box<dyn Face>, unit: &str) -> Option<bool> {
    let bytes = long(alloc, unit)?;
    opens(alloc, face, 1_048_576, bytes.as_slice())
}
