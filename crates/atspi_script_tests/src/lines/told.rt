//! What a line says, as a text of these tests' own.

use atspi_base::{Bytes, NoMemory, Text, put_decimal};
use atspi_script_lines::{Deed, Line, Party};
use atspi_tree_model::{Edit, Seed};
use std::alloc::Global;

/// A word and numbers.
fn put(out: &mut Bytes, word: &str, numbers: &[u32]) -> Result<(), NoMemory> {
    out.extend(word.as_bytes())?;
    for n in numbers {
        out.extend(b" ")?;
        put_decimal(u64::from(*n), out)?;
    }
    Ok(())
}

/// A word, numbers and a text.
fn put_text(out: &mut Bytes, word: &str, numbers: &[u32], text: &Text) -> Result<(), NoMemory> {
    put(out, word, numbers)?;
    out.extend(b" <")?;
    out.extend(text.as_str().as_bytes())?;
    out.extend(b">")
}

/// What a new node begins with.
fn put_seed(out: &mut Bytes, seed: &Seed) -> Result<(), NoMemory> {
    put_text(out, " Seed", &[seed.role], &seed.name)?;
    if let Some(text) = &seed.text {
        put_text(out, " Text", &[seed.editable as u32], text)?;
    }
    if let Some(columns) = seed.columns {
        put(out, " Columns", &[columns])?;
    }
    if seed.select {
        put(out, " Select", &[])?;
    }
    for name in seed.actions.as_slice() {
        put_text(out, " Action", &[], name)?;
    }
    Ok(())
}

/// An edit.
fn put_edit(out: &mut Bytes, edit: &Edit) -> Result<(), NoMemory> {
    match edit {
        Edit::Insert {
            parent,
            index,
            seed,
        } => {
            put(out, " Insert", &[*parent, *index])?;
            put_seed(out, seed)
        }
        Edit::Remove { node } => put(out, " Remove", &[*node]),
        Edit::Move {
            node,
            parent,
            index,
        } => put(out, " Move", &[*node, *parent, *index]),
        Edit::Name { node, text } => put_text(out, " Name", &[*node], text),
        Edit::Describe { node, text } => put_text(out, " Describe", &[*node], text),
        Edit::Role { node, role } => put(out, " Role", &[*node, *role]),
        Edit::State { node, state, on } => put(
            out,
            " State",
            &[*node, u32::from(*state), *on as u32],
        ),
        Edit::Focus { node } => put(out, " Focus", &[*node]),
        Edit::Put { node, at, text } => put_text(out, " Put", &[*node, *at], text),
        Edit::Keys { node, text } => put_text(out, " Keys", &[*node], text),
        Edit::Cut { node, from, to } => put(out, " Cut", &[*node, *from, *to]),
        Edit::Caret { node, at } => put(out, " Caret", &[*node, *at]),
        Edit::Mark { node, from, to } => put(out, " Mark", &[*node, *from, *to]),
        Edit::Unmark { node } => put(out, " Unmark", &[*node]),
        Edit::Select { node, index } => put(out, " Select", &[*node, *index]),
        Edit::Deselect { node, index } => put(out, " Deselect", &[*node, *index]),
        Edit::Press { node, index } => put(out, " Press", &[*node, *index]),
        Edit::Relate { node, kind, target } => put(out, " Relate", &[*node, *kind, *target]),
        Edit::Unrelate { node, kind, target } => put(out, " Unrelate", &[*node, *kind, *target]),
    }
}

/// A deed.
fn put_deed(out: &mut Bytes, deed: &Deed) -> Result<(), NoMemory> {
    match deed {
        Deed::SetCaret { at } => put(out, " SetCaret", &[*at]),
        Deed::InsertText { at, text } => put_text(out, " InsertText", &[*at], text),
        Deed::DeleteText { from, to } => put(out, " DeleteText", &[*from, *to]),
        Deed::SetText { text } => put_text(out, " SetText", &[], text),
        Deed::SelectChild { index } => put(out, " SelectChild", &[*index]),
        Deed::DeselectChild { index } => put(out, " DeselectChild", &[*index]),
        Deed::SelectAll => put(out, " SelectAll", &[]),
        Deed::ClearSelection => put(out, " ClearSelection", &[]),
        Deed::DoAction { index } => put(out, " DoAction", &[*index]),
    }
}

/// A party.
fn put_party(out: &mut Bytes, party: Party) -> Result<(), NoMemory> {
    match party {
        Party::Bus => put(out, " Bus", &[]),
        Party::Registry => put(out, " Registry", &[]),
        Party::App(app) => put(out, " App", &[app]),
        Party::Reader(reader) => put(out, " Reader", &[reader]),
    }
}

/// A line.
fn put_line(out: &mut Bytes, line: &Line) -> Result<(), NoMemory> {
    match line {
        Line::Blank => put(out, "Blank", &[]),
        Line::Quota(n) => put(out, "Quota", &[*n]),
        Line::App(name) => put_text(out, "App", &[], name),
        Line::Reader => put(out, "Reader", &[]),
        Line::Edit { app, edit } => {
            put(out, "Edit", &[*app])?;
            put_edit(out, edit)
        }
        Line::Call {
            reader,
            app,
            node,
            deed,
        } => {
            put(out, "Call", &[*reader, *app, *node])?;
            put_deed(out, deed)
        }
        Line::Swap(app) => put(out, "Swap", &[*app]),
        Line::Exit(app) => put(out, "Exit", &[*app]),
        Line::Leave(reader) => put(out, "Leave", &[*reader]),
        Line::Bytes { party, up, count } => {
            put(out, "Bytes", &[*up as u32, *count])?;
            put_party(out, *party)
        }
        Line::Turns(n) => put(out, "Turns", &[*n]),
        Line::Drain => put(out, "Drain", &[]),
        Line::Show { reader, app } => put(out, "Show", &[*reader, *app]),
    }
}

/// Whether a line says what is due.
pub(crate) fn is_told(alloc: Global, line: &Line, due: &str) -> bool {
    let mut out = Bytes::new(alloc);
    let put = put_line(&mut out, line);
    let is_due = out.as_slice() == due.as_bytes();
    put.is_ok() && is_due
}
