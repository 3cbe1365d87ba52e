//! Edits in the words of a script, and trees that they make.

ghost use Rattle.std.specs.Prelude.{IfSome, IsTrue};
ghost use Rattle.atspi_tree_model.specs.Edits.{IsEdit};
ghost use Rattle.atspi_tree_edits.specs.Answers.{ReadsNone};

use atspi_base::{Text, Texts};
use atspi_script_lines::{Line, parse_line};
use atspi_tree::Tree;
use atspi_tree_edits::{EditRefused, steps_of};
use atspi_tree_model::{Edit, FaceData, Seed};
use std::alloc::Global;

/// A number of a word; 0 where there is none.
pub(crate) fn number(word: Option<&str>) -> u32 {
    match word {
        Some(word) => word.parse::<u32>().unwrap_or(0),
        None => 0,
    }
}

/// A text of so many letters.
pub(crate) fn letters(alloc: Global, count: usize) -> Option<Text> {
    let bytes = vec![in alloc; b'a'; count.min(1_048_577)].ok()?;
    Text::read(alloc, &bytes).ok()
}

/// The line of an edit, with 511 letters for a `%`.
fn line_of(alloc: Global, words: &str) -> Option<String> {
    let Some((front, back)) = words.split_once('%') else {
        return format!(in alloc; "edit a0 {words}").ok();
    };
    let name = letters(alloc, 511)?;
    format!(in alloc; "edit a0 {front}{}{back}", name.as_str()).ok()
}

/// An insert of a table with a text below the root, of so many letters and columns, as words say: a text may be longer
/// than a line.
fn table_of(alloc: Global, words: &str) -> Option<Edit>
    ensures { IfSome result IsEdit }
{
    let (count, columns) = words.split_once(' ')?;
    let columns = columns.parse::<u32>().ok()?;
    let name = Text::read(alloc, b"a").ok()?;
    let text = letters(alloc, count.parse::<usize>().ok()?)?;
    Some(Edit::Insert {
        parent: 0,
        index: 0,
        seed: Seed {
            role: 55,
            name,
            text: Some(text),
            editable: true,
            columns: Some(columns),
            select: false,
            actions: Texts::new(alloc),
        },
    })
}

/// The edit that words of a script spell, or `long` and the words of a table with a text.
pub(crate) fn edit_of(alloc: Global, words: &str) -> Option<Edit>
    ensures { IfSome result IsEdit }
{
    if let Some(table) = words.strip_prefix("long ") {
        return table_of(alloc, table);
    }
    let line = line_of(alloc, words)?;
    match parse_line(alloc, line.as_str().as_bytes()) {
        Ok(Line::Edit { edit, .. }) => Some(edit),
        _ => None,
    }
}

/// Whether an edit is one of nodes, names, states or relations, which reads no contents.
fn is_plain(edit: &Edit) -> bool
    ensures { IsTrue result → ReadsNone edit.now }
{
    match edit {
        Edit::Insert { .. } => true,
        Edit::Remove { .. } => true,
        Edit::Move { .. } => true,
        Edit::Name { .. } => true,
        Edit::Role { .. } => true,
        Edit::State { .. } => true,
        Edit::Relate { .. } => true,
        Edit::Unrelate { .. } => true,
        _ => false,
    }
}

/// Does the steps of an edit that reads no contents. Answers whether the edit was taken, none for want of memory.
fn edited(alloc: Global, tree: &mut Tree, edit: &Edit) -> Option<bool>
    requires lawful { IsEdit edit.now }
    requires plain { ReadsNone edit.now }
{
    let none = FaceData::Deeds(Texts::new(alloc));
    let steps = match steps_of(alloc, tree, edit, &none) {
        Ok(steps) => steps,
        Err(EditRefused::Refused(_)) => return Some(false),
        Err(EditRefused::NoMemory) => return None,
    };
    for step in steps.as_slice() {
        tree.apply(step).ok()?;
    }
    Some(true)
}

/// Does an edit to a tree. Answers whether it was taken, none for want of memory and for an edit that reads contents.
pub(crate) fn take(alloc: Global, tree: &mut Tree, words: &str) -> Option<bool> {
    let edit = edit_of(alloc, words)?;
    if !is_plain(&edit) {
        return None;
    }
    edited(alloc, tree, &edit)
}

/// Does edits with `; ` between two. None where one of them is refused.
pub(crate) fn take_all(alloc: Global, tree: &mut Tree, edits: &str) -> Option<()> {
    for words in edits.split("; ") {
        if !take(alloc, tree, words)? {
            return None;
        }
    }
    Some(())
}

/// The root alone.
pub(crate) fn alone(alloc: Global) -> Option<Tree> {
    let name = letters(alloc, 4)?;
    if name.as_str().len() > 511 {
        return None;
    }
    Tree::new(alloc, name).ok()
}

/// The tree that these edits make out of the root.
pub(crate) fn made(alloc: Global, edits: &str) -> Option<Tree> {
    let mut tree = alone(alloc)?;
    take_all(alloc, &mut tree, edits)?;
    Some(tree)
}
