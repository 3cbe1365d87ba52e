//! Trees that edits in the words of a script make.

ghost use Rattle.std.specs.Prelude.{IfSome, IsTrue};
ghost use Rattle.atspi_tree_model.specs.Edits.{IsEdit};
ghost use Rattle.atspi_tree_edits.specs.Answers.{ReadsNone};

use atspi_base::{Text, Texts};
use atspi_script_lines::{Line, parse_line};
use atspi_tree::Tree;
use atspi_tree_edits::{EditRefused, steps_of};
use atspi_tree_model::{Edit, FaceData};
use std::alloc::Global;

/// The edit that words of a script spell.
fn edit_of(alloc: Global, words: &str) -> Option<Edit>
    ensures { IfSome result IsEdit }
{
    let line = format!(in alloc; "edit a0 {words}").ok()?;
    match parse_line(alloc, line.as_str().as_bytes()) {
        Ok(Line::Edit { edit, .. }) => Some(edit),
        _ => None,
    }
}

/// Whether an edit is one of nodes, names, states or relations, which reads no contents.
fn is_plain(edit: &Edit) -> bool
    ensures { IsTrue result → ReadsNone edit.now }
{
    match edit {
        Edit::Insert { .. } => true,
        Edit::Remove { .. } => true,
        Edit::Move { .. } => true,
        Edit::Name { .. } => true,
        Edit::Role { .. } => true,
        Edit::State { .. } => true,
        Edit::Relate { .. } => true,
        Edit::Unrelate { .. } => true,
        _ => false,
    }
}

/// Does the steps of an edit that reads no contents. Answers whether the edit was taken, none for want of memory.
fn edited(alloc: Global, tree: &mut Tree, edit: &Edit) -> Option<bool>
    requires lawful { IsEdit edit.now }
    requires plain { ReadsNone edit.now }
{
    let none = FaceData::Deeds(Texts::new(alloc));
    let steps = match steps_of(alloc, tree, edit, &none) {
        Ok(steps) => steps,
        Err(EditRefused::Refused(_)) => return Some(false),
        Err(EditRefused::NoMemory) => return None,
    };
    for step in steps.as_slice() {
        tree.apply(step).ok()?;
    }
    Some(true)
}

/// Does an edit to a tree. Answers whether it was taken, none for want of memory and for an edit that reads contents.
pub(crate) fn take(alloc: Global, tree: &mut Tree, words: &str) -> Option<bool> {
    let edit = edit_of(alloc, words)?;
    if !is_plain(&edit) {
        return None;
    }
    edited(alloc, tree, &edit)
}

/// Does edits with `; ` between two. None where one of them is refused.
pub(crate) fn take_all(alloc: Global, tree: &mut Tree, edits: &str) -> Option<()> {
    for words in edits.split("; ") {
        if !take(alloc, tree, words)? {
            return None;
        }
    }
    Some(())
}

/// The root alone.
pub(crate) fn alone(alloc: Global) -> Option<Tree> {
    let name = Text::read(alloc, b"room").ok()?;
    if name.as_str().len() > 511 {
        return None;
    }
    Tree::new(alloc, name).ok()
}

/// The tree that these edits make out of the root.
pub(crate) fn made(alloc: Global, edits: &str) -> Option<Tree> {
    let mut tree = alone(alloc)?;
    take_all(alloc, &mut tree, edits)?;
    Some(tree)
}
