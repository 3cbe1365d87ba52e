//! The lines that are due at a step that made a tree, and at the end of an application with that tree.

ghost use Rattle.std.specs.Prelude.{◌≡◌, [], ◌∷◌, IfOk};
ghost use Rattle.std.specs.Option.{option_to_list};
ghost use Rattle.atspi_tree_model.specs.Forest.{Forest};
ghost use Rattle.atspi_tree_model.specs.Row.{TreeRow};
ghost use Rattle.atspi_tree_model.specs.Tree.{shape_of};
ghost use Rattle.atspi_speech.specs.Speech.{closing_says, says_after};
ghost use Rattle.atspi_due_lines.specs.inner.Subjects.{shape_says};

use crate::subject::{of_alert, of_name, of_state, of_text, spoken_of};
use atspi_base::{NoMemory, Text};
use atspi_tree::Tree;
use atspi_tree_model::Step;
use std::alloc::Global;

/// The line of a step that made this shape.
fn line_of(alloc: Global, tree: &Tree, step: &Step) -> Result<Option<Text>, NoMemory>
    ensures { IfOk result (λ line. option_to_list line ≡ shape_says tree.now step.now) }
{
    match step {
        Step::Add { node, .. } => match spoken_of(tree, *node) {
            Some(node) => of_alert(alloc, &node),
            None => Ok(None),
        },
        Step::SetName { node, .. } => match spoken_of(tree, *node) {
            Some(node) => of_name(alloc, &node),
            None => Ok(None),
        },
        Step::SetState { node, state, on } => match spoken_of(tree, *node) {
            Some(node) => of_state(alloc, &node, *state, *on),
            None => Ok(None),
        },
        Step::Insert { node, text, .. } => match spoken_of(tree, *node) {
            Some(node) => of_text(alloc, &node, "typed: ", text),
            None => Ok(None),
        },
        Step::Delete { node, text, .. } => match spoken_of(tree, *node) {
            Some(node) => of_text(alloc, &node, "deleted: ", text),
            None => Ok(None),
        },
        _ => Ok(None),
    }
}

/// The line that is due at a step that made a tree with this shape, where one is: of a whole tree its shape is looked
/// at alone.
pub fn due_line(alloc: Global, tree: &Tree, step: &Step) -> Result<Option<Text>, NoMemory>
    ensures { (f : Forest TreeRow) → shape_of f ≡ tree.now.rows
        → IfOk result (λ line. option_to_list line ≡ says_after f step.now) }
{
    line_of(alloc, tree, step)
}

/// The line that is due at the end of an application whose tree has this shape.
pub fn closing_line(alloc: Global, tree: &Tree) -> Result<Text, NoMemory>
    ensures { (f : Forest TreeRow) → shape_of f ≡ tree.now.rows
        → IfOk result (λ line. closing_says f ≡ line ∷ []) }
{
    tree.is_lawful();
    atspi_speech::closing_line(alloc, Some(tree.name(0)))
}
