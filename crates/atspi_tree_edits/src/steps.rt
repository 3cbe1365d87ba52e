//! The steps of an edit.

ghost use Rattle.std.specs.Prelude.{IfOk};
ghost use Rattle.atspi_tree_model.specs.Edits.{IsEdit};
ghost use Rattle.atspi_tree_model.specs.RowRules.{shapes};
ghost use Rattle.atspi_tree_model.specs.Tree.{AllApply};
ghost use Rattle.atspi_tree_edits.specs.Answers.{GivesSteps, IsKnown, ReadsNone, edit_steps};

use crate::actions::press;
use crate::children::{deselect, select};
use crate::cuts::cut;
use crate::fault::EditRefused;
use crate::focus::focus;
use crate::inserts::insert;
use crate::moves::shift;
use crate::named::{describe, name, remove, role};
use crate::relations::{relate, unrelate};
use crate::states::state;
use crate::texts::{caret, keys, mark, put, unmark};
use atspi_tree::Tree;
use atspi_tree_model::{Edit, FaceData, StepList};
use std::alloc::Global;

/// The steps of an edit, or the first reason to refuse it. Of the contents of the edit's node those are handed in that
/// the edit reads: the text for the edits of a text, the actions for `Press`, and no actions where it reads none or the
/// node has none. An edit to what is there already has no step. Memory is wanted only for an edit that is not refused.
/// The steps of an edit that reads no contents can be done one after another.
pub fn steps_of(
    alloc: Global,
    tree: &Tree,
    edit: &Edit,
    known: &FaceData,
) -> Result<StepList, EditRefused>
    requires lawful { IsEdit edit.now }
    requires known { IsKnown known.now }
    ensures exact { GivesSteps result (edit_steps tree.now known.now edit.now) }
    ensures apply { ReadsNone edit.now → IfOk result (AllApply shapes tree.now.rows tree.now.added) }
{
    tree.is_lawful();
    steps_by_kind(alloc, tree, edit, known)
}

/// The same, by the kind of the edit.
fn steps_by_kind(
    alloc: Global,
    tree: &Tree,
    edit: &Edit,
    known: &FaceData,
) -> Result<StepList, EditRefused>
    requires lawful { IsEdit edit.now }
    requires known { IsKnown known.now }
    ensures { GivesSteps result (edit_steps tree.now known.now edit.now) }
{
    match edit {
        Edit::Insert {
            parent,
            index,
            seed,
        } => insert(alloc, tree, *parent, *index, seed),
        Edit::Remove { node } => remove(alloc, tree, *node),
        Edit::Name { node, text } => name(alloc, tree, *node, text),
        Edit::Describe { node, text } => describe(alloc, tree, *node, text),
        Edit::Role { node, role: to } => role(alloc, tree, *node, *to),
        Edit::State {
            node,
            state: which,
            on,
        } => state(alloc, tree, *node, *which, *on),
        Edit::Put { node, at, text } => put(alloc, tree, *node, *at, text, known),
        Edit::Keys { node, text } => keys(alloc, tree, *node, text, known),
        Edit::Caret { node, at } => caret(alloc, tree, *node, *at, known),
        Edit::Mark { node, from, to } => mark(alloc, tree, *node, *from, *to, known),
        Edit::Unmark { node } => unmark(alloc, tree, *node, known),
        Edit::Relate { node, kind, target } => relate(alloc, tree, *node, *kind, *target),
        Edit::Unrelate { node, kind, target } => unrelate(alloc, tree, *node, *kind, *target),
        Edit::Move {
            node,
            parent,
            index,
        } => shift(alloc, tree, *node, *parent, *index),
        Edit::Focus { node } => focus(alloc, tree, *node),
        Edit::Cut { node, from, to } => cut(alloc, tree, *node, *from, *to, known),
        Edit::Select { node, index } => select(alloc, tree, *node, *index),
        Edit::Deselect { node, index } => deselect(alloc, tree, *node, *index),
        Edit::Press { node, index } => press(alloc, tree, *node, *index, known),
    }
}
