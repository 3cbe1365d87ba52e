//! The steps of an edit.

ghost use Rattle.std.specs.Prelude.{◌≡◌, [], true, IfOk};
ghost use Rattle.atspi_tree_model.specs.declared.contents.FaceData.TheVariants.{Deeds};
ghost use Rattle.atspi_tree_model.specs.Edits.{IsEdit, action_contents, contents_read, steps_of_tree, text_contents};
ghost use Rattle.atspi_tree_model.specs.Forest.{find, has};
ghost use Rattle.atspi_tree_model.specs.RowRules.{rows};
ghost use Rattle.atspi_tree_model.specs.Tree.{AllApply, is_node, is_shape};
ghost use Rattle.atspi_tree_edits.specs.Answers.{IsKnown};
ghost use Rattle.atspi_app_exported.specs.Asking.{AnswersSteps};
ghost use Rattle.atspi_app_exported.specs.Doing.{AreOne};
ghost use Rattle.atspi_app_exported.specs.Parts.{whole_of};

use crate::exported::Exported;
use crate::exports::Exports;
use crate::reading::{actions_at, text_at};
use atspi_base::{NoMemory, Texts};
use atspi_faces::face::Face;
use atspi_tree_edits::{EditRefused, steps_of};
use atspi_tree_model::{Edit, FaceData, StepList};
use std::alloc::Global;

/// No actions.
fn no_actions(alloc: Global) -> FaceData
    ensures { result ≡ Deeds [] }
{
    FaceData::Deeds(Texts::new(alloc))
}

impl Exported {
    /// A node's text; no actions where it has none.
    fn text_of(&self, alloc: Global, node: u32) -> Result<FaceData, NoMemory>
        requires { ⟦<Exported as Exports>⟧.is_exported self.now }
        ensures text { IfOk result
            (λ what. what ≡ text_contents (find (is_node node) (whole_of (⟦<Exported as Exports>⟧.parts self.now)))) }
        ensures known { IfOk result IsKnown }
    {
        if self.tree.has(node) {
            return self.text_if(alloc, node);
        }
        Ok(no_actions(alloc))
    }

    /// The same of a node that is there.
    fn text_if(&self, alloc: Global, node: u32) -> Result<FaceData, NoMemory>
        requires there { has (is_shape node) (⟦<Exported as Exports>⟧.parts self.now).tree.rows ≡ true }
        requires exported { ⟦<Exported as Exports>⟧.is_exported self.now }
        ensures text { IfOk result
            (λ what. what ≡ text_contents (find (is_node node) (whole_of (⟦<Exported as Exports>⟧.parts self.now)))) }
        ensures known { IfOk result IsKnown }
    {
        if self.tree.kinds(node).text {
            return text_at(&self.kit.chars, node);
        }
        Ok(no_actions(alloc))
    }

    /// A node's actions; none where it has none.
    fn actions_of(&self, alloc: Global, node: u32) -> Result<FaceData, NoMemory>
        requires { ⟦<Exported as Exports>⟧.is_exported self.now }
        ensures actions { IfOk result
            (λ what. what ≡ action_contents (find (is_node node) (whole_of (⟦<Exported as Exports>⟧.parts self.now)))) }
        ensures known { IfOk result IsKnown }
    {
        if self.tree.has(node) {
            return self.actions_if(alloc, node);
        }
        Ok(no_actions(alloc))
    }

    /// The same of a node that is there.
    fn actions_if(&self, alloc: Global, node: u32) -> Result<FaceData, NoMemory>
        requires there { has (is_shape node) (⟦<Exported as Exports>⟧.parts self.now).tree.rows ≡ true }
        requires exported { ⟦<Exported as Exports>⟧.is_exported self.now }
        ensures actions { IfOk result
            (λ what. what ≡ action_contents (find (is_node node) (whole_of (⟦<Exported as Exports>⟧.parts self.now)))) }
        ensures known { IfOk result IsKnown }
    {
        if self.tree.kinds(node).action {
            return actions_at(alloc, &self.kit.deeds, node);
        }
        Ok(no_actions(alloc))
    }

    /// The contents that an edit reads.
    fn known_to(&self, alloc: Global, edit: &Edit) -> Result<FaceData, NoMemory>
        requires { ⟦<Exported as Exports>⟧.is_exported self.now }
        ensures read { IfOk result
            (λ what. what ≡ contents_read (whole_of (⟦<Exported as Exports>⟧.parts self.now)) edit.now) }
        ensures known { IfOk result IsKnown }
    {
        match edit {
            Edit::Put { node, .. } => self.text_of(alloc, *node),
            Edit::Keys { node, .. } => self.text_of(alloc, *node),
            Edit::Cut { node, .. } => self.text_of(alloc, *node),
            Edit::Caret { node, .. } => self.text_of(alloc, *node),
            Edit::Mark { node, .. } => self.text_of(alloc, *node),
            Edit::Unmark { node } => self.text_of(alloc, *node),
            Edit::Press { node, .. } => self.actions_of(alloc, *node),
            _ => Ok(no_actions(alloc)),
        }
    }

    /// The steps of an edit of the whole tree, or the first reason to refuse it. The steps apply one after another, and
    /// `apply_all` takes them.
    pub fn steps(&self, alloc: Global, edit: &Edit) -> Result<StepList, EditRefused>
        requires lawful { IsEdit edit.now }
        requires exported { ⟦<Exported as Exports>⟧.is_exported self.now }
        ensures exact { AnswersSteps result
            (steps_of_tree (whole_of (⟦<Exported as Exports>⟧.parts self.now))
            (⟦<Exported as Exports>⟧.parts self.now).tree.added edit.now) }
        ensures apply { IfOk result
            (AllApply rows (whole_of (⟦<Exported as Exports>⟧.parts self.now))
            (⟦<Exported as Exports>⟧.parts self.now).tree.added) }
        ensures one { IfOk result AreOne }
    {
        let known = self.known_to(alloc, edit)?;
        steps_of(alloc, &self.tree, edit, &known)
    }
}
