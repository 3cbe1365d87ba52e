//! The tree that a reader holds, and what it was told of it.

ghost use Rattle.std.specs.Prelude.{◌≡◌, ◌↔◌, ◌∷◌, [], ◌++◌, ℕ, List, IsTrue, IfOk, OnErr, OnOk};
ghost use Rattle.std.specs.List.{AllByRecursion};
ghost use Rattle.atspi_tree_model.specs.Forest.{labels};
ghost use Rattle.atspi_tree_model.specs.Row.{IsName};
ghost use Rattle.atspi_tree_model.specs.View.{Told, view};
ghost use Rattle.atspi_protocol.specs.declared.news.part.PartName.{PartName};
ghost use Rattle.atspi_protocol.specs.following.Wishes.{unknown_parts};
ghost use Rattle.atspi_trace.specs.Causes.{shown_rows, told_in};
ghost use Rattle.atspi_whole_tree.specs.Whole.{StepCanBe, first_app_tree, shape_in, tree_after};
ghost use Rattle.atspi_audit_held.specs.Held.{Agrees, told_by};

use crate::lacking::{marks_of_tree, tell};
use crate::marks::Marks;
use crate::rows::rows_of;
use crate::steps::{add, keep, remove};
use atspi_base::valid_names::Path;
use atspi_base::{NoMemory, Text};
use atspi_protocol::news::PartName;
use atspi_trace_events::Shown;
use atspi_tree::Tree;
use atspi_tree_model::Step;
use atspi_whole_tree::WholeTree;
use std::alloc::Global;
use std::marker::Model;

/// What a reader holds of an application. Contracts see the tree, and which parts of each node were told.
#[derive(Drop)]
pub struct HeldTree {
    alloc: Global,
    tree: WholeTree,
    marks: Marks,
}

impl Model for HeldTree {
    ghost use Rattle.std.specs.Coded.{coded_list, coded×, coded_ℕ};
    ghost use Rattle.atspi_tree_model.specs.Tree.{shape_of};
    ghost use Rattle.atspi_audit_held.specs.Held.{Holds, holds_code};
    ghost use Rattle.atspi_audit_held.specs.contracts.known.Known as known;
    ghost use Rattle.atspi_audit_held.specs.inner.Lacking.{AreMarks};

    ghost Value = { Holds };

    ghost coded = { holds_code (coded_list (coded× coded_ℕ known.the_row.coded)) };

    ghost view = { λ h. record { tree = h.tree; told = h.marks.told.entries } };

    ghost invariant = { λ h. AreMarks h.marks (shape_of h.tree.forest) };
}

impl HeldTree {
    /// The root alone, of which nothing was told.
    pub fn new(alloc: Global, name: Text) -> Result<HeldTree, NoMemory>
        requires { IsName name }
        ensures tree { IfOk result (λ h. h.tree ≡ first_app_tree name) }
        ensures told { IfOk result (λ h. Agrees (told_in []) (told_by h.told)) }
    {
        let tree = WholeTree::new(alloc, name)?;
        let marks = marks_of_tree(alloc, tree.tree())?;
        Ok(HeldTree { alloc, tree, marks })
    }

    /// The shape of the tree.
    pub fn tree(&self) -> &Tree
        ensures { result.now ≡ shape_in self.now.tree }
    {
        self.tree.tree()
    }

    /// The reader loads it: no part was told from now on.
    pub fn load(&mut self) -> Result<(), NoMemory>
        ensures tree { self.new.tree ≡ self.old.tree }
        ensures told { OnOk result (Agrees (told_in []) (told_by self.new.told)) }
        ensures err { OnErr result (self.new ≡ self.old) }
    {
        let marks = marks_of_tree(self.alloc, self.tree.tree())?;
        self.marks = marks;
        Ok(())
    }

    /// The reader was told a part of the node with this path.
    pub fn tell(&mut self, path: &Path, part: PartName) -> Result<(), NoMemory>
        ensures tree { self.new.tree ≡ self.old.tree }
        ensures told { OnOk result
            ((parts : List (List ℕ × PartName)) → Agrees (told_in parts) (told_by self.old.told)
            → Agrees (told_in (parts ++ (path.now, part) ∷ [])) (told_by self.new.told)) }
        ensures err { OnErr result (self.new ≡ self.old) }
    {
        tell(&mut self.marks, self.tree.tree(), path, part)
    }

    /// A step of the application is followed. After want of memory all is as before.
    pub fn follow(&mut self, step: &Step) -> Result<(), NoMemory>
        requires { StepCanBe self.old.tree step.now }
        ensures tree { OnOk result (self.new.tree ≡ tree_after self.old.tree step.now) }
        ensures told { self.new.told ≡ self.old.told }
        ensures err { OnErr result (self.new.tree ≡ self.old.tree) }
    {
        match step {
            Step::Add { node, seed, .. } => {
                add(&mut self.marks, &mut self.tree, step, *node, seed)
            }
            Step::Remove { node } => {
                remove(&mut self.marks, &mut self.tree, *node);
                Ok(())
            }
            Step::Move { .. } => keep(&self.marks, &mut self.tree, step),
            Step::SetName { .. } => keep(&self.marks, &mut self.tree, step),
            Step::SetDescription { .. } => keep(&self.marks, &mut self.tree, step),
            Step::SetRole { .. } => keep(&self.marks, &mut self.tree, step),
            Step::SetState { .. } => keep(&self.marks, &mut self.tree, step),
            Step::Insert { .. } => keep(&self.marks, &mut self.tree, step),
            Step::Delete { .. } => keep(&self.marks, &mut self.tree, step),
            Step::Caret { .. } => keep(&self.marks, &mut self.tree, step),
            Step::TextSelect { .. } => keep(&self.marks, &mut self.tree, step),
            Step::Relate { .. } => keep(&self.marks, &mut self.tree, step),
        }
    }

    /// The rows that the reader shows of it: those of the view of the tree, with the parts that were told. Costs the
    /// tree.
    pub fn shown(&self) -> Result<Shown, NoMemory>
        ensures { (told : List ℕ → Told) → Agrees told (told_by self.now.told)
            → IfOk result (λ rows. rows ≡ shown_rows (view told self.now.tree.forest)) }
    {
        let _ = self.tree.tree();
        let rows = rows_of(self.alloc, &self.tree, &self.marks.told)?;
        Ok(Shown::from_vec(rows))
    }

    /// Whether every part is known.
    pub fn is_whole(&self) -> bool
        ensures { (told : List ℕ → Told) → Agrees told (told_by self.now.told)
            → IsTrue result
            ↔ AllByRecursion (λ row. unknown_parts row ≡ []) (labels (view told self.now.tree.forest)) }
    {
        let _ = self.tree.tree();
        self.marks.lacking.is_empty()
    }
}
