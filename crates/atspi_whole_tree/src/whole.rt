//! A whole tree as contracts see it.

ghost use Rattle.std.specs.Prelude.{◌≡◌, Some, true, IfOk, OnErr, OnOk};
ghost use Rattle.std.specs.Option.{option_map};
ghost use Rattle.atspi_tree_model.specs.declared.step.Step.TheVariants.{Remove};
ghost use Rattle.atspi_tree_model.specs.Forest.{has};
ghost use Rattle.atspi_tree_model.specs.Row.{IsName};
ghost use Rattle.atspi_tree_model.specs.Tree.{is_node};
ghost use Rattle.atspi_tree_model.specs.View.{caret_of, characters_of};
ghost use Rattle.atspi_whole_tree.specs.Whole.{IsAppTree, StepCanBe, first_app_tree, row_in, shape_in, tree_after};

use crate::doing::{do_step, remove};
use crate::held::Held;
use crate::reading::{caret_at, text_at};
use atspi_base::{NoMemory, Text};
use atspi_faces::face::Face;
use atspi_faces::{Deeds, GapText, Grid};
use atspi_tree::Tree;
use atspi_tree_model::Step;
use std::alloc::Global;
use std::marker::Model;

/// The tree of an application with the contents of its nodes. Contracts see the rows in their places, and how many
/// nodes were ever added.
#[derive(Drop)]
pub struct WholeTree {
    alloc: Global,
    held: Held,
}

impl Model for WholeTree {
    ghost use Rattle.atspi_app_exported.specs.Parts.{IsExported};
    ghost use Rattle.atspi_whole_tree.specs.Whole.{AppTree, app_tree_code};
    ghost use Rattle.atspi_whole_tree.specs.inner.Tables.{parts_of, own_kinds, app_tree_of};

    ghost Value = { AppTree };

    ghost coded = { app_tree_code };

    ghost view = { λ w. app_tree_of (parts_of w.held) };

    ghost invariant = { λ w. IsExported own_kinds (parts_of w.held) };
}

impl WholeTree {
    /// The root alone, with the application's name.
    pub fn new(alloc: Global, name: Text) -> Result<WholeTree, NoMemory>
        requires { IsName name }
        ensures { IfOk result (λ w. w ≡ first_app_tree name) }
    {
        let tree = Tree::new(alloc, name)?;
        let chars = GapText::new(alloc);
        let grid = Grid::new(alloc);
        let deeds = Deeds::new(alloc);
        let held = Held {
            tree,
            chars,
            grid,
            deeds,
        };
        Ok(WholeTree { alloc, held })
    }

    /// The shape: all but the contents of the nodes.
    pub fn tree(&self) -> &Tree
        ensures shape { result.now ≡ shape_in self.now }
        ensures lawful { IsAppTree self.now }
    {
        &self.held.tree
    }

    /// Does a step that applies. After want of memory all is as before. A text costs what is put in or taken out, and
    /// the way there from the last change; a removal costs the nodes that go.
    pub fn apply(&mut self, step: &Step) -> Result<(), NoMemory>
        requires { StepCanBe self.old step.now }
        ensures ok { OnOk result (self.new ≡ tree_after self.old step.now) }
        ensures err { OnErr result (self.new ≡ self.old) }
    {
        do_step(self.alloc, &mut self.held, step)
    }

    /// A node that can be removed goes, with all that is below it. Takes no memory.
    pub fn take_out(&mut self, node: u32)
        requires { StepCanBe self.old (Remove node) }
        ensures { self.new ≡ tree_after self.old (Remove node) }
    {
        remove(&mut self.held, node);
    }

    /// The text of a node, where it has one.
    pub fn text(&self, node: u32) -> Result<Option<Text>, NoMemory>
        requires { has (is_node node) self.now.forest ≡ true }
        ensures { IfOk result
            (λ text. option_map (λ row. characters_of row.contents.text) (row_in node self.now) ≡ Some text) }
    {
        let kinds = self.held.tree.kinds(node);
        if !kinds.text {
            return Ok(None);
        }
        Ok(Some(text_at(&self.held.chars, node)?))
    }

    /// The caret of a node's text, where it has one.
    pub fn caret(&self, node: u32) -> Option<u32>
        requires { has (is_node node) self.now.forest ≡ true }
        ensures { option_map (λ row. caret_of row.contents.text) (row_in node self.now) ≡ Some result }
    {
        let kinds = self.held.tree.kinds(node);
        if !kinds.text {
            return None;
        }
        Some(caret_at(&self.held.chars, node))
    }

    /// How many columns a node has, where it is a table.
    pub fn columns(&self, node: u32) -> Option<u32>
        requires { has (is_node node) self.now.forest ≡ true }
        ensures { option_map (λ row. row.contents.columns) (row_in node self.now) ≡ Some result }
    {
        let kinds = self.held.tree.kinds(node);
        if !kinds.table {
            return None;
        }
        Some(self.held.grid.count(node))
    }
}
