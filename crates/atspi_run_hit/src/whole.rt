//! A whole tree to which edits can be done.

ghost use Rattle.std.specs.Prelude.{◌≡◌, IfOk};
ghost use Rattle.atspi_tree_model.specs.Edits.{IsEdit};
ghost use Rattle.atspi_tree_model.specs.Row.{IsName};
ghost use Rattle.atspi_run_hit.specs.Wholes.{WholeTree, begins, columns_of, shape};
ghost use Rattle.atspi_run_hit.specs.inner.Seen.{EditsTree};

use atspi_base::{NoMemory, Text};
use atspi_tree::Tree;
use atspi_tree_edits::EditRefused;
use atspi_tree_model::Edit;
use std::alloc::Global;

/// A whole tree to which edits can be done: its shape, and the contents of its nodes, which lie in what it was made
/// with, a kit. It is seen as `tree_of` says, and `is_whole` holds of it at any time.
pub trait Whole: Drop {
    type Kit: Drop;

    ghost is_whole: { Self → Type 0 };

    ghost tree_of: { Self → WholeTree };

    ghost is_kit: { Self.Kit → Type 0 };

    /// The root alone, over an empty kit.
    fn new(alloc: Global, name: Text, kit: Self::Kit) -> Result<Self, NoMemory>
        requires name { IsName name }
        requires kit { is_kit kit }
        ensures whole { IfOk result (λ whole. is_whole whole) }
        ensures begins { IfOk result (λ whole. tree_of whole ≡ begins name) };

    /// Its shape.
    fn tree(&self) -> &Tree
        ensures { result.now ≡ shape (tree_of self.now) };

    /// How many columns a node's table has; 0 where it has none.
    fn columns(&self, node: u32) -> u32
        requires { is_whole self.now }
        ensures { result ≡ columns_of (tree_of self.now) node };

    /// Does an edit, or refuses it for the first reason that holds.
    fn edit(&mut self, alloc: Global, edit: &Edit) -> Result<(), EditRefused>
        requires lawful { IsEdit edit.now }
        requires whole { is_whole self.old }
        ensures whole { is_whole self.new }
        ensures exact { EditsTree result (tree_of self.old) edit.now (tree_of self.new) };
}
