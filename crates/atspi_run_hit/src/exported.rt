//! The tree that an application exports, as `hit` keeps it: its shape, and the contents of its nodes in boxes.

ghost use Rattle.std.specs.Prelude.{◌≡◌, true};
ghost use Rattle.atspi_tree_model.specs.Forest.{has};
ghost use Rattle.atspi_tree_model.specs.Tree.{is_shape};
ghost use Rattle.atspi_app_exported.specs.Boxed.{IsExportedIn, parts_in};
ghost use Rattle.atspi_app_exported.specs.Parts.{AreEmpty, AreKinds, faces_of, kinds_of};
ghost use Rattle.atspi_run_hit.specs.Wholes.{columns_of};
ghost use Rattle.atspi_run_hit.specs.inner.Seen.{whole_in};

use crate::whole::Whole;
use atspi_app_exported::{Exported, Exports, Kit};
use atspi_base::{NoMemory, Text};
use atspi_faces::face::Face;
use atspi_tree::Tree;
use atspi_tree_edits::EditRefused;
use atspi_tree_model::Edit;
use std::alloc::Global;

/// How many columns the table of a node has that is there; 0 where it has none.
fn columns_there(exported: &Exported, node: u32) -> u32
    requires there { has (is_shape node) (⟦<Exported as Exports>⟧.parts exported.now).tree.rows ≡ true }
    requires exported { ⟦<Exported as Exports>⟧.is_exported exported.now }
    ensures { result ≡ columns_of (whole_in (⟦<Exported as Exports>⟧.parts exported.now)) node }
{
    let tree = Exported::tree(exported);
    if tree.kinds(node).table {
        return exported.grid().count(node);
    }
    0
}

/// The boxes of a kit that keep nothing yet. What holds of them can be said here of a struct of this crate alone.
#[derive(Drop)]
pub struct EmptyBoxes {
    pub chars: Box<dyn Face>,
    pub grid: Box<dyn Face>,
    pub deeds: Box<dyn Face>,
}

impl Whole for Exported {
    type Kit = EmptyBoxes;

    ghost is_whole = { IsExportedIn (λ box. (Face-box box).of_kind box.value) (λ box. (Face-box box).nodes box.value) };

    ghost tree_of = { λ e. whole_in (parts_in (λ box. (Face-box box).nodes box.value) e) };

    ghost is_kit = { λ kit. AreKinds
        (kinds_of ((Face-box kit.chars).of_kind kit.chars.value) ((Face-box kit.grid).of_kind kit.grid.value)
        ((Face-box kit.deeds).of_kind kit.deeds.value))
        × AreEmpty
        (faces_of ((Face-box kit.chars).nodes kit.chars.value) ((Face-box kit.grid).nodes kit.grid.value)
        ((Face-box kit.deeds).nodes kit.deeds.value)) };

    fn new(alloc: Global, name: Text, kit: EmptyBoxes) -> Result<Exported, NoMemory> {
        let EmptyBoxes { chars, grid, deeds } = kit;
        match Exported::new(alloc, name, Kit { chars, grid, deeds }) {
            Ok(exported) => Ok(exported),
            Err(_) => Err(NoMemory),
        }
    }

    fn tree(&self) -> &Tree {
        Exported::tree(self)
    }

    fn columns(&self, node: u32) -> u32 {
        if Exported::tree(self).has(node) {
            return columns_there(self, node);
        }
        0
    }

    fn edit(&mut self, alloc: Global, edit: &Edit) -> Result<(), EditRefused> {
        match self.steps(alloc, edit) {
            Ok(steps) => match self.apply_all(&steps) {
                Ok(()) => Ok(()),
                Err(_) => Err(EditRefused::NoMemory),
            },
            Err(fault) => Err(fault),
        }
    }
}
