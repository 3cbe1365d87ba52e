//! What an application exports. It holds boxes, so it has no model: it is seen by its parts, and what holds of it is
//! `IsExported`.

ghost use Rattle.std.specs.Prelude.{◌≡◌, IfOk, IfErr};
ghost use Rattle.atspi_tree_model.specs.Row.{IsName};
ghost use Rattle.atspi_tree_model.specs.RowRules.{rows};
ghost use Rattle.atspi_tree_model.specs.Tree.{first_tree};
ghost use Rattle.atspi_app_exported.specs.Parts.{AreEmpty, AreKinds, whole_of};

use crate::exports::{Boxes, Exports};
use crate::kit::Kit;
use atspi_base::Text;
use atspi_faces::face::Face;
use atspi_tree::Tree;
use std::alloc::Global;

/// The whole tree that an application exports: its shape, and the contents of its nodes in the boxes of a kit.
#[derive(Drop)]
pub struct Exported {
    pub(crate) alloc: Global,
    pub(crate) tree: Tree,
    pub(crate) kit: Kit,
}

impl Exported {
    /// The root alone, with this name, over three empty boxes of their kinds. `Err` is want of memory, and hands both
    /// back.
    pub fn new(alloc: Global, name: Text, kit: Kit) -> Result<Exported, (Text, Kit)>
        requires name { IsName name }
        requires kinds { AreKinds (⟦<Kit as Boxes>⟧.kinds kit) }
        requires empty { AreEmpty (⟦<Kit as Boxes>⟧.faces kit) }
        ensures exported { IfOk result (λ e. ⟦<Exported as Exports>⟧.is_exported e) }
        ensures root { IfOk result (λ e. whole_of (⟦<Exported as Exports>⟧.parts e) ≡ first_tree rows name) }
        ensures none_added { IfOk result (λ e. (⟦<Exported as Exports>⟧.parts e).tree.added ≡ 0) }
        ensures name_back { IfErr result (λ back. back.0 ≡ name) }
        ensures kinds_back { IfErr result (λ back. ⟦<Kit as Boxes>⟧.kinds back.1 ≡ ⟦<Kit as Boxes>⟧.kinds kit) }
        ensures empty_back { IfErr result (λ back. AreEmpty (⟦<Kit as Boxes>⟧.faces back.1)) }
    {
        let Ok(copy) = name.copy(alloc) else {
            return Err((name, kit));
        };
        match Tree::new(alloc, copy) {
            Ok(tree) => Ok(Exported { alloc, tree, kit }),
            Err(_) => Err((name, kit)),
        }
    }

    /// The shape.
    pub fn tree(&self) -> &Tree
        ensures { result.now ≡ (⟦<Exported as Exports>⟧.parts self.now).tree }
    {
        &self.tree
    }

    /// The face that keeps the texts.
    pub fn chars(&self) -> &Box<dyn Face>
        ensures nodes { nodes result.now ≡ (⟦<Exported as Exports>⟧.parts self.now).faces.chars }
        ensures kind { of_kind result.now ≡ (⟦<Exported as Exports>⟧.kinds self.now).chars }
    {
        &self.kit.chars
    }

    /// The face that keeps counts of columns.
    pub fn grid(&self) -> &Box<dyn Face>
        ensures nodes { nodes result.now ≡ (⟦<Exported as Exports>⟧.parts self.now).faces.grid }
        ensures kind { of_kind result.now ≡ (⟦<Exported as Exports>⟧.kinds self.now).grid }
    {
        &self.kit.grid
    }

    /// The face that keeps names of actions.
    pub fn deeds(&self) -> &Box<dyn Face>
        ensures nodes { nodes result.now ≡ (⟦<Exported as Exports>⟧.parts self.now).faces.deeds }
        ensures kind { of_kind result.now ≡ (⟦<Exported as Exports>⟧.kinds self.now).deeds }
    {
        &self.kit.deeds
    }
}
