//! A box of any face is a face, so that what is generic in its face takes a box too.

ghost use Rattle.atspi_faces.specs.face.Boxes.{box_number};

use crate::face::{Change, Face};
use atspi_base::{Marks, NoMemory, Text};
use atspi_tree_model::{FaceData, FaceKind};

impl Face for Box<dyn Face> {
    ghost of_kind = { λ b. (Face-box b).of_kind b.value };

    ghost number = { λ b. box_number b };

    ghost nodes = { λ b. (Face-box b).nodes b.value };

    fn kind(&self) -> FaceKind {
        (**self).kind()
    }

    fn put_node(&mut self, node: u32, what: FaceData) -> Result<(), FaceData> {
        (**self).put_node(node, what)
    }

    fn drop_node(&mut self, node: u32) {
        (**self).drop_node(node);
    }

    fn next_node(&self, from: u32) -> Option<u32> {
        (**self).next_node(from)
    }

    fn count(&self, node: u32) -> u32 {
        (**self).count(node)
    }

    fn caret(&self, node: u32) -> u32 {
        (**self).caret(node)
    }

    fn part(&self, node: u32, from: u32, to: u32) -> Result<Text, NoMemory> {
        (**self).part(node, from, to)
    }

    fn marks(&self, node: u32) -> Result<Marks, NoMemory> {
        (**self).marks(node)
    }

    fn change(&mut self, node: u32, what: &Change) -> Result<(), NoMemory> {
        (**self).change(node, what)
    }
}
