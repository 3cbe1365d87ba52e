//! The tables of a whole tree: its shape, and the texts, columns and actions of its nodes.

use atspi_faces::{Deeds, GapText, Grid};
use atspi_tree::Tree;

/// The parts of a whole tree.
#[derive(Drop)]
pub(crate) struct Held {
    pub tree: Tree,
    pub chars: GapText,
    pub grid: Grid,
    pub deeds: Deeds,
}
