//! The boxes that keep the contents of nodes.

use atspi_faces::face::Face;

/// The boxes that keep the contents of nodes: texts, counts of columns, names of actions.
#[derive(Drop)]
pub struct Kit {
    pub chars: Box<dyn Face>,
    pub grid: Box<dyn Face>,
    pub deeds: Box<dyn Face>,
}
