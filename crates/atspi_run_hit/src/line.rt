//! A line of the input of `hit`.

use atspi_base::Text;
use atspi_hit::{Rect, Way};
use atspi_hit_answers::Ask;
use atspi_tree_model::Edit;

/// The furthest a corner of a rectangle lies from the origin, on either axis.
pub const CORNER_LIMIT: u32 = 1_000_000;

/// The largest width and the largest height of a rectangle.
pub const SIZE_LIMIT: u32 = 1_000_000;

/// What a line asks for.
#[derive(Drop)]
pub enum HitLine {
    /// An empty line or a comment.
    Nothing,
    /// The application starts, with the name of its root.
    App(Text),
    Edit(Edit),
    /// A node stands in this rectangle from now on.
    Place { node: u32, rect: Rect },
    /// A call of Component is answered.
    Call { node: u32, ask: Ask },
    /// The cell beside a cell of a table is told.
    Cell { node: u32, index: u32, way: Way },
    /// The targets of a node's relation are told.
    Follow { node: u32, kind: u32 },
}
