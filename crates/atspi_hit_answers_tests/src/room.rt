//! A room: a panel with two buttons, of which the second lies over the first, in an application with the name `:1.1`.

use crate::edits::made;
use atspi_base::Text;
use atspi_hit::{Layout, Rect};
use atspi_tree::Tree;
use std::alloc::Global;

/// A tree, where its nodes stand, and the name of the application.
#[derive(Drop)]
pub(crate) struct Room {
    pub(crate) tree: Tree,
    pub(crate) layout: Layout,
    pub(crate) name: Text,
}

impl Room {
    /// A node stands in a square.
    fn square(&mut self, node: u32, corner: i32, size: u32) -> Option<()> {
        let rect = Rect {
            x: corner,
            y: corner,
            w: size,
            h: size,
        };
        self.layout.place(node, rect).ok()
    }
}

/// The room of the worked rows.
pub(crate) fn worked(alloc: Global) -> Option<Room> {
    let edits =
        "insert 0 0 panel \"P\"; insert 1 0 push-button \"A\"; insert 1 1 push-button \"B\"";
    let tree = made(alloc, edits)?;
    let mut room = Room {
        tree,
        layout: Layout::new(alloc),
        name: Text::read(alloc, b":1.1").ok()?,
    };
    room.square(0, 0, 100)?;
    room.square(1, 10, 50)?;
    room.square(2, 10, 30)?;
    room.square(3, 20, 30)?;
    Some(room)
}
