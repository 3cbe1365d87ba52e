//! Rooms: a tree, and where its nodes stand.

use crate::edits::made;
use atspi_hit::{Layout, Rect, at_point};
use atspi_tree::Tree;
use std::alloc::Global;
use std::test::*;

/// A tree, and where its nodes stand.
#[derive(Drop)]
pub(crate) struct Room {
    pub(crate) tree: Tree,
    pub(crate) layout: Layout,
}

impl Room {
    /// The tree that these edits make, with no node placed.
    pub(crate) fn of(alloc: Global, edits: &str) -> Option<Room> {
        let tree = made(alloc, edits)?;
        Some(Room {
            tree,
            layout: Layout::new(alloc),
        })
    }

    /// A node stands in a square.
    pub(crate) fn square(&mut self, node: u32, x: i32, y: i32, size: u32) -> Option<()> {
        let rect = Rect {
            x,
            y,
            w: size,
            h: size,
        };
        self.layout.place(node, rect).ok()
    }

    /// The node at a point, of those at and below a node.
    pub(crate) fn at(&self, from: u32, x: i32, y: i32) -> Option<u32> {
        if !self.tree.has(from) {
            return None;
        }
        at_point(&self.tree, &self.layout, from, x, y)
    }

    /// A node and all below it are no longer placed.
    fn clear(&mut self, node: u32) {
        if self.tree.has(node) {
            self.layout.drop_subtree(&self.tree, node);
        }
    }
}

/// A panel with two buttons, of which the second lies over the first, and below the first a mark outside of it.
const PANEL: &str =
    "insert 0 0 panel \"P\"; insert 1 0 push-button \"A\"; insert 1 1 push-button \"B\"; \
insert 2 0 label \"C\"";

/// The room of these nodes.
fn panel(alloc: Global) -> Option<Room> {
    let mut room = Room::of(alloc, PANEL)?;
    room.square(0, 0, 0, 100)?;
    room.square(1, 10, 10, 50)?;
    room.square(2, 10, 10, 30)?;
    room.square(3, 20, 20, 30)?;
    room.square(4, 80, 80, 5)?;
    Some(room)
}

/// Of nodes that cover a point the last in preorder is at it, and a node outside its parent is at none.
#[test]
fn the_last_that_covers(rt: HostRuntime) {
    let room = panel(rt.alloc()).expect(&rt, "memory");
    assert!(rt; room.at(0, 25, 25) == Some(3));
    assert!(rt; room.at(0, 15, 15) == Some(2));
    assert!(rt; room.at(0, 59, 59) == Some(1));
    assert!(rt; room.at(0, 60, 60) == Some(0));
    assert!(rt; room.at(0, 100, 0) == None);
    assert!(rt; room.at(0, -1, 0) == None);
    assert!(rt; room.at(0, 82, 82) == Some(0));
    assert!(rt; room.at(4, 82, 82) == Some(4));
    assert!(rt; room.at(2, 25, 25) == Some(2));
    assert!(rt; room.at(3, 15, 15) == None);
}

/// A node that is no longer placed is at no point, and neither is what is below it; what is dropped is dropped alone.
#[test]
fn dropped(rt: HostRuntime) {
    let mut room = panel(rt.alloc()).expect(&rt, "memory");
    room.layout.drop_node(3);
    assert!(rt; room.at(0, 25, 25) == Some(2));
    room.clear(2);
    assert!(rt; room.at(0, 25, 25) == Some(1));
    assert!(rt; room.layout.rect(4).w == 0);
    assert!(rt; room.layout.rect(1).w == 50);
    room.square(2, 20, 20, 6).expect(&rt, "memory");
    assert!(rt; room.at(0, 25, 25) == Some(2));
    assert!(rt; room.at(0, 26, 25) == Some(1));
}

/// Edges at the ends of the numbers.
#[test]
fn far_away(rt: HostRuntime) {
    let mut room = Room::of(rt.alloc(), "insert 0 0 panel \"P\"").expect(&rt, "memory");
    room.square(0, i32::MIN, i32::MIN, u32::MAX)
        .expect(&rt, "memory");
    assert!(rt; room.at(0, i32::MIN, 0) == Some(0));
    assert!(rt; room.at(0, i32::MAX, 0) == None);
    assert!(rt; room.at(0, 2_147_483_646, 0) == Some(0));
    room.square(0, i32::MAX, i32::MAX, u32::MAX)
        .expect(&rt, "memory");
    assert!(rt; room.at(0, i32::MAX, i32::MAX) == Some(0));
}
