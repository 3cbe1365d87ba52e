//! A deep tree and a wide one.

use crate::edits::take;
use crate::rooms::Room;
use std::alloc::Global;
use std::test::*;

/// So many nodes.
const COUNT: u32 = 600;

/// A room of so many squares, each in the one before it.
fn deep(alloc: Global) -> Option<Room> {
    let mut room = Room::of(alloc, "insert 0 0 panel \"\"")?;
    room.square(0, 0, 0, 100)?;
    for node in 1..COUNT {
        room.square(node, 0, 0, 100)?;
        let words = format!(in alloc; "insert {node} 0 panel \"\"").ok()?;
        take(alloc, &mut room.tree, words.as_str())?;
    }
    room.square(COUNT, 0, 0, 100)?;
    Some(room)
}

/// A room of so many squares side by side.
fn wide(alloc: Global) -> Option<Room> {
    let mut room = Room::of(alloc, "insert 0 0 panel \"\"")?;
    room.square(0, 0, 0, 10_000)?;
    for node in 1..COUNT {
        room.square(node, node as i32, 0, 1)?;
        take(alloc, &mut room.tree, "insert 0 0 panel \"\"")?;
    }
    Some(room)
}

/// The lowest of nested squares is at a point, or the last above one that does not cover it.
#[test]
fn nested(rt: HostRuntime) {
    let mut room = deep(rt.alloc()).expect(&rt, "memory");
    assert!(rt; room.at(0, 50, 50) == Some(COUNT));
    assert!(rt; room.at(0, 100, 50) == None);
    room.layout.drop_node(300);
    assert!(rt; room.at(0, 50, 50) == Some(299));
    assert!(rt; room.at(301, 50, 50) == Some(COUNT));
}

/// Of squares side by side the one at the point is told, or their parent.
#[test]
fn beside_each_other(rt: HostRuntime) {
    let room = wide(rt.alloc()).expect(&rt, "memory");
    for node in 1..COUNT {
        assert!(rt; room.at(0, node as i32, 0) == Some(node));
    }
    assert!(rt; room.at(0, 0, 0) == Some(0));
    assert!(rt; room.at(0, 5, 1) == Some(0));
}
