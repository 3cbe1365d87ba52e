//! Drawn rooms, beside a search over all their nodes.

use crate::edits::take;
use crate::rooms::Room;
use std::alloc::Global;
use std::test::*;

/// A number below a limit that is not 0, drawn from a state that goes on.
fn draw(state: &mut u64, below: u32) -> u32 {
    *state = state
        .wrapping_mul(6_364_136_223_846_793_005)
        .wrapping_add(1_442_695_040_888_963_407);
    ((*state >> 33) % u64::from(below.max(1))) as u32
}

/// A new node in a drawn square below a drawn node, and now and then hidden.
fn add(alloc: Global, state: &mut u64, room: &mut Room) -> Option<()> {
    let parent = draw(state, room.tree.made().saturating_add(1));
    let words = format!(in alloc; "insert {parent} 0 panel \"\"").ok()?;
    take(alloc, &mut room.tree, words.as_str())?;
    let node = room.tree.made();
    let x = i32::try_from(draw(state, 20)).ok()?;
    let y = i32::try_from(draw(state, 20)).ok()?;
    room.square(node, x, y, draw(state, 40))?;
    if draw(state, 8) == 0 {
        let words = format!(in alloc; "state {node} showing off").ok()?;
        take(alloc, &mut room.tree, words.as_str())?;
    }
    Some(())
}

/// Whether a number is among so many from the first on.
fn is_within(number: i32, first: i32, count: u32) -> bool {
    let distance = i64::from(number) - i64::from(first);
    0 <= distance && distance < i64::from(count)
}

/// Whether a node covers a point.
fn covers(room: &Room, node: u32, x: i32, y: i32) -> bool {
    let rect = room.layout.rect(node);
    room.tree.has(node)
        && (room.tree.states(node) >> 25) & 1 == 1
        && is_within(x, rect.x, rect.w)
        && is_within(y, rect.y, rect.h)
}

/// The last node in preorder that covers a point, as do its parent and all above: each node is looked at. None for want
/// of memory.
fn searched(alloc: Global, room: &Room, x: i32, y: i32) -> Option<Option<u32>> {
    let mut reached: Vec<u32> = Vec::new(alloc);
    let mut last = None;
    for seat in room.tree.seats() {
        let is_below = match seat.parent {
            Some(parent) => reached.contains(&parent),
            None => true,
        };
        if is_below && covers(room, seat.node, x, y) {
            reached.push(seat.node).ok()?;
            last = Some(seat.node);
        }
    }
    Some(last)
}

/// Where points are looked for, on either axis.
const PLACES: [i32; 12] = [0, 3, 6, 9, 12, 15, 18, 21, 24, 27, 30, 33];

/// How many points of a row of a room have what the search says; none for want of memory.
fn agreeing_in_row(alloc: Global, room: &Room, y: i32) -> Option<u32> {
    let mut same = 0u32;
    for x in &PLACES {
        if room.at(0, *x, y) == searched(alloc, room, *x, y)? {
            same = same.saturating_add(1);
        }
    }
    Some(same)
}

/// The same of all rows.
fn agreeing(alloc: Global, room: &Room) -> Option<u32> {
    let mut same = 0u32;
    for y in &PLACES {
        same = same.saturating_add(agreeing_in_row(alloc, room, *y)?);
    }
    Some(same)
}

/// In each of thirty rooms of thirty nodes all points have what a search over all nodes finds.
#[test]
fn thirty_rooms(rt: HostRuntime) {
    let mut state = 11u64;
    for number in 0..30 {
        let mut room = Room::of(rt.alloc(), "insert 0 0 panel \"\"").expect(&rt, "memory");
        room.square(0, 0, 0, 40).expect(&rt, "memory");
        for _ in 0..30 {
            add(rt.alloc(), &mut state, &mut room).expect(&rt, "memory");
        }
        let same = agreeing(rt.alloc(), &room).expect(&rt, "memory");
        assert!(rt; same == 144, "room {number}");
    }
}
