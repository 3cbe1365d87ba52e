//! A view as a plain list: its nodes in preorder, each with its depth.

use std::alloc::Global;

/// A node and its depth.
pub(crate) type Node = (u32, u32);

/// The root alone.
pub(crate) fn root(alloc: Global) -> Option<Vec<Node>> {
    let mut nodes = Vec::new(alloc);
    nodes.push((0, 0)).ok()?;
    Some(nodes)
}

/// Whether each node of a list is a node or stands below it, or is not.
fn marked(alloc: Global, nodes: &[Node], node: u32) -> Option<Vec<bool>> {
    let mut marks = Vec::new(alloc);
    let mut top = u32::MAX;
    for (other, depth) in nodes {
        if *other == node {
            top = *depth;
        } else if *depth <= top {
            top = u32::MAX;
        }
        marks.push(top != u32::MAX).ok()?;
    }
    Some(marks)
}

/// The nodes without one and all below it.
pub(crate) fn without(alloc: Global, nodes: &[Node], node: u32) -> Option<Vec<Node>> {
    let marks = marked(alloc, nodes, node)?;
    let mut kept = Vec::new(alloc);
    for (entry, is_below) in nodes.iter().zip(marks.iter()) {
        if !*is_below {
            kept.push(*entry).ok()?;
        }
    }
    Some(kept)
}

/// The depth of a node; 0 where it is not there.
fn depth_of(nodes: &[Node], node: u32) -> u32 {
    for (other, depth) in nodes {
        if *other == node {
            return *depth;
        }
    }
    0
}

/// A node and all below it, with their depths below it; the node alone where it is not there.
fn part(alloc: Global, nodes: &[Node], node: u32) -> Option<Vec<Node>> {
    let marks = marked(alloc, nodes, node)?;
    let top = depth_of(nodes, node);
    let mut kept = Vec::new(alloc);
    for ((other, depth), is_below) in nodes.iter().zip(marks.iter()) {
        if *is_below {
            kept.push((*other, depth.saturating_sub(top))).ok()?;
        }
    }
    if kept.is_empty() {
        kept.push((node, 0)).ok()?;
    }
    Some(kept)
}

/// The place of a node in the list.
fn place_of(nodes: &[Node], node: u32) -> Option<usize> {
    nodes.iter().position(|entry| entry.0 == node)
}

/// The place in the list of the child of an index below the node at a place, or where all below that node end.
fn seat(nodes: &[Node], place: usize, index: i32) -> usize {
    let Some((_, top)) = nodes.get(place) else {
        return nodes.len();
    };
    let mut before = 0i32;
    for (at, (_, depth)) in nodes.iter().enumerate().skip(place + 1) {
        if *depth <= *top {
            return at;
        }
        if *depth == top.saturating_add(1) {
            if before == index {
                return at;
            }
            before = before.saturating_add(1);
        }
    }
    nodes.len()
}

/// Appends nodes at a depth.
fn push_all(list: &mut Vec<Node>, nodes: &[Node], depth: u32) -> Option<()> {
    for (node, below) in nodes {
        list.push((*node, depth.saturating_add(*below))).ok()?;
    }
    Some(())
}

/// The nodes with some put into the list at a place, at a depth.
fn with_put(
    alloc: Global,
    nodes: &[Node],
    seat: usize,
    put: &[Node],
    depth: u32,
) -> Option<Vec<Node>> {
    let (front, back) = nodes.split_at(seat.min(nodes.len()));
    let mut list = Vec::new(alloc);
    push_all(&mut list, front, 0)?;
    push_all(&mut list, put, depth)?;
    push_all(&mut list, back, 0)?;
    Some(list)
}

/// The nodes after an item of one below another, which is not below it.
fn put(
    alloc: Global,
    nodes: &[Node],
    others: &[Node],
    node: u32,
    place: usize,
    index: i32,
) -> Option<Vec<Node>> {
    let depth = match others.get(place) {
        Some((_, top)) => top.saturating_add(1),
        None => 0,
    };
    let part = part(alloc, nodes, node)?;
    with_put(alloc, others, seat(others, place, index), &part, depth)
}

/// The nodes after an item of one, which is not the root, below another. None for want of memory.
pub(crate) fn moved(
    alloc: Global,
    nodes: &[Node],
    node: u32,
    parent: u32,
    index: i32,
) -> Option<Vec<Node>> {
    let others = without(alloc, nodes, node)?;
    match place_of(&others, parent) {
        Some(place) => put(alloc, nodes, &others, node, place, index),
        None => nodes.to_vec(alloc).ok(),
    }
}

/// The parent of a node at a depth behind all of a list, and its index there.
fn seat_behind(nodes: &[Node], depth: u32) -> (u32, u32) {
    let mut parent = 0u32;
    let mut index = 0u32;
    for (node, other) in nodes {
        if other.saturating_add(1) == depth {
            parent = *node;
            index = 0;
        } else if *other == depth {
            index = index.saturating_add(1);
        }
    }
    (parent, index)
}

/// A node with the nodes before it: its name, but for the root `<` and its parent, and `@` and its index.
fn word_of(alloc: Global, before: &[Node], node: u32, depth: u32) -> Option<String> {
    if before.is_empty() {
        return format!(in alloc; " /n{node}@-1").ok();
    }
    let (parent, index) = seat_behind(before, depth);
    format!(in alloc; " /n{node}</n{parent}@{index}").ok()
}

/// The nodes as the rows of a cache are shown.
pub(crate) fn told(alloc: Global, nodes: &[Node]) -> Option<String> {
    let mut text = String::new(alloc);
    for (at, (node, depth)) in nodes.iter().enumerate() {
        let (before, _) = nodes.split_at(at.min(nodes.len()));
        let word = word_of(alloc, before, *node, *depth)?;
        text.push_str(word.as_str()).ok()?;
    }
    Some(text)
}
