//! A plain list of nodes, which the tests keep beside a tree.

use crate::drawn::Asked;
use atspi_tree::Tree;
use std::alloc::Global;

/// A node: its number, its parent and its role. The children of a node stand in their order in the list.
#[derive(Clone, Copy)]
struct Node {
    number: u32,
    parent: Option<u32>,
    role: u32,
}

/// The nodes, and the relations of kind 1 in their order: the node that has it, and its target.
#[derive(Drop)]
pub(crate) struct Plain {
    nodes: Vec<Node>,
    targets: Vec<(u32, u32)>,
}

/// Whether a node is one of these, or stands below one.
fn is_below(gone: &[u32], node: Node) -> bool {
    let above = match node.parent {
        Some(parent) => gone.contains(&parent),
        None => false,
    };
    above || gone.contains(&node.number)
}

/// These nodes, and those that have one of them as their parent.
fn with_children(alloc: Global, nodes: &[Node], gone: &[u32]) -> Option<Vec<u32>> {
    let mut all = Vec::new(alloc);
    for node in nodes {
        if is_below(gone, *node) {
            all.push(node.number).ok()?;
        }
    }
    Some(all)
}

/// A node with all that is below it.
fn subtree(alloc: Global, nodes: &[Node], node: u32) -> Option<Vec<u32>> {
    let mut gone = Vec::new(alloc);
    gone.push(node).ok()?;
    for _level in 0..nodes.len() {
        let more = with_children(alloc, nodes, &gone)?;
        if more.len() == gone.len() {
            break;
        }
        gone = more;
    }
    Some(gone)
}

/// Where in the list a node comes to stand as the child of an index.
fn seat(nodes: &[Node], parent: u32, index: u32) -> usize {
    let mut before = 0u32;
    for (at, node) in nodes.iter().enumerate() {
        if node.parent == Some(parent) {
            if before == index {
                return at;
            }
            before = before.saturating_add(1);
        }
    }
    nodes.len()
}

/// The place of a node in the list.
fn place_of(nodes: &[Node], number: u32) -> Option<usize> {
    nodes.iter().position(|node| node.number == number)
}

/// The role of a node.
fn role_of(nodes: &[Node], number: u32) -> Option<u32> {
    Some(nodes.get(place_of(nodes, number)?)?.role)
}

/// Whether these are the children of a node.
fn are_children(nodes: &[Node], parent: u32, children: &[u32]) -> bool {
    let mut left = children;
    for node in nodes {
        if node.parent == Some(parent) {
            let Some((first, others)) = left.split_first() else {
                return false;
            };
            if *first != node.number {
                return false;
            }
            left = others;
        }
    }
    left.is_empty()
}

/// Whether these are the relations of a node, all of kind 1.
fn are_relations(targets: &[(u32, u32)], number: u32, relations: &[(u32, u32)]) -> bool {
    let mut left = relations;
    for (node, target) in targets {
        if *node == number {
            let Some((first, others)) = left.split_first() else {
                return false;
            };
            if *first != (1, *target) {
                return false;
            }
            left = others;
        }
    }
    left.is_empty()
}

impl Plain {
    /// The root alone.
    pub(crate) fn new(alloc: Global) -> Option<Plain> {
        let mut nodes = Vec::new(alloc);
        let root = Node {
            number: 0,
            parent: None,
            role: 75,
        };
        nodes.push(root).ok()?;
        Some(Plain {
            nodes,
            targets: Vec::new(alloc),
        })
    }

    /// Puts a node among the children of another.
    fn hang(&mut self, number: u32, parent: u32, index: u32, role: u32) -> Option<()> {
        let node = Node {
            number,
            parent: Some(parent),
            role,
        };
        let at = seat(&self.nodes, parent, index).min(self.nodes.len());
        self.nodes.insert(at, node).ok()
    }

    /// Takes a node out of the list.
    fn unhang(&mut self, number: u32) {
        self.nodes.retain(|node| node.number != number);
    }

    /// Takes out a node with all below it, and the relations from and to these.
    fn remove(&mut self, alloc: Global, node: u32) -> Option<()> {
        let gone = subtree(alloc, &self.nodes, node)?;
        self.nodes.retain(|node| !gone.contains(&node.number));
        self.targets
            .retain(|pair| !gone.contains(&pair.0) && !gone.contains(&pair.1));
        Some(())
    }

    /// Puts a node with all below it elsewhere.
    fn shift(&mut self, node: u32, parent: u32, index: u32) -> Option<()> {
        let role = role_of(&self.nodes, node)?;
        self.unhang(node);
        self.hang(node, parent, index, role)
    }

    /// Gives a node another role.
    fn set_role(&mut self, number: u32, role: u32) -> Option<()> {
        let place = place_of(&self.nodes, number)?;
        self.nodes.get_mut(place)?.role = role;
        Some(())
    }

    /// One target more.
    fn relate(&mut self, node: u32, target: u32) -> Option<()> {
        if self.targets.contains(&(node, target)) {
            return Some(());
        }
        self.targets.push((node, target)).ok()
    }

    /// Does an edit that was not refused, after which so many nodes were made. None for want of memory.
    pub(crate) fn take(&mut self, alloc: Global, asked: Asked, made: u32) -> Option<()> {
        match asked.word {
            "insert" => self.hang(made, asked.first, asked.second, 39),
            "remove" => self.remove(alloc, asked.first),
            "move" => self.shift(asked.first, asked.second, asked.third),
            "relate" => self.relate(asked.first, asked.third),
            "unrelate" => {
                self.targets
                    .retain(|pair| *pair != (asked.first, asked.third));
                Some(())
            }
            _ => self.set_role(asked.first, asked.second),
        }
    }

    /// Whether a tree has a node in its place.
    fn is_node(&self, tree: &Tree, node: Node) -> bool {
        let n = node.number;
        tree.has(n)
            && tree.parent(n) == node.parent
            && tree.role(n) == node.role
            && are_children(&self.nodes, n, tree.children(n))
            && are_relations(&self.targets, n, tree.relations(n))
    }

    /// Whether a tree has just these nodes, each in its place.
    pub(crate) fn is(&self, tree: &Tree) -> bool {
        for node in &self.nodes {
            if !self.is_node(tree, *node) {
                return false;
            }
        }
        tree.len() as usize == self.nodes.len()
    }
}
