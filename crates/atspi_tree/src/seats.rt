//! A walk over the nodes of a tree in preorder, each with its place.

ghost use Rattle.std.specs.Prelude.{◌≡◌, ◌≤◌, ◌+◌, ◌∷◌, [], true, length, MatchOption, slice_get};
ghost use Rattle.std.specs.Iterator.{YieldsFirst, item_count};
ghost use Rattle.atspi_tree_model.specs.Forest.{has};
ghost use Rattle.atspi_tree_model.specs.Tree.{is_shape};
ghost use Rattle.atspi_tree.specs.Seats.{AreThere, levels_left, seats_below, seats_in};
ghost use Rattle.atspi_tree.specs.TreeShape.{children_of};

use crate::levels::Levels;
use crate::tree::Tree;
use std::marker::Model;

/// Where a node stands.
#[derive(Clone, Copy, Debug, PartialEq, Eq)]
pub struct Seat {
    pub node: u32,
    /// None for the root.
    pub parent: Option<u32>,
    /// The index among the parent's children.
    pub index: u32,
}

/// The nodes that a walk has still to give: contracts see their places, in order. Each node is looked at once, and each
/// of its children once more. Takes no memory.
#[derive(Drop)]
pub struct Seats<'t> {
    tree: &'t Tree,
    /// The root, until it is given.
    first: Option<Seat>,
    levels: Levels,
}

impl<'t> Model for Seats<'t> {
    ghost use Rattle.std.specs.Prelude.{List};
    ghost use Rattle.std.specs.Coded.{coded_list};
    ghost use Rattle.atspi_tree.specs.contracts.seats.Seat as seat;
    ghost use Rattle.atspi_tree.specs.declared.seats.Seat.{Seat};
    ghost use Rattle.atspi_tree.specs.Seats.{IsWalk, walk_left};

    ghost Value = { List Seat };

    ghost coded = { coded_list seat.the_row.coded };

    ghost view = { λ w. walk_left w.tree.now w.first w.levels };

    ghost invariant = { λ w. IsWalk w.tree.now w.first w.levels };
}

impl<'t> Iterator for Seats<'t> {
    type Item = Seat;

    ghost next_gives = { YieldsFirst (λ s. s) };

    ghost remaining = { item_count (λ s. s) };

    fn next(&mut self) -> Option<Seat> {
        self.tree.is_lawful();
        match self.first.take() {
            Some(seat) => {
                self.levels.push(seat.node, 0);
                Some(seat)
            }
            None => step(self.tree, &mut self.levels),
        }
    }
}

impl Tree {
    /// All nodes in preorder, each with its place.
    pub fn seats(&self) -> Seats<'_>
        ensures { result ≡ seats_in self.now }
    {
        self.is_lawful();
        let root = Seat {
            node: 0,
            parent: None,
            index: 0,
        };
        Seats {
            tree: self,
            first: Some(root),
            levels: Levels::new(),
        }
    }

    /// The nodes below a node, in preorder, each with its place.
    pub fn seats_below(&self, node: u32) -> Seats<'_>
        requires { has (is_shape node) self.now.rows ≡ true }
        ensures { result ≡ seats_below node self.now }
    {
        self.is_lawful();
        let mut levels = Levels::new();
        levels.push(node, 0);
        Seats {
            tree: self,
            first: None,
            levels,
        }
    }
}

/// The child at an index.
fn child_at(tree: &Tree, node: u32, index: u32) -> Option<u32>
    requires { has (is_shape node) tree.now.rows ≡ true }
    ensures { result ≡ slice_get (children_of node tree.now) index }
{
    tree.children(node).get(index as usize).copied()
}

/// The next place on the lowest level that has one. Levels without one are left.
fn step(tree: &Tree, levels: &mut Levels) -> Option<Seat>
    requires there { AreThere tree.now levels.old }
    requires room { length levels.old + length (levels_left tree.now levels.old) ≤ 8192 }
    ensures next { MatchOption result ((levels_left tree.now levels.old ≡ []) × (levels_left tree.now levels.new ≡ []))
        (λ seat. levels_left tree.now levels.old ≡ seat ∷ levels_left tree.now levels.new) }
    ensures there { AreThere tree.now levels.new }
    ensures room { length levels.new + length (levels_left tree.now levels.new) ≤ 8192 }
{
    tree.is_lawful();
    while let Some((node, index)) = levels.pop() {
        if let Some(child) = child_at(tree, node, index) {
            levels.push(node, index + 1);
            levels.push(child, 0);
            return Some(Seat {
                node: child,
                parent: Some(node),
                index,
            });
        }
    }
    None
}
