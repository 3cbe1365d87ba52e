//! The rectangles of nodes.

ghost use Rattle.std.specs.Prelude.{◌≡◌, true, OnOk, OnErr};
ghost use Rattle.std.specs.FinMap as fin_map;
ghost use Rattle.atspi_tree_model.specs.Forest.{has};
ghost use Rattle.atspi_tree_model.specs.Tree.{is_shape};
ghost use Rattle.atspi_hit.specs.Places.{rect_at, without_subtree};

use crate::rect::Rect;
use atspi_base::NoMemory;
use atspi_tree::Tree;
use std::alloc::Global;
use std::collections::BTreeMap;
use std::marker::Model;

/// The rectangle of each node that is placed, by the node's number; contracts see a finite map.
#[derive(Drop)]
pub struct Layout {
    rects: BTreeMap<u32, Rect>,
}

impl Model for Layout {
    ghost use Rattle.std.specs.Coded.{coded_ℕ};
    ghost use Rattle.std.specs.FinMap as fin_map;
    ghost use Rattle.atspi_hit.specs.Places.{Places};
    ghost use Rattle.atspi_hit.specs.contracts.rect.Rect as rect;

    ghost Value = { Places };

    ghost coded = { fin_map.code coded_ℕ rect.the_row.coded };

    ghost view = { λ l. fin_map.from_entries l.rects.entries };
}

impl Layout {
    /// No node is placed.
    pub fn new(alloc: Global) -> Layout
        ensures { result ≡ fin_map.empty }
    {
        Layout {
            rects: BTreeMap::new(alloc),
        }
    }

    /// A node has this rectangle from now on, and all else stays. Costs a look-up. After want of memory all is as
    /// before.
    pub fn place(&mut self, node: u32, rect: Rect) -> Result<(), NoMemory>
        ensures ok { OnOk result (self.new ≡ fin_map.insert self.old node rect) }
        ensures err { OnErr result (self.new ≡ self.old) }
    {
        self.rects.insert(node, rect)?;
        Ok(())
    }

    /// A node is no longer placed. Takes no memory, and costs a look-up.
    pub fn drop_node(&mut self, node: u32)
        ensures { self.new ≡ fin_map.remove self.old node }
    {
        self.rects.remove(&node);
    }

    /// A node that is in the tree, and all nodes below it, are no longer placed. Takes no memory, and costs these
    /// nodes.
    pub fn drop_subtree(&mut self, tree: &Tree, node: u32)
        requires { has (is_shape node) tree.now.rows ≡ true }
        ensures { self.new ≡ without_subtree tree.now node self.old }
    {
        tree.is_lawful();
        self.drop_node(node);
        let mut walk = tree.seats_below(node);
        while let Some(seat) = walk.next() {
            self.drop_node(seat.node);
        }
    }

    /// The rectangle of a node, four zeros where it is not placed.
    pub fn rect(&self, node: u32) -> Rect
        ensures { result ≡ rect_at self.now node }
    {
        match self.rects.get(&node) {
            Some(rect) => *rect,
            None => Rect {
                x: 0,
                y: 0,
                w: 0,
                h: 0,
            },
        }
    }
}
