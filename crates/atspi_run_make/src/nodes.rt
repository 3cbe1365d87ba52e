//! The nodes of a tree, by rising number.

ghost use Rattle.std.specs.Prelude.{◌≡◌, ◌++◌, ◌+◌, OnOk, OnErr, true};
ghost use Rattle.atspi_tree_model.specs.Forest.{has};
ghost use Rattle.atspi_tree_model.specs.RowRules.{shapes};
ghost use Rattle.atspi_tree_model.specs.Tree.{in_subtree, is_shape};
ghost use Rattle.atspi_tree.specs.TreeShape.{IsLawful, TreeShape};
ghost use Rattle.atspi_run_make.specs.Drawing.{live_nodes};
ghost use Rattle.atspi_run_make.specs.Live.{CanFollow, live_from};

use atspi_base::NoMemory;
use atspi_tree::Tree;
use std::alloc::Global;

/// The numbers of the nodes of a tree that changes, rising, as they were when the tree was last looked at.
#[derive(Drop)]
pub struct LiveNodes {
    nodes: Vec<u32>,
    /// The numbers below this one were looked at.
    next: u64,
}

/// Appends the numbers of the nodes that are there, from one on. After want of memory none was appended.
fn push_from(nodes: &mut Vec<u32>, tree: &Tree, first: u32) -> Result<(), NoMemory>
    ensures ok { OnOk result (nodes.new.items ≡ nodes.old.items ++ live_from first tree.now) }
    ensures err { OnErr result (nodes.new.items ≡ nodes.old.items) }
{
    let len = nodes.len();
    let mut from = first;
    while let Some(node) = tree.next_node(from) {
        if nodes.push(node).is_err() {
            nodes.truncate(len);
            return Err(NoMemory);
        }
        match node.checked_add(1) {
            Some(next) => from = next,
            None => return Ok(()),
        }
    }
    Ok(())
}

impl LiveNodes {
    /// No tree was looked at: any can be followed.
    pub fn new(alloc: Global) -> LiveNodes
        ensures { (t : TreeShape) → CanFollow result.nodes.items result.next t }
    {
        LiveNodes {
            nodes: Vec::new(alloc),
            next: 0,
        }
    }

    /// The numbers.
    pub fn as_slice(&self) -> &[u32]
        ensures { result.now ≡ self.now.nodes.items }
    {
        &self.nodes
    }

    /// Appends the nodes that were not looked at.
    fn look(&mut self, tree: &Tree) -> Result<(), NoMemory>
        ensures ok { OnOk result (self.new.nodes.items ≡ self.old.nodes.items ++ live_from self.old.next tree.now) }
        ensures seen { OnOk result (self.new.next ≡ tree.now.added + 1) }
        ensures err { OnErr result (self.new.nodes.items ≡ self.old.nodes.items) }
        ensures err_seen { OnErr result (self.new.next ≡ self.old.next) }
    {
        if self.next <= u64::from(tree.made()) {
            push_from(&mut self.nodes, tree, self.next as u32)?;
        }
        self.next = u64::from(tree.made()) + 1;
        Ok(())
    }

    /// Looks at the tree again, to which no node came back since. New nodes have the greatest numbers, so this costs
    /// the nodes that were added, and all nodes only where some were removed. After want of memory it can be asked
    /// again.
    pub fn follow(&mut self, tree: &Tree) -> Result<(), NoMemory>
        requires { CanFollow self.old.nodes.items self.old.next tree.now }
        ensures live { OnOk result (self.new.nodes.items ≡ live_nodes tree.now) }
        ensures seen { OnOk result (self.new.next ≡ tree.now.added + 1) }
        ensures err { OnErr result (CanFollow self.new.nodes.items self.new.next tree.now) }
    {
        self.look(tree)?;
        if self.nodes.len() == tree.len() as usize {
            return Ok(());
        }
        self.nodes.clear();
        self.next = 0;
        self.look(tree)
    }
}

/// Whether a node is this one, or below it. Looks at the nodes from it up to that one, or to the root.
pub(crate) fn is_below(tree: &Tree, top: u32, node: u32) -> bool
    requires there { has (is_shape node) tree.now.rows ≡ true }
    requires top_there { has (is_shape top) tree.now.rows ≡ true }
    requires lawful { IsLawful tree.now }
    ensures { result ≡ in_subtree shapes top tree.now.rows node }
{
    let mut at = node;
    while at != top {
        match tree.parent(at) {
            Some(parent) => at = parent,
            None => return false,
        }
    }
    true
}
