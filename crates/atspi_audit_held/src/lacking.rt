//! The nodes that have a part which was not told, kept beside a tree.

ghost use Rattle.std.specs.Prelude.{◌≡◌, ◌∷◌, [], ◌++◌, ℕ, List, true, false, cond, not, ◌&&◌, IfOk, OnErr, OnOk};
ghost use Rattle.std.specs.Ordering.{nat_cmp};
ghost use Rattle.std.specs.BTreeMap.{is_at};
ghost use Rattle.std.specs.BTreeSet.{contains};
ghost use Rattle.atspi_tree_model.specs.Forest.{has, pick};
ghost use Rattle.atspi_tree_model.specs.Tree.{is_shape};
ghost use Rattle.atspi_protocol.specs.declared.news.part.PartName.{PartName};
ghost use Rattle.atspi_trace.specs.Causes.{told_in};
ghost use Rattle.atspi_audit_held.specs.Held.{Agrees, told_by, told_of};
ghost use Rattle.atspi_audit_held.specs.inner.Lacking.{AreMarks, Tells, lacks_at, no_parts};

use crate::known::{Known, NOTHING, is_lacking, known_with};
use crate::marks::Marks;
use atspi_app_calls::node_at;
use atspi_base::NoMemory;
use atspi_base::valid_names::Path;
use atspi_protocol::news::PartName;
use atspi_tree::Tree;
use std::alloc::Global;
use std::collections::{BTreeMap, BTreeSet};

/// What was told of a node.
pub(crate) fn known_of(told: &BTreeMap<u32, Known>, node: u32) -> Known
    ensures { told_of result ≡ told_by told.now.entries node }
{
    match told.get(&node) {
        Some(known) => *known,
        None => NOTHING,
    }
}

/// Notes a node where a test passed.
pub(crate) fn note_if(nodes: &mut BTreeSet<u32>, node: u32, test: bool) -> Result<(), NoMemory>
    ensures err { OnErr result ((n : ℕ) → contains nat_cmp nodes.new n ≡ contains nat_cmp nodes.old n) }
    ensures ok { OnOk result ((n : ℕ) → contains nat_cmp nodes.new n
        ≡ cond (test && is_at (nat_cmp node) n) true (contains nat_cmp nodes.old n)) }
{
    if !test {
        return Ok(());
    }
    nodes.insert(node)?;
    Ok(())
}

/// The nodes that have a part at all.
fn with_parts(alloc: Global, tree: &Tree) -> Result<BTreeSet<u32>, NoMemory>
    ensures { IfOk result (λ s. (n : ℕ) → contains nat_cmp s n ≡ lacks_at no_parts tree.now.rows n) }
{
    tree.is_lawful();
    let mut nodes = BTreeSet::new(alloc);
    let mut walk = tree.seats();
    while let Some(seat) = walk.next() {
        let test = is_lacking(NOTHING, tree.kinds(seat.node));
        note_if(&mut nodes, seat.node, test)?;
    }
    Ok(nodes)
}

/// Nothing was told of a tree.
pub(crate) fn marks_of_tree(alloc: Global, tree: &Tree) -> Result<Marks, NoMemory>
    ensures marks { IfOk result (λ marks. AreMarks marks tree.now.rows) }
    ensures told { IfOk result (λ marks. Agrees (told_in []) (told_by marks.told.entries)) }
{
    let lacking = with_parts(alloc, tree)?;
    let told = BTreeMap::new(alloc);
    Ok(Marks { told, lacking })
}

/// Whether a node is there and has a part that was not told.
fn is_lacking_at(tree: &Tree, node: u32, known: Known) -> bool
    ensures { result ≡ lacks_at (λ n. told_of known) tree.now.rows node }
{
    tree.is_lawful();
    if !tree.has(node) {
        return false;
    }
    is_lacking(known, tree.kinds(node))
}

/// Forgets a node where a test did not pass.
fn forget_unless(nodes: &mut BTreeSet<u32>, node: u32, test: bool)
    ensures { (n : ℕ) → contains nat_cmp nodes.new n
        ≡ cond (not test && is_at (nat_cmp node) n) false (contains nat_cmp nodes.old n) }
{
    if test {
        return;
    }
    nodes.remove(&node);
}

/// A part of a node was told.
fn tell_node(marks: &mut Marks, tree: &Tree, node: u32, part: PartName) -> Result<(), NoMemory>
    requires marks { AreMarks marks.old tree.now.rows }
    ensures marks { AreMarks marks.new tree.now.rows }
    ensures told { OnOk result (Tells node part (told_by marks.old.told.entries) (told_by marks.new.told.entries)) }
    ensures err { OnErr result (marks.new.told.entries ≡ marks.old.told.entries) }
{
    let known = known_with(known_of(&marks.told, node), part);
    marks.told.insert(node, known)?;
    let test = is_lacking_at(tree, node, known);
    forget_unless(&mut marks.lacking, node, test);
    Ok(())
}

/// A part of the node with this path was told.
pub(crate) fn tell(
    marks: &mut Marks,
    tree: &Tree,
    path: &Path,
    part: PartName,
) -> Result<(), NoMemory>
    requires marks { AreMarks marks.old tree.now.rows }
    ensures marks { AreMarks marks.new tree.now.rows }
    ensures told { OnOk result
        ((parts : List (List ℕ × PartName)) → Agrees (told_in parts) (told_by marks.old.told.entries)
        → Agrees (told_in (parts ++ (path.now, part) ∷ [])) (told_by marks.new.told.entries)) }
    ensures err { OnErr result (marks.new.told.entries ≡ marks.old.told.entries) }
{
    match node_at(path.as_str()) {
        Some(node) => tell_node(marks, tree, node, part),
        None => Ok(()),
    }
}

/// A node that goes, and all nodes below it, are forgotten. Costs these nodes.
pub(crate) fn forget(lacking: &mut BTreeSet<u32>, tree: &Tree, node: u32)
    requires there { has (is_shape node) tree.now.rows ≡ true }
    ensures { (n : ℕ) → contains nat_cmp lacking.new n
        ≡ cond (has (is_shape n) (pick (is_shape node) tree.now.rows)) false (contains nat_cmp lacking.old n) }
{
    tree.is_lawful();
    lacking.remove(&node);
    let mut walk = tree.seats_below(node);
    while let Some(seat) = walk.next() {
        lacking.remove(&seat.node);
    }
}
