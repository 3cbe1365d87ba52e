//! The edits that `make` makes.

ghost use Rattle.std.specs.Prelude.{◌≡◌, ◌≤◌, ◌<◌, ◌++◌, true, not, length, codes, IfOk};
ghost use Rattle.std.specs.Fmt.{decimal};
ghost use Rattle.std.specs.Str.{IsAscii};
ghost use Rattle.atspi_base.specs.Text.{HasNoZero};
ghost use Rattle.atspi_tree_model.specs.Edits.{IsEdit, node_has_state};
ghost use Rattle.atspi_tree_model.specs.Forest.{has};
ghost use Rattle.atspi_tree_model.specs.States.{checked};
ghost use Rattle.atspi_tree_model.specs.Tree.{is_shape};
ghost use Rattle.atspi_tree.specs.TreeShape.{IsLawful};
ghost use Rattle.atspi_run_make.specs.Draws.{drawn_of, next_state};
ghost use Rattle.atspi_run_make.specs.Drawing.{drawn_edit, edit_of, inserts, live_nodes, moves, names, toggles, turns};

use crate::draws::Draws;
use crate::nodes::{LiveNodes, is_below};
use atspi_base::{NoMemory, Text, Texts};
use atspi_tree::Tree;
use atspi_tree_model::{Edit, NODE_LIMIT, Seed};
use std::alloc::Global;

/// The role of a push button.
const PUSH_BUTTON: u32 = 43;

/// The state `checked`.
const CHECKED: u8 = 4;

/// A letter and a number.
fn numbered(alloc: Global, letter: &str, number: u32) -> Result<Text, NoMemory>
    requires no_zero { HasNoZero letter.now }
    requires ascii { IsAscii letter.now }
    requires short { length letter.now ≤ 1 }
    ensures { IfOk result (λ text. text ≡ letter.now ++ decimal number) }
{
    let text = format!(in alloc; "{letter}{number}")?;
    Text::of(alloc, &text)
}

/// A node gets a name.
fn rename(alloc: Global, node: u32, number: u32) -> Result<Edit, NoMemory>
    ensures { IfOk result (λ edit. edit ≡ Edit.Name node (codes "m" ++ decimal number)) }
{
    let text = numbered(alloc, "m", number)?;
    Ok(Edit::Name { node, text })
}

/// A push button is inserted below a node.
fn insert(
    alloc: Global,
    tree: &Tree,
    parent: u32,
    number: u32,
    draws: &mut Draws,
) -> Result<Edit, NoMemory>
    requires there { has (is_shape parent) tree.now.rows ≡ true }
    requires lawful { IsLawful tree.now }
    ensures edit { IfOk result (λ edit. edit ≡ (inserts tree.now parent number draws.old.state).edit) }
    ensures state { draws.new.state ≡ (inserts tree.now parent number draws.old.state).state }
{
    let count = tree.children(parent).len() as u32;
    let index = draws.draw(count + 1);
    let name = numbered(alloc, "n", number)?;
    let seed = Seed {
        role: PUSH_BUTTON,
        name,
        text: None,
        editable: false,
        columns: None,
        select: false,
        actions: Texts::new(alloc),
    };
    Ok(Edit::Insert {
        parent,
        index,
        seed,
    })
}

/// One of these numbers is drawn, of which there are no more than a tree has nodes.
fn pick(numbers: &[u32], draws: &mut Draws) -> u32
    requires some { 0 < length numbers.now }
    requires few { length numbers.now ≤ NODE_LIMIT }
    ensures drawn { result ≡ drawn_of numbers.now draws.old.state }
    ensures state { draws.new.state ≡ next_state draws.old.state }
{
    numbers[draws.draw(numbers.len() as u32) as usize]
}

/// A node moves below another that is drawn, or gets a name where that one is not outside of it.
fn shift(
    alloc: Global,
    tree: &Tree,
    nodes: &[u32],
    node: u32,
    number: u32,
    draws: &mut Draws,
) -> Result<Edit, NoMemory>
    requires live { nodes.now ≡ live_nodes tree.now }
    requires there { has (is_shape node) tree.now.rows ≡ true }
    requires lawful { IsLawful tree.now }
    ensures edit { IfOk result (λ edit. edit ≡ (moves tree.now node number draws.old.state).edit) }
    ensures state { draws.new.state ≡ (moves tree.now node number draws.old.state).state }
{
    let parent = pick(nodes, draws);
    if is_below(tree, node, parent) {
        return rename(alloc, node, number);
    }
    Ok(Edit::Move {
        node,
        parent,
        index: 0,
    })
}

/// Whether a node is checked.
fn is_checked(tree: &Tree, node: u32) -> bool
    requires there { has (is_shape node) tree.now.rows ≡ true }
    requires lawful { IsLawful tree.now }
    ensures { result ≡ node_has_state tree.now.rows node checked }
{
    (tree.states(node) >> CHECKED) % 2 == 1
}

/// The state `checked` of a node turns.
fn toggle(tree: &Tree, node: u32) -> Edit
    requires there { has (is_shape node) tree.now.rows ≡ true }
    requires lawful { IsLawful tree.now }
    ensures { result ≡ Edit.State node checked (not (node_has_state tree.now.rows node checked)) }
{
    Edit::State {
        node,
        state: CHECKED,
        on: !is_checked(tree, node),
    }
}

/// A node that is not the root is removed where the draw says so; else `checked` turns.
fn turn(tree: &Tree, node: u32, draws: &mut Draws) -> Edit
    requires there { has (is_shape node) tree.now.rows ≡ true }
    requires lawful { IsLawful tree.now }
    ensures edit { result ≡ (turns tree.now node draws.old.state).edit }
    ensures state { draws.new.state ≡ (turns tree.now node draws.old.state).state }
{
    if node != 0 && draws.draw(4) == 0 {
        return Edit::Remove { node };
    }
    toggle(tree, node)
}

/// The edit of a node that is there, by what was drawn first.
fn edit_of(
    alloc: Global,
    tree: &Tree,
    nodes: &[u32],
    kind: u32,
    node: u32,
    number: u32,
    draws: &mut Draws,
) -> Result<Edit, NoMemory>
    requires live { nodes.now ≡ live_nodes tree.now }
    requires there { has (is_shape node) tree.now.rows ≡ true }
    requires lawful { IsLawful tree.now }
    ensures edit { IfOk result (λ edit. edit ≡ (edit_of tree.now kind node number draws.old.state).edit) }
    ensures state { draws.new.state ≡ (edit_of tree.now kind node number draws.old.state).state }
{
    if kind < 4 && nodes.len() < NODE_LIMIT {
        return insert(alloc, tree, node, number, draws);
    }
    if kind == 5 && node != 0 {
        return shift(alloc, tree, nodes, node, number, draws);
    }
    if kind == 6 {
        return Ok(Edit::Focus { node });
    }
    if kind == 7 {
        return Ok(turn(tree, node, draws));
    }
    rename(alloc, node, number)
}

/// The edit with this number, counted from 1, of a script that is made: it is drawn from the tree that it changes and
/// the tree's live nodes. The draws are made also where no memory is left for the edit.
pub fn next_edit(
    alloc: Global,
    tree: &Tree,
    live: &LiveNodes,
    number: u32,
    draws: &mut Draws,
) -> Result<Edit, NoMemory>
    requires { live.now.nodes.items ≡ live_nodes tree.now }
    ensures edit { IfOk result (λ edit. edit ≡ (drawn_edit tree.now number draws.old.state).edit) }
    ensures state { draws.new.state ≡ (drawn_edit tree.now number draws.old.state).state }
    ensures lawful { IfOk result (λ edit. IsEdit edit) }
{
    tree.is_lawful();
    let nodes = live.as_slice();
    let kind = draws.draw(8);
    let node = pick(nodes, draws);
    edit_of(alloc, tree, nodes, kind, node, number, draws)
}
