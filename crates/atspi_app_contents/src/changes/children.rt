//! The members that change which children of a node are selected.

ghost use Rattle.std.specs.Prelude.{◌≡◌, ◌++◌, ◌∷◌, [], List, true, IfOk, OnOk};
ghost use Rattle.atspi_types.specs.Data.{Data};
ghost use Rattle.atspi_marshal_in_place.specs.Items.{fields_data};
ghost use Rattle.atspi_tree_model.specs.Forest.{has};
ghost use Rattle.atspi_tree_model.specs.States.{has_state};
ghost use Rattle.atspi_tree_model.specs.Tree.{is_shape};
ghost use Rattle.atspi_tree_model.specs.declared.contents.FaceData.TheVariants.{Deeds};
ghost use Rattle.atspi_tree_model.specs.Edits.{IsEdit};
ghost use Rattle.atspi_tree_edits.specs.Answers.{edit_steps};
ghost use Rattle.atspi_app_contents.specs.changes.inner.Steps.{choosing, granted, unchosen};
ghost use Rattle.atspi_app_contents.specs.changes.Changing.{changes_children};
ghost use Rattle.atspi_app_contents.specs.changes.inner.Changing.{ChangesChildren};

use crate::changes::arguments::place;
use crate::changes::edited::granted;
use crate::values::{is_selected, place_of, selected_child};
use atspi_app_calls::reading::first_signed;
use atspi_base::{NoMemory, Texts};
use atspi_marshal_in_place::Fields;
use atspi_protocol::members::ObjectMember;
use atspi_tree::Tree;
use atspi_tree_model::{Edit, FaceData, Step, StepList};
use std::alloc::Global;

/// Appends the step that selects a node, or selects it no more, none where it is so already.
fn push_chosen(steps: &mut StepList, tree: &Tree, on: bool, node: u32) -> Result<(), NoMemory>
    ensures { OnOk result (steps.new ≡ steps.old ++ choosing tree.now.rows on (node ∷ [])) }
{
    if is_selected(tree, node) == on {
        return Ok(());
    }
    let state = 23;
    steps.push(Step::SetState { node, state, on })
}

/// The steps that select some nodes, or select them no more, none for a node that is so already.
fn choosing(alloc: Global, tree: &Tree, on: bool, nodes: &[u32]) -> Result<StepList, NoMemory>
    ensures { IfOk result (λ steps. steps ≡ choosing tree.now.rows on nodes.now) }
{
    let mut steps = StepList::new(alloc);
    for node in nodes {
        push_chosen(&mut steps, tree, on, *node)?;
    }
    Ok(steps)
}

/// The step of one node that is selected no more, none where there is no such node.
fn unchosen(alloc: Global, node: Option<u32>) -> Result<Option<StepList>, NoMemory>
    ensures { IfOk result (λ steps. steps ≡ unchosen node) }
{
    let Some(node) = node else {
        return Ok(None);
    };
    let mut steps = StepList::new(alloc);
    steps.push(Step::SetState {
        node,
        state: 23,
        on: false,
    })?;
    Ok(Some(steps))
}

/// Whether a set of states has Multiselectable.
fn is_multiselectable(states: u64) -> bool
    ensures { result ≡ has_state 18 states }
{
    (states >> 18) % 2 == 1
}

/// The steps of an edit that reads no contents, none where it is refused.
fn chosen(alloc: Global, tree: &Tree, edit: Edit) -> Result<Option<StepList>, NoMemory>
    requires { IsEdit edit }
    ensures { IfOk result (λ steps. steps ≡ granted (edit_steps tree.now (Deeds []) edit)) }
{
    let known = FaceData::Deeds(Texts::new(alloc));
    granted(alloc, tree, edit, &known)
}

/// SelectChild.
fn select_child(
    alloc: Global,
    tree: &Tree,
    node: u32,
    args: Fields,
) -> Result<Option<StepList>, NoMemory>
    ensures { IfOk result
        (λ steps. ChangesChildren tree.now node ObjectMember.SelectChild (fields_data args.entry) steps) }
{
    tree.is_lawful();
    match place(first_signed(args)) {
        Some(index) => chosen(alloc, tree, Edit::Select { node, index }),
        None => Ok(None),
    }
}

/// DeselectChild.
fn deselect_child(
    alloc: Global,
    tree: &Tree,
    node: u32,
    args: Fields,
) -> Result<Option<StepList>, NoMemory>
    ensures { IfOk result
        (λ steps. ChangesChildren tree.now node ObjectMember.DeselectChild (fields_data args.entry) steps) }
{
    tree.is_lawful();
    match place(first_signed(args)) {
        Some(index) => chosen(alloc, tree, Edit::Deselect { node, index }),
        None => Ok(None),
    }
}

/// DeselectSelectedChild.
fn deselect_selected_child(
    alloc: Global,
    tree: &Tree,
    node: u32,
    args: Fields,
) -> Result<Option<StepList>, NoMemory>
    requires { has (is_shape node) tree.now.rows ≡ true }
    ensures { IfOk result
        (λ steps. ChangesChildren tree.now node ObjectMember.DeselectSelectedChild (fields_data args.entry) steps) }
{
    tree.is_lawful();
    let place = place_of(first_signed(args));
    unchosen(alloc, selected_child(tree, node, place))
}

/// SelectAll.
fn select_all(alloc: Global, tree: &Tree, node: u32) -> Result<Option<StepList>, NoMemory>
    requires { has (is_shape node) tree.now.rows ≡ true }
    ensures { IfOk result
        (λ steps. (body : List Data) → ChangesChildren tree.now node ObjectMember.SelectAll body steps) }
{
    tree.is_lawful();
    if !is_multiselectable(tree.states(node)) {
        return Ok(None);
    }
    Ok(Some(choosing(alloc, tree, true, tree.children(node))?))
}

/// ClearSelection.
fn clear_selection(alloc: Global, tree: &Tree, node: u32) -> Result<Option<StepList>, NoMemory>
    requires { has (is_shape node) tree.now.rows ≡ true }
    ensures { IfOk result
        (λ steps. (body : List Data) → ChangesChildren tree.now node ObjectMember.ClearSelection body steps) }
{
    tree.is_lawful();
    Ok(Some(choosing(alloc, tree, false, tree.children(node))?))
}

/// What a call of a member of Selection that changes which children are selected does (AT-SPI2, interface Selection).
/// The one refusal is want of memory. No node is looked at but this one and its children.
pub(crate) fn change_children(
    alloc: Global,
    tree: &Tree,
    node: u32,
    member: ObjectMember,
    args: Fields,
) -> Result<Option<StepList>, NoMemory>
    requires there { has (is_shape node) tree.now.rows ≡ true }
    requires member { changes_children member ≡ true }
    ensures { IfOk result (λ steps. ChangesChildren tree.now node member (fields_data args.entry) steps) }
{
    match member {
        ObjectMember::SelectChild => select_child(alloc, tree, node, args),
        ObjectMember::DeselectChild => deselect_child(alloc, tree, node, args),
        ObjectMember::DeselectSelectedChild => deselect_selected_child(alloc, tree, node, args),
        ObjectMember::SelectAll => select_all(alloc, tree, node),
        ObjectMember::ClearSelection => clear_selection(alloc, tree, node),
        _ => unreachable!(),
    }
}
