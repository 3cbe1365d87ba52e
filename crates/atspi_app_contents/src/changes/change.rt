//! What a call of a member that changes the contents of a node does.

ghost use Rattle.std.specs.Prelude.{◌≡◌, true, IfOk};
ghost use Rattle.atspi_marshal_in_place.specs.Items.{fields_data};
ghost use Rattle.atspi_tree_model.specs.Forest.{has};
ghost use Rattle.atspi_tree_model.specs.Tree.{is_shape};
ghost use Rattle.atspi_app_contents.specs.texts.Texts.{KeepsText};
ghost use Rattle.atspi_app_contents.specs.changes.Changing.{Changes, changes_text, changes_children, changes_contents};

use crate::changes::children::change_children;
use crate::changes::edited::do_action;
use crate::changes::texts::change_text;
use crate::texts::known_text;
use crate::values::known_actions;
use atspi_base::NoMemory;
use atspi_faces::face::{Face, FaceKind};
use atspi_marshal_in_place::Fields;
use atspi_protocol::members::ObjectMember;
use atspi_tree::Tree;
use atspi_tree_model::StepList;
use std::alloc::Global;

/// Whether a member changes a text, its caret or its selections.
fn changes_text(member: ObjectMember) -> bool
    ensures { result ≡ changes_text member }
{
    match member {
        ObjectMember::SetCaretOffset => true,
        ObjectMember::AddSelection => true,
        ObjectMember::RemoveSelection => true,
        ObjectMember::SetSelection => true,
        ObjectMember::SetTextContents => true,
        ObjectMember::InsertText => true,
        ObjectMember::DeleteText => true,
        _ => false,
    }
}

/// Whether a member changes which children are selected.
fn changes_children(member: ObjectMember) -> bool
    ensures { result ≡ changes_children member }
{
    match member {
        ObjectMember::SelectChild => true,
        ObjectMember::DeselectChild => true,
        ObjectMember::DeselectSelectedChild => true,
        ObjectMember::SelectAll => true,
        ObjectMember::ClearSelection => true,
        _ => false,
    }
}

/// Whether a member changes a text, which children are selected, or does an action.
pub fn changes_contents(member: ObjectMember) -> bool
    ensures { result ≡ changes_contents member }
{
    match member {
        ObjectMember::DoAction => true,
        _ => changes_text(member) || changes_children(member),
    }
}

/// The steps of the edit that such a call names, of a node that is there, and whose text and actions two faces keep;
/// none where the edit would be refused, and then the call changes nothing (AT-SPI2, interfaces Text, EditableText,
/// Selection and Action). The one refusal is want of memory.
pub fn change_of<C: Face, D: Face>(
    alloc: Global,
    tree: &Tree,
    texts: &C,
    actions: &D,
    node: u32,
    member: ObjectMember,
    args: Fields,
) -> Result<Option<StepList>, NoMemory>
    requires there { has (is_shape node) tree.now.rows ≡ true }
    requires kept { KeepsText (C.of_kind texts.now) (C.nodes texts.now) node }
    requires kind { D.of_kind actions.now ≡ FaceKind.Deeds }
    requires member { changes_contents member ≡ true }
    ensures { IfOk result
        (λ steps. Changes tree.now (C.nodes texts.now) (D.nodes actions.now) node member (fields_data args.entry)
        steps) }
{
    if changes_text(member) {
        let known = known_text(alloc, texts, node)?;
        return change_text(alloc, tree, node, member, args, &known);
    }
    if changes_children(member) {
        return change_children(alloc, tree, node, member, args);
    }
    let known = known_actions(alloc, actions, node)?;
    do_action(alloc, tree, node, args, &known)
}
