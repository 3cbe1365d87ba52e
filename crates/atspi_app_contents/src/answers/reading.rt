//! What a member that reads the contents of a node tells.

ghost use Rattle.std.specs.Prelude.{◌≡◌, true, IfOk};
ghost use Rattle.atspi_types.specs.DataView.{all_data};
ghost use Rattle.atspi_marshal_in_place.specs.Items.{fields_data};
ghost use Rattle.atspi_tree_model.specs.Forest.{has};
ghost use Rattle.atspi_tree_model.specs.Tree.{is_shape};
ghost use Rattle.atspi_app_contents.specs.values.Seen.{faces_of, KeepsContents};
ghost use Rattle.atspi_app_contents.specs.answers.Told.{Tells, reads_text, reads_selection, reads_table, reads_actions};
ghost use Rattle.atspi_app_contents.specs.answers.Told.{reads_contents};

use crate::answers::actions::action_value;
use crate::answers::selection::selection;
use crate::answers::table::table;
use crate::answers::text::{one, text};
use crate::values::column_count;
use atspi_base::{NoMemory, Text};
use atspi_faces::face::Face;
use atspi_marshal_in_place::Fields;
use atspi_protocol::members::ObjectMember;
use atspi_tree::Tree;
use atspi_types::Values;
use std::alloc::Global;

/// Whether a member of Text changes nothing.
fn reads_text(member: ObjectMember) -> bool
    ensures { result ≡ reads_text member }
{
    match member {
        ObjectMember::GetText => true,
        ObjectMember::GetCharacterAtOffset => true,
        ObjectMember::GetStringAtOffset => true,
        ObjectMember::GetNSelections => true,
        ObjectMember::GetSelection => true,
        _ => false,
    }
}

/// Whether a member of Selection changes nothing.
fn reads_selection(member: ObjectMember) -> bool
    ensures { result ≡ reads_selection member }
{
    match member {
        ObjectMember::GetSelectedChild => true,
        ObjectMember::IsChildSelected => true,
        _ => false,
    }
}

/// Whether a member of Table changes nothing.
fn reads_table(member: ObjectMember) -> bool
    ensures { result ≡ reads_table member }
{
    match member {
        ObjectMember::GetAccessibleAt => true,
        ObjectMember::GetIndexAt => true,
        ObjectMember::GetRowAtIndex => true,
        ObjectMember::GetColumnAtIndex => true,
        ObjectMember::GetSelectedRows => true,
        ObjectMember::IsRowSelected => true,
        ObjectMember::IsSelected => true,
        _ => false,
    }
}

/// Whether a member of Action changes nothing.
fn reads_actions(member: ObjectMember) -> bool
    ensures { result ≡ reads_actions member }
{
    match member {
        ObjectMember::GetName => true,
        ObjectMember::GetDescription => true,
        ObjectMember::GetKeyBinding => true,
        ObjectMember::GetActions => true,
        _ => false,
    }
}

/// Whether a member reads the contents of a node and changes nothing.
pub fn reads_contents(member: ObjectMember) -> bool
    ensures { result ≡ reads_contents member }
{
    reads_text(member) || reads_selection(member) || reads_table(member) || reads_actions(member)
}

/// What a member that reads the contents of a node tells of a node that is there, which three faces keep, the arguments
/// being of the types that it takes (AT-SPI2, interfaces Text, Selection, Table and Action). The one refusal is want of
/// memory. No node is looked at but this one and its children.
pub fn contents<C: Face, G: Face, D: Face>(
    alloc: Global,
    tree: &Tree,
    bus: &Text,
    texts: &C,
    columns: &G,
    actions: &D,
    node: u32,
    member: ObjectMember,
    args: Fields,
) -> Result<Values, NoMemory>
    requires there { has (is_shape node) tree.now.rows ≡ true }
    requires kept { KeepsContents (C.of_kind texts.now) (G.of_kind columns.now) (D.of_kind actions.now)
        (faces_of (C.nodes texts.now) (G.nodes columns.now) (D.nodes actions.now)) node }
    requires member { reads_contents member ≡ true }
    ensures { IfOk result
        (λ values. Tells tree.now (faces_of (C.nodes texts.now) (G.nodes columns.now) (D.nodes actions.now)) bus.now
        node member (fields_data args.entry) (all_data values)) }
{
    if reads_text(member) {
        return text(alloc, texts, node, member, args);
    }
    if reads_selection(member) {
        return one(alloc, selection(alloc, tree, bus, node, member, args)?);
    }
    if reads_table(member) {
        let columns = column_count(columns, node) as usize;
        return one(alloc, table(alloc, tree, bus, columns, node, member, args)?);
    }
    one(alloc, action_value(alloc, actions, node, member, args)?)
}
