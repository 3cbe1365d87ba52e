//! What a call comes to, by what it asks of which object.

ghost use Rattle.std.specs.Prelude.{◌≡◌, ℕ, [], true, IfOk, IfSome, IfNone};
ghost use Rattle.atspi_marshal_in_place.specs.Items.{fields_data};
ghost use Rattle.atspi_protocol.specs.ends.Messages.{error_word, fails};
ghost use Rattle.atspi_message_in_place.specs.View.{envelope_at};
ghost use Rattle.atspi_tree_model.specs.Forest.{has};
ghost use Rattle.atspi_tree_model.specs.RowRules.{rows};
ghost use Rattle.atspi_tree_model.specs.Tree.{IsTree, is_shape};
ghost use Rattle.atspi_protocol.specs.whole.Whole.{Faces, whole};
ghost use Rattle.atspi_app_exported.specs.Doing.{CanBeDone};
ghost use Rattle.atspi_app_exported.specs.Parts.{AreKinds, faces_of, kinds_of};
ghost use Rattle.atspi_app_answers.specs.Asking.{answer_to};
ghost use Rattle.atspi_app_answers.specs.Place.{IsThere};
ghost use Rattle.atspi_app_answers.specs.Seen.{seen};
ghost use Rattle.atspi_app_answers.specs.Told as told;
ghost use Rattle.atspi_app_answers.specs.Told.{IsOfShape};
ghost use Rattle.atspi_app.specs.called.Called.{answer_of};
ghost use Rattle.atspi_app.specs.called.inner.Told.{ComesTo, PlaceComesTo};

use crate::called::contents::{changing, reading};
use crate::called::counts::counts_at;
use crate::called::outcome::Called;
use crate::called::shapes::of_shape;
use atspi_app_answers::{AppPlace, Counts, asked_in, is_of_contents};
use atspi_app_calls::Ask;
use atspi_app_contents::answers::reads_contents;
use atspi_base::{NoMemory, Text};
use atspi_faces::face::Face;
use atspi_marshal_in_place::Fields;
use atspi_message_in_place::MessageRef;
use atspi_protocol::ends::CallError;
use atspi_protocol::members::ObjectMember;
use atspi_tree::Tree;
use atspi_tree_model::StepList;
use std::alloc::Global;

/// The member that reads contents or changes something, if one is asked.
fn contents_member(ask: Ask) -> Option<ObjectMember>
    ensures is { IfSome result (λ member. ask ≡ Ask.Call member) }
    ensures contents { IfSome result (λ member. told.is_of_contents member ≡ true) }
    ensures none { IfNone result ((n : ℕ) → IsOfShape (AppPlace.Node n) ask) }
{
    match ask {
        Ask::Call(member) => {
            if is_of_contents(member) {
                return Some(member);
            }
            None
        }
        _ => None,
    }
}

/// Such a member of a node that is there.
fn of_contents<C: Face, G: Face, D: Face>(
    alloc: Global,
    tree: &Tree,
    bus: &Text,
    id: i32,
    texts: &C,
    columns: &G,
    actions: &D,
    node: u32,
    member: ObjectMember,
    args: Fields,
) -> Result<Called, NoMemory>
    requires there { has (is_shape node) tree.now.rows ≡ true }
    requires kinds { AreKinds (kinds_of (C.of_kind texts.now) (G.of_kind columns.now) (D.of_kind actions.now)) }
    requires lawful { IsTree rows
        (whole tree.now.rows (faces_of (C.nodes texts.now) (G.nodes columns.now) (D.nodes actions.now)))
        tree.now.added }
    requires member { told.is_of_contents member ≡ true }
    ensures comes { IfOk result
        (λ c. ComesTo tree.now (faces_of (C.nodes texts.now) (G.nodes columns.now) (D.nodes actions.now)) bus.now id
        node member (fields_data args.entry) c) }
    ensures done { IfOk result (λ c. CanBeDone c.steps) }
{
    if reads_contents(member) {
        return reading(
            alloc, tree, bus, id, texts, columns, actions, node, member, args,
        );
    }
    changing(alloc, tree, id, texts, columns, actions, node, member, args)
}

/// What is asked of a node that is there.
fn of_node<C: Face, G: Face, D: Face>(
    alloc: Global,
    tree: &Tree,
    bus: &Text,
    id: i32,
    texts: &C,
    columns: &G,
    actions: &D,
    node: u32,
    ask: Ask,
    args: Fields,
) -> Result<Called, NoMemory>
    requires there { has (is_shape node) tree.now.rows ≡ true }
    requires kinds { AreKinds (kinds_of (C.of_kind texts.now) (G.of_kind columns.now) (D.of_kind actions.now)) }
    requires lawful { IsTree rows
        (whole tree.now.rows (faces_of (C.nodes texts.now) (G.nodes columns.now) (D.nodes actions.now)))
        tree.now.added }
    ensures comes { IfOk result
        (λ c. PlaceComesTo tree.now (faces_of (C.nodes texts.now) (G.nodes columns.now) (D.nodes actions.now)) bus.now
        id (AppPlace.Node node) (fields_data args.entry) ask c) }
    ensures done { IfOk result (λ c. CanBeDone c.steps) }
{
    match contents_member(ask) {
        Some(member) => of_contents(
            alloc, tree, bus, id, texts, columns, actions, node, member, args,
        ),
        None => {
            let counts = counts_at(texts, columns, actions, node);
            of_shape(
                alloc,
                tree,
                bus,
                id,
                counts,
                AppPlace::Node(node),
                ask,
                args,
            )
        }
    }
}

/// No counts, for the object that has none.
fn no_counts() -> Counts {
    Counts {
        characters: 0,
        caret: 0,
        columns: 0,
        actions: 0,
    }
}

/// What is asked of the object for the whole tree.
fn of_tree(
    alloc: Global,
    tree: &Tree,
    bus: &Text,
    id: i32,
    ask: Ask,
    args: Fields,
) -> Result<Called, NoMemory>
    ensures comes { IfOk result
        (λ c. (faces : Faces) → PlaceComesTo tree.now faces bus.now id AppPlace.Tree (fields_data args.entry) ask c) }
    ensures no_steps { IfOk result (λ c. c.steps ≡ []) }
{
    of_shape(alloc, tree, bus, id, no_counts(), AppPlace::Tree, ask, args)
}

/// A call that gets an error.
fn refused(alloc: Global, error: CallError, id: i32) -> Called
    ensures { answer_of result ≡ record { reply = fails (error_word error); steps = []; id = id } }
{
    Called {
        reply: Err(error),
        steps: StepList::new(alloc),
        id,
    }
}

/// What is asked of an object that is there.
fn of_place<C: Face, G: Face, D: Face>(
    alloc: Global,
    tree: &Tree,
    bus: &Text,
    id: i32,
    texts: &C,
    columns: &G,
    actions: &D,
    place: AppPlace,
    ask: Ask,
    args: Fields,
) -> Result<Called, NoMemory>
    requires there { IsThere tree.now place }
    requires kinds { AreKinds (kinds_of (C.of_kind texts.now) (G.of_kind columns.now) (D.of_kind actions.now)) }
    requires lawful { IsTree rows
        (whole tree.now.rows (faces_of (C.nodes texts.now) (G.nodes columns.now) (D.nodes actions.now)))
        tree.now.added }
    ensures comes { IfOk result
        (λ c. PlaceComesTo tree.now (faces_of (C.nodes texts.now) (G.nodes columns.now) (D.nodes actions.now)) bus.now
        id place (fields_data args.entry) ask c) }
    ensures done { IfOk result (λ c. CanBeDone c.steps) }
{
    match place {
        AppPlace::Tree => of_tree(alloc, tree, bus, id, ask, args),
        AppPlace::Node(node) => of_node(
            alloc, tree, bus, id, texts, columns, actions, node, ask, args,
        ),
    }
}

/// What a call of an application comes to whose tree has this shape, and whose contents three faces keep, with this bus
/// name and number:
/// exactly the answer of the definitions, and steps that can be done as a whole. The one refusal is want of memory.
pub fn called<C: Face, G: Face, D: Face>(
    alloc: Global,
    tree: &Tree,
    bus: &Text,
    id: i32,
    texts: &C,
    columns: &G,
    actions: &D,
    call: &MessageRef,
) -> Result<Called, NoMemory>
    requires kinds { AreKinds (kinds_of (C.of_kind texts.now) (G.of_kind columns.now) (D.of_kind actions.now)) }
    requires lawful { IsTree rows
        (whole tree.now.rows (faces_of (C.nodes texts.now) (G.nodes columns.now) (D.nodes actions.now)))
        tree.now.added }
    ensures comes { IfOk result
        (λ c. answer_to
        (seen tree.now (faces_of (C.nodes texts.now) (G.nodes columns.now) (D.nodes actions.now)) bus.now id)
        (envelope_at call.now) ≡ answer_of c) }
    ensures done { IfOk result (λ c. CanBeDone c.steps) }
{
    match asked_in(tree, call) {
        Ok((place, ask)) => of_place(
            alloc, tree, bus, id, texts, columns, actions, place, ask, call.body,
        ),
        Err(error) => Ok(refused(alloc, error, id)),
    }
}
