//! What an object of an application answers, where that looks into no contents.

ghost use Rattle.std.specs.Prelude.{◌≡◌, ◌∷◌, [], true, false, IfOk, MatchResult};
ghost use Rattle.atspi_types.specs.DataView.{all_data};
ghost use Rattle.atspi_types.specs.Kinds.{text, variant};
ghost use Rattle.atspi_types.specs.Data.{dictionary_data, entries_of};
ghost use Rattle.atspi_marshal_in_place.specs.Items.{fields_data};
ghost use Rattle.atspi_tree_model.specs.Forest.{has};
ghost use Rattle.atspi_tree_model.specs.Tree.{is_shape, shape_of};
ghost use Rattle.atspi_protocol.specs.objects.Answers.{items_data};
ghost use Rattle.atspi_protocol.specs.objects.Application.{Application};
ghost use Rattle.atspi_app_calls.specs.Interface.{properties_in};
ghost use Rattle.atspi_app_answers.specs.Place.{IsThere};
ghost use Rattle.atspi_app_answers.specs.Told as told;
ghost use Rattle.atspi_app_answers.specs.Told.{IsOfShape, Returns, Fails, ReturnsProperty, ReturnsProperties};

use crate::counts::Counts;
use crate::fault::{AnswerFault, or_fault};
use crate::lists::{all_properties, no_properties};
use crate::members::{member_values, one};
use crate::place::AppPlace;
use crate::variants::property_in_variant;
use atspi_app_calls::{AppInterface, Ask};
use atspi_app_items::all_items;
use atspi_base::{NoMemory, Text};
use atspi_marshal_in_place::Fields;
use atspi_protocol::ends::CallError;
use atspi_protocol::members::{ObjectMember, ObjectProperty};
use atspi_tree::Tree;
use atspi_types::Values;
use std::alloc::Global;

/// What Get returns.
fn property_values(
    alloc: Global,
    tree: &Tree,
    bus: &Text,
    id: &i32,
    counts: Counts,
    node: u32,
    property: ObjectProperty,
) -> Result<Values, NoMemory>
    requires { has (is_shape node) tree.now.rows ≡ true }
    ensures { IfOk result (λ values. ReturnsProperty tree.now bus.now id.now counts node property (all_data values)) }
{
    let value = property_in_variant(alloc, tree, bus, id, counts, node, property)?;
    one(alloc, value)
}

/// What GetAll returns.
fn properties_values(
    alloc: Global,
    tree: &Tree,
    bus: &Text,
    id: &i32,
    counts: Counts,
    node: u32,
    interface: AppInterface,
) -> Result<Values, NoMemory>
    requires { has (is_shape node) tree.now.rows ≡ true }
    ensures { IfOk result
        (λ values. ReturnsProperties tree.now bus.now id.now counts node (properties_in interface) (all_data values)) }
{
    let value = all_properties(alloc, tree, bus, id, counts, node, interface)?;
    one(alloc, value)
}

/// What a node returns.
fn node_values(
    alloc: Global,
    tree: &Tree,
    bus: &Text,
    id: &i32,
    counts: Counts,
    node: u32,
    ask: Ask,
    args: Fields,
) -> Result<Values, AnswerFault>
    requires there { has (is_shape node) tree.now.rows ≡ true }
    requires shape { IsOfShape (AppPlace.Node node) ask }
    ensures { MatchResult result
        (λ values. Returns tree.now bus.now id.now counts (AppPlace.Node node) (fields_data args.entry) ask
        (all_data values)) (Fails tree.now bus.now id.now (AppPlace.Node node) (fields_data args.entry) ask) }
{
    match ask {
        Ask::Call(member) => member_values(alloc, tree, bus, node, member, args),
        Ask::Get(property) => or_fault(property_values(
            alloc, tree, bus, id, counts, node, property,
        )),
        Ask::GetAll(interface) => or_fault(properties_values(
            alloc, tree, bus, id, counts, node, interface,
        )),
        Ask::SetId(_) => Ok(Values::new(alloc)),
    }
}

/// What GetItems returns.
fn items_values(alloc: Global, tree: &Tree, bus: &Text) -> Result<Values, NoMemory>
    ensures { IfOk result
        (λ values. (a : Application) → shape_of a.tree ≡ tree.now.rows → a.name ≡ bus.now
        → all_data values ≡ items_data a ∷ []) }
{
    let value = all_items(alloc, bus, tree)?;
    one(alloc, value)
}

/// What the members of the object for the whole tree return.
fn tree_member(
    alloc: Global,
    tree: &Tree,
    bus: &Text,
    member: ObjectMember,
) -> Result<Values, NoMemory>
    ensures { IfOk result (λ values. told.TreeReturns tree.now bus.now member (all_data values)) }
{
    match member {
        ObjectMember::GetItems => items_values(alloc, tree, bus),
        _ => Ok(Values::new(alloc)),
    }
}

/// No properties, as the one value of a reply.
fn empty_values(alloc: Global) -> Result<Values, NoMemory>
    ensures { IfOk result (λ values. all_data values ≡ dictionary_data text variant (entries_of []) ∷ []) }
{
    one(alloc, no_properties(alloc))
}

/// What the object for the whole tree returns, which has no properties.
fn tree_values(
    alloc: Global,
    tree: &Tree,
    bus: &Text,
    id: &i32,
    counts: Counts,
    ask: Ask,
    args: Fields,
) -> Result<Values, AnswerFault>
    ensures { MatchResult result
        (λ values. Returns tree.now bus.now id.now counts AppPlace.Tree (fields_data args.entry) ask (all_data values))
        (Fails tree.now bus.now id.now AppPlace.Tree (fields_data args.entry) ask) }
{
    match ask {
        Ask::Call(member) => or_fault(tree_member(alloc, tree, bus, member)),
        Ask::GetAll(_) => or_fault(empty_values(alloc)),
        Ask::Get(_) | Ask::SetId(_) => Err(AnswerFault::Refused(CallError::UnknownProperty)),
    }
}

/// What an object that is there returns to what it is asked, the arguments being of the types that the member takes:
/// the values that the whole tree tells, whatever the contents of nodes, where `counts` has the counts that are asked
/// for. Refused are members and properties that the object has not; else memory alone can be wanting. Members of Text,
/// EditableText, Selection, Table and Action are not asked here.
pub fn answer(
    alloc: Global,
    tree: &Tree,
    bus: &Text,
    id: i32,
    counts: Counts,
    place: AppPlace,
    ask: Ask,
    args: Fields,
) -> Result<Values, AnswerFault>
    requires there { IsThere tree.now place }
    requires shape { IsOfShape place ask }
    ensures { MatchResult result
        (λ values. Returns tree.now bus.now id counts place (fields_data args.entry) ask (all_data values))
        (Fails tree.now bus.now id place (fields_data args.entry) ask) }
{
    match place {
        AppPlace::Tree => tree_values(alloc, tree, bus, &id, counts, ask, args),
        AppPlace::Node(node) => node_values(alloc, tree, bus, &id, counts, node, ask, args),
    }
}

/// The application's number after a call: Application.Id, the one property that can be set, is another one after Set.
pub fn id_after(id: i32, ask: Ask) -> i32
    ensures { result ≡ told.id_after id ask }
{
    match ask {
        Ask::SetId(number) => number,
        _ => id,
    }
}
