//! The items of all nodes.

ghost use Rattle.std.specs.Prelude.{◌≡◌, ◌≤◌, ◌∷◌, ◌++◌, [], true, map, IfOk, IfSome, OnOk};
ghost use Rattle.atspi_types.specs.Kinds.{number, i32, u32, text, array};
ghost use Rattle.atspi_types.specs.KindView.{kind_of, kinds_in};
ghost use Rattle.atspi_types.specs.DataView.{data_of, all_data};
ghost use Rattle.atspi_tree_model.specs.Forest.{has};
ghost use Rattle.atspi_tree_model.specs.Tree.{is_shape, shape_of};
ghost use Rattle.atspi_protocol.specs.ends.Places.{reference_kind};
ghost use Rattle.atspi_protocol.specs.objects.Application.{Application};
ghost use Rattle.atspi_protocol.specs.objects.Answers.{items_data};
ghost use Rattle.atspi_protocol.specs.objects.Values as values;
ghost use Rattle.atspi_tree.specs.Seats.{seats_in};
ghost use Rattle.atspi_tree.specs.TreeShape.{row_of};
ghost use Rattle.atspi_app_items.specs.inner.Seated.{seat_item, seats_items, told_index};

use crate::items::item_value;
use crate::nodes::{node_item, signed};
use atspi_base::{NoMemory, Text};
use atspi_protocol_messages::reference_type;
use atspi_tree::{Seat, Tree};
use atspi_tree_model::Item;
use atspi_types::{Ty, Tys, Value, Values};
use std::alloc::Global;

/// The index that is told of a place: a root's is -1.
fn index_of(seat: Seat) -> i32
    requires { seat.index ≤ 8192 }
    ensures { result ≡ told_index seat.parent seat.index }
{
    match seat.parent {
        None => -1,
        Some(_) => signed(seat.index),
    }
}

/// The item of the node at a place.
fn item_at(alloc: Global, bus: &Text, tree: &Tree, seat: Seat) -> Result<Item, NoMemory>
    requires there { has (is_shape seat.node) tree.now.rows ≡ true }
    requires small { seat.index ≤ 8192 }
    ensures { IfOk result
        (λ item. IfSome (row_of seat.node tree.now) (λ row. item ≡ seat_item bus.now tree.now seat row)) }
{
    node_item(alloc, bus, tree, seat.node, seat.parent, index_of(seat))
}

/// The same as a value.
fn value_at(alloc: Global, bus: &Text, tree: &Tree, seat: Seat) -> Result<Value, NoMemory>
    requires there { has (is_shape seat.node) tree.now.rows ≡ true }
    requires small { seat.index ≤ 8192 }
    ensures { IfOk result
        (λ value. IfSome (row_of seat.node tree.now)
        (λ row. data_of value ≡ values.item_data (seat_item bus.now tree.now seat row))) }
{
    let item = item_at(alloc, bus, tree, seat)?;
    item_value(alloc, &item)
}

/// The types that follow the three references in an item.
fn put_types(alloc: Global, fields: &mut Tys) -> Result<(), NoMemory>
    ensures { OnOk result
        (kinds_in fields.new
        ≡ kinds_in fields.old ++ number i32 ∷ number i32 ∷ array text ∷ text ∷ number u32 ∷ text
        ∷ array (number u32) ∷ []) }
{
    fields.push(Ty::I32)?;
    fields.push(Ty::I32)?;
    fields.push(Ty::Array(Box::new(alloc, Ty::Text)?))?;
    fields.push(Ty::Text)?;
    put_last_types(alloc, fields)
}

/// The last three of them.
fn put_last_types(alloc: Global, fields: &mut Tys) -> Result<(), NoMemory>
    ensures { OnOk result (kinds_in fields.new ≡ kinds_in fields.old ++ number u32 ∷ text ∷ array (number u32) ∷ []) }
{
    fields.push(Ty::U32)?;
    fields.push(Ty::Text)?;
    fields.push(Ty::Array(Box::new(alloc, Ty::U32)?))?;
    Ok(())
}

/// The types of the three references that an item begins with.
fn reference_types(alloc: Global) -> Result<Tys, NoMemory>
    ensures { IfOk result (λ fields. kinds_in fields ≡ reference_kind ∷ reference_kind ∷ reference_kind ∷ []) }
{
    let mut fields = Tys::new(alloc);
    fields.push(reference_type(alloc)?)?;
    fields.push(reference_type(alloc)?)?;
    fields.push(reference_type(alloc)?)?;
    Ok(fields)
}

/// The type of an item (AT-SPI2's interface file Cache).
fn item_type(alloc: Global) -> Result<Ty, NoMemory>
    ensures { IfOk result (λ ty. kind_of ty ≡ values.item_kind) }
{
    let mut fields = reference_types(alloc)?;
    put_types(alloc, &mut fields)?;
    Ok(Ty::Struct(Box::new(alloc, fields)?))
}

/// The items of all nodes in preorder, as values.
fn item_values(alloc: Global, bus: &Text, tree: &Tree) -> Result<Values, NoMemory>
    ensures { IfOk result
        (λ all. all_data all ≡ map values.item_data (seats_items bus.now tree.now (seats_in tree.now))) }
{
    tree.is_lawful();
    let mut walk = tree.seats();
    let mut all = Values::new(alloc);
    while let Some(seat) = walk.next() {
        let value = value_at(alloc, bus, tree, seat)?;
        all.push(value)?;
    }
    Ok(all)
}

/// What GetItems returns (AT-SPI2's interface file Cache): the item of each node, in preorder. Each node is looked up a
/// few times, so the cost grows with the number of nodes.
pub fn all_items(alloc: Global, bus: &Text, tree: &Tree) -> Result<Value, NoMemory>
    ensures { IfOk result
        (λ value. (a : Application) → shape_of a.tree ≡ tree.now.rows → a.name ≡ bus.now
        → data_of value ≡ items_data a) }
{
    tree.is_lawful();
    let ty = item_type(alloc)?;
    let all = item_values(alloc, bus, tree)?;
    Ok(Value::Array(ty, all))
}
