//! The relations of a node.

ghost use Rattle.std.specs.Prelude.{◌≡◌, ◌∷◌, [], true, IfOk};
ghost use Rattle.atspi_types.specs.KindView.{kind_of};
ghost use Rattle.atspi_types.specs.DataView.{data_of, all_data};
ghost use Rattle.atspi_tree_model.specs.declared.limits.TheConstants.{RELATION_KINDS};
ghost use Rattle.atspi_tree_model.specs.Edits.{numbers_to};
ghost use Rattle.atspi_tree_model.specs.Forest.{has};
ghost use Rattle.atspi_tree_model.specs.Tree.{is_shape};
ghost use Rattle.atspi_tree.specs.TreeShape.{row_of};
ghost use Rattle.atspi_app_values.specs.Relations.{relation, relations_among, relations_told, relation_kind};

use crate::values::references;
use atspi_base::{NoMemory, Text};
use atspi_protocol_messages::reference_type;
use atspi_tree::Tree;
use atspi_types::{Ty, Tys, Value, Values};
use std::alloc::Global;

/// The type of a relation: its kind, and its targets.
fn relation_type(alloc: Global) -> Result<Ty, NoMemory>
    ensures { IfOk result (λ ty. kind_of ty ≡ relation_kind) }
{
    let target = reference_type(alloc)?;
    let mut fields = Tys::new(alloc);
    fields.push(Ty::U32)?;
    fields.push(Ty::Array(Box::new(alloc, target)?))?;
    Ok(Ty::Struct(Box::new(alloc, fields)?))
}

/// A relation.
fn relation_value(alloc: Global, bus: &Text, kind: u32, targets: &[u32]) -> Result<Value, NoMemory>
    ensures { IfOk result (λ value. data_of value ≡ relation bus.now kind targets.now) }
{
    let mut fields = Values::new(alloc);
    fields.push(Value::U32(kind))?;
    fields.push(references(alloc, bus, targets)?)?;
    Ok(Value::Struct(fields))
}

/// The relations of a node that have a target, by rising kinds, one after the other.
fn relations_of(alloc: Global, tree: &Tree, bus: &Text, node: u32) -> Result<Values, NoMemory>
    requires { has (is_shape node) tree.now.rows ≡ true }
    ensures { IfOk result
        (λ relations. all_data relations ≡ relations_among bus.now (row_of node tree.now) (numbers_to RELATION_KINDS)) }
{
    let mut relations = Values::new(alloc);
    for kind in 0..19u32 {
        let targets = tree.targets(node, kind);
        if !targets.is_empty() {
            relations.push(relation_value(alloc, bus, kind, targets)?)?;
        }
    }
    Ok(relations)
}

/// The relations of a node that have a target, by rising kinds.
pub fn relation_set(alloc: Global, tree: &Tree, bus: &Text, node: u32) -> Result<Value, NoMemory>
    requires { has (is_shape node) tree.now.rows ≡ true }
    ensures { IfOk result (λ value. data_of value ≡ relations_told bus.now (row_of node tree.now)) }
{
    let relations = relations_of(alloc, tree, bus, node)?;
    let ty = relation_type(alloc)?;
    Ok(Value::Array(ty, relations))
}
