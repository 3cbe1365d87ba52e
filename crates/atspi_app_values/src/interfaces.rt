//! The names of a node's interfaces.

ghost use Rattle.std.specs.Prelude.{◌≡◌, ◌∷◌, ◌++◌, [], ◌<◌, ◌^◌, true, length, map, IfOk, OnOk};
ghost use Rattle.atspi_types.specs.Data.{text_data};
ghost use Rattle.atspi_types.specs.DataView.{data_of, all_data};
ghost use Rattle.atspi_tree_model.specs.Announce.{named, interfaces_of};
ghost use Rattle.atspi_protocol.specs.members.Interfaces as interfaces;
ghost use Rattle.atspi_protocol.specs.objects.Values as values;
ghost use Rattle.atspi_protocol_messages.specs.Plain.{are_plain};

use crate::values::literal;
use atspi_base::NoMemory;
use atspi_tree_model::Kinds;
use atspi_types::{Ty, Value, Values};
use std::alloc::Global;

/// Appends a name, where it belongs there.
fn push_if(alloc: Global, names: &mut Values, belongs: bool, name: &str) -> Result<(), NoMemory>
    requires plain { are_plain name.now ≡ true }
    requires short { length name.now < 2 ^ 32 }
    ensures { OnOk result (all_data names.new ≡ all_data names.old ++ map text_data (named belongs name.now [])) }
{
    if belongs {
        names.push(literal(alloc, name)?)?;
    }
    Ok(())
}

/// The first of the names.
fn first_names(alloc: Global, is_root: bool, kinds: Kinds) -> Result<Values, NoMemory>
    ensures { IfOk result
        (λ names. all_data names
        ≡ map text_data
        (named true interfaces.accessible
        (named is_root interfaces.application (named kinds.text interfaces.text [])))) }
{
    let mut names = Values::new(alloc);
    push_if(alloc, &mut names, true, "org.a11y.atspi.Accessible")?;
    push_if(alloc, &mut names, is_root, "org.a11y.atspi.Application")?;
    push_if(alloc, &mut names, kinds.text, "org.a11y.atspi.Text")?;
    Ok(names)
}

/// The names of the interfaces of a node, in the order of the table.
pub fn interface_names(alloc: Global, is_root: bool, kinds: Kinds) -> Result<Value, NoMemory>
    ensures { IfOk result (λ value. data_of value ≡ values.texts_data (interfaces_of is_root kinds)) }
{
    let mut names = first_names(alloc, is_root, kinds)?;
    push_if(
        alloc,
        &mut names,
        kinds.editable,
        "org.a11y.atspi.EditableText",
    )?;
    push_if(
        alloc,
        &mut names,
        kinds.selection,
        "org.a11y.atspi.Selection",
    )?;
    push_if(alloc, &mut names, kinds.table, "org.a11y.atspi.Table")?;
    push_if(alloc, &mut names, kinds.action, "org.a11y.atspi.Action")?;
    Ok(Value::Array(Ty::Text, names))
}
