//! The names of a node's interfaces.

ghost use Rattle.std.specs.Prelude.{◌≡◌, ◌<◌, ◌^◌, ◌++◌, [], true, length, IfOk, OnOk};
ghost use Rattle.atspi_tree_model.specs.Announce as announce;
ghost use Rattle.atspi_tree_model.specs.Announce.{interfaces_of};
ghost use Rattle.atspi_app_items.specs.inner.Names.{first_of_all};
ghost use Rattle.atspi_protocol_messages.specs.Plain.{are_plain};

use atspi_base::{NoMemory, Texts};
use atspi_protocol_messages::word;
use atspi_tree_model::Kinds;
use std::alloc::Global;

/// A name more, if it belongs there.
fn put(alloc: Global, names: &mut Texts, on: bool, name: &str) -> Result<(), NoMemory>
    requires plain { are_plain name.now ≡ true }
    requires short { length name.now < 2 ^ 32 }
    ensures { OnOk result (names.new ≡ names.old ++ announce.named on name.now []) }
{
    if on {
        names.push(word(alloc, name)?)?;
    }
    Ok(())
}

/// The first three: of all nodes, of roots and of texts.
fn first_names(alloc: Global, is_root: bool, kinds: Kinds) -> Result<Texts, NoMemory>
    ensures { IfOk result (λ names. names ≡ first_of_all is_root kinds) }
{
    let mut names = Texts::new(alloc);
    put(alloc, &mut names, true, "org.a11y.atspi.Accessible")?;
    put(alloc, &mut names, is_root, "org.a11y.atspi.Application")?;
    put(alloc, &mut names, kinds.text, "org.a11y.atspi.Text")?;
    Ok(names)
}

/// The names of a node's interfaces, in the order of AT-SPI2's interface files as the table of members has it; the root
/// alone has Application.
pub fn interfaces(alloc: Global, is_root: bool, kinds: Kinds) -> Result<Texts, NoMemory>
    ensures { IfOk result (λ names. names ≡ interfaces_of is_root kinds) }
{
    let mut names = first_names(alloc, is_root, kinds)?;
    put(
        alloc,
        &mut names,
        kinds.editable,
        "org.a11y.atspi.EditableText",
    )?;
    put(
        alloc,
        &mut names,
        kinds.selection,
        "org.a11y.atspi.Selection",
    )?;
    put(alloc, &mut names, kinds.table, "org.a11y.atspi.Table")?;
    put(alloc, &mut names, kinds.action, "org.a11y.atspi.Action")?;
    Ok(names)
}
