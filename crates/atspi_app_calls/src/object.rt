//! The objects of an application.

ghost use Rattle.std.specs.Prelude.{◌≡◌};
ghost use Rattle.atspi_message_in_place.specs.View.{bytes_of};
ghost use Rattle.atspi_protocol.specs.members.Asked as asked;
ghost use Rattle.atspi_protocol.specs.members.Objects.{is_among};
ghost use Rattle.atspi_app_calls.specs.Interface.{interface_name};
ghost use Rattle.atspi_app_calls.specs.Object.{object_of};

use crate::interface::{AppInterface, interface_named};
use atspi_tree_model::Kinds;

/// An object of an application, as far as its interfaces go.
#[derive(Clone, Copy, Debug, PartialEq, Eq)]
pub enum AppObject {
    /// A node: whether it is the root, and its optional interfaces.
    Node { is_root: bool, kinds: Kinds },
    /// The one that tells the whole tree.
    Cache,
}

impl AppObject {
    /// Whether it has an interface.
    pub fn has(self, interface: AppInterface) -> bool
        ensures { result ≡ is_among (object_of self).interfaces (interface_name interface) }
    {
        match self {
            AppObject::Node { is_root, kinds } => node_has(is_root, kinds, interface),
            AppObject::Cache => cache_has(interface),
        }
    }

    /// Whether it has the interface that a call names, if it names one.
    pub(crate) fn has_named(self, interface: Option<&str>) -> bool
        ensures { result ≡ asked.has_interface (object_of self) (bytes_of interface.entry) }
    {
        let Some(name) = interface else {
            return true;
        };
        match interface_named(name) {
            Some(interface) => self.has(interface),
            None => false,
        }
    }
}

/// Whether a node has an interface.
fn node_has(is_root: bool, kinds: Kinds, interface: AppInterface) -> bool
    ensures { result ≡ is_among (object_of (AppObject.Node is_root kinds)).interfaces (interface_name interface) }
{
    match interface {
        AppInterface::Accessible => true,
        AppInterface::Application => is_root,
        AppInterface::Cache => false,
        AppInterface::Text => kinds.text,
        AppInterface::EditableText => kinds.editable,
        AppInterface::Selection => kinds.selection,
        AppInterface::Table => kinds.table,
        AppInterface::Action => kinds.action,
        AppInterface::Properties => true,
        AppInterface::Peer => true,
    }
}

/// Whether the object that tells the whole tree has an interface.
fn cache_has(interface: AppInterface) -> bool
    ensures { result ≡ is_among (object_of AppObject.Cache).interfaces (interface_name interface) }
{
    matches!(
        interface,
        AppInterface::Cache | AppInterface::Properties | AppInterface::Peer
    )
}
