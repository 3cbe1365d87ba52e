//! The registry's objects.

ghost use Rattle.std.specs.Prelude.{◌≡◌};
ghost use Rattle.atspi_message_in_place.specs.View.{bytes_of};
ghost use Rattle.atspi_protocol.specs.members.Objects.{is_among};
ghost use Rattle.atspi_protocol.specs.registering.Answers.{object_at};
ghost use Rattle.atspi_registry.specs.calls.inner.Object.{object_or_none, interfaces_of};

/// The interface of the object for listeners.
pub const REGISTRY: &str = "org.a11y.atspi.Registry";

/// The interfaces of the root.
pub const ACCESSIBLE: &str = "org.a11y.atspi.Accessible";

pub const SOCKET: &str = "org.a11y.atspi.Socket";

/// The interfaces that every object has.
pub const PROPERTIES: &str = "org.freedesktop.DBus.Properties";

pub const PEER: &str = "org.freedesktop.DBus.Peer";

/// An object of the registry.
#[derive(Clone, Copy, Debug, PartialEq, Eq)]
pub enum RegistryObject {
    /// The one for listeners.
    Listeners,
    /// The one whose children are the roots of applications.
    Root,
}

/// The object at a path.
pub fn object_at(path: Option<&str>) -> Option<RegistryObject>
    ensures { object_at (bytes_of path.entry) ≡ object_or_none result }
{
    let path = path?;
    if path == "/org/a11y/atspi/registry" {
        Some(RegistryObject::Listeners)
    } else if path == "/org/a11y/atspi/accessible/root" {
        Some(RegistryObject::Root)
    } else {
        None
    }
}

impl RegistryObject {
    /// Whether it has the interface of this name.
    pub fn has(self, name: &str) -> bool
        ensures { result ≡ is_among (interfaces_of self) name.now }
    {
        match self {
            RegistryObject::Listeners => name == REGISTRY || name == PROPERTIES || name == PEER,
            RegistryObject::Root => {
                name == ACCESSIBLE || name == SOCKET || name == PROPERTIES || name == PEER
            }
        }
    }
}
