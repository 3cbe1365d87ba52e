//! The interfaces that an application's objects have.

ghost use Rattle.std.specs.Prelude.{◌≡◌};
ghost use Rattle.atspi_app_calls.specs.Interface.{interface_name};
ghost use Rattle.atspi_app_calls.specs.inner.Interface.{NamesInterface};

/// An interface of an application's objects (AT-SPI2's interface files; D-Bus Specification, "Standard Interfaces").
#[derive(Clone, Copy, Debug, PartialEq, Eq)]
pub enum AppInterface {
    Accessible,
    Application,
    Cache,
    Text,
    EditableText,
    Selection,
    Table,
    Action,
    Properties,
    Peer,
}

impl AppInterface {
    /// Its name.
    pub fn name(self) -> &'static str
        ensures { result.now ≡ interface_name self }
    {
        match self {
            AppInterface::Accessible => "org.a11y.atspi.Accessible",
            AppInterface::Application => "org.a11y.atspi.Application",
            AppInterface::Cache => "org.a11y.atspi.Cache",
            AppInterface::Text => "org.a11y.atspi.Text",
            AppInterface::EditableText => "org.a11y.atspi.EditableText",
            AppInterface::Selection => "org.a11y.atspi.Selection",
            AppInterface::Table => "org.a11y.atspi.Table",
            AppInterface::Action => "org.a11y.atspi.Action",
            AppInterface::Properties => "org.freedesktop.DBus.Properties",
            AppInterface::Peer => "org.freedesktop.DBus.Peer",
        }
    }
}

/// The interface of this name.
pub(crate) fn interface_named(name: &str) -> Option<AppInterface>
    ensures { NamesInterface name.now result }
{
    if name == AppInterface::Accessible.name() {
        Some(AppInterface::Accessible)
    } else if name == AppInterface::Application.name() {
        Some(AppInterface::Application)
    } else if name == AppInterface::Cache.name() {
        Some(AppInterface::Cache)
    } else if name == AppInterface::Text.name() {
        Some(AppInterface::Text)
    } else if name == AppInterface::EditableText.name() {
        Some(AppInterface::EditableText)
    } else if name == AppInterface::Selection.name() {
        Some(AppInterface::Selection)
    } else if name == AppInterface::Table.name() {
        Some(AppInterface::Table)
    } else if name == AppInterface::Action.name() {
        Some(AppInterface::Action)
    } else if name == AppInterface::Properties.name() {
        Some(AppInterface::Properties)
    } else if name == AppInterface::Peer.name() {
        Some(AppInterface::Peer)
    } else {
        None
    }
}
