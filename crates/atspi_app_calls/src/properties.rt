//! The properties of an application's objects, by interface and name.

ghost use Rattle.std.specs.Prelude.{◌≡◌};
ghost use Rattle.atspi_app_calls.specs.declared.interface.AppInterface.TheVariants as interfaces;
ghost use Rattle.atspi_app_calls.specs.Interface.{properties_in};
ghost use Rattle.atspi_app_calls.specs.inner.Lines.{property_first};

use crate::interface::AppInterface;
use atspi_protocol::members::ObjectProperty;

/// The property of Accessible of this name.
fn of_accessible(name: &str) -> Option<ObjectProperty>
    ensures { result ≡ property_first name.now (properties_in interfaces.Accessible) }
{
    if name == "Name" {
        return Some(ObjectProperty::Name);
    }
    if name == "Description" {
        return Some(ObjectProperty::Description);
    }
    if name == "Parent" {
        return Some(ObjectProperty::Parent);
    }
    if name == "ChildCount" {
        return Some(ObjectProperty::ChildCount);
    }
    if name == "Locale" {
        return Some(ObjectProperty::Locale);
    }
    if name == "AccessibleId" {
        return Some(ObjectProperty::AccessibleId);
    }
    None
}

/// The property of Application of this name.
fn of_application(name: &str) -> Option<ObjectProperty>
    ensures { result ≡ property_first name.now (properties_in interfaces.Application) }
{
    if name == "ToolkitName" {
        return Some(ObjectProperty::ToolkitName);
    }
    if name == "Version" {
        return Some(ObjectProperty::Version);
    }
    if name == "AtspiVersion" {
        return Some(ObjectProperty::AtspiVersion);
    }
    if name == "Id" {
        return Some(ObjectProperty::Id);
    }
    None
}

/// The property of Text of this name.
fn of_text(name: &str) -> Option<ObjectProperty>
    ensures { result ≡ property_first name.now (properties_in interfaces.Text) }
{
    if name == "CharacterCount" {
        return Some(ObjectProperty::CharacterCount);
    }
    if name == "CaretOffset" {
        return Some(ObjectProperty::CaretOffset);
    }
    None
}

/// The property of Selection of this name.
fn of_selection(name: &str) -> Option<ObjectProperty>
    ensures { result ≡ property_first name.now (properties_in interfaces.Selection) }
{
    if name == "NSelectedChildren" {
        return Some(ObjectProperty::NSelectedChildren);
    }
    None
}

/// The property of Table of this name.
fn of_table(name: &str) -> Option<ObjectProperty>
    ensures { result ≡ property_first name.now (properties_in interfaces.Table) }
{
    if name == "NRows" {
        return Some(ObjectProperty::NRows);
    }
    if name == "NColumns" {
        return Some(ObjectProperty::NColumns);
    }
    None
}

/// The property of Action of this name.
fn of_action(name: &str) -> Option<ObjectProperty>
    ensures { result ≡ property_first name.now (properties_in interfaces.Action) }
{
    if name == "NActions" {
        return Some(ObjectProperty::NActions);
    }
    None
}

/// The property of an interface of this name.
pub(crate) fn property_in(interface: AppInterface, name: &str) -> Option<ObjectProperty>
    ensures { result ≡ property_first name.now (properties_in interface) }
{
    match interface {
        AppInterface::Accessible => of_accessible(name),
        AppInterface::Application => of_application(name),
        AppInterface::Text => of_text(name),
        AppInterface::Selection => of_selection(name),
        AppInterface::Table => of_table(name),
        AppInterface::Action => of_action(name),
        AppInterface::Cache
        | AppInterface::EditableText
        | AppInterface::Properties
        | AppInterface::Peer => None,
    }
}
