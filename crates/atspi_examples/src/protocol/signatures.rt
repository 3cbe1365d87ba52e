//! The tables of members and properties: each name with what a member gives, or a property's type, in the order of the
//! tables.

ghost use Rattle.std.specs.Prelude.{◌≡◌, ◌∷◌, [], codes};
ghost use Rattle.atspi_protocol.specs.members.Table.{accessible_lines, action_lines, application_lines, cache_lines};
ghost use Rattle.atspi_protocol.specs.members.Table.{common_lines, editable_text_lines, property_lines, registry_lines};
ghost use Rattle.atspi_protocol.specs.members.Table.{selection_lines, socket_lines, table_lines, text_lines};
ghost use Rattle.atspi_protocol.specs.members.Cases.{label};
ghost use Rattle.atspi_protocol.specs.members.Objects.{keeping};
ghost use Rattle.atspi_examples.specs.protocol.Lists.{gives, types};

/// What every accessible object answers.
pub fn of_nodes()
    ensures accessible { gives accessible_lines
        ≡ (codes "GetChildAtIndex", codes "(so)") ∷ (codes "GetChildren", codes "a(so)")
        ∷ (codes "GetIndexInParent", codes "i") ∷ (codes "GetRelationSet", codes "a(ua(so))")
        ∷ (codes "GetRole", codes "u") ∷ (codes "GetRoleName", codes "s") ∷ (codes "GetLocalizedRoleName", codes "s")
        ∷ (codes "GetState", codes "au")
        ∷ (codes "GetAttributes", codes "a{ss}") ∷ (codes "GetApplication", codes "(so)")
        ∷ (codes "GetInterfaces", codes "as") ∷ [] }
    ensures action { gives action_lines
        ≡ (codes "GetName", codes "s") ∷ (codes "GetDescription", codes "s") ∷ (codes "GetKeyBinding", codes "s")
        ∷ (codes "GetActions", codes "a(sss)") ∷ (codes "DoAction", codes "b") ∷ [] }
{}

/// Texts, and those that can be edited.
pub fn of_texts()
    ensures text { gives text_lines
        ≡ (codes "GetText", codes "s") ∷ (codes "SetCaretOffset", codes "b") ∷ (codes "GetCharacterAtOffset", codes "i")
        ∷ (codes "GetStringAtOffset", codes "sii")
        ∷ (codes "GetNSelections", codes "i")
        ∷ (codes "GetSelection", codes "ii") ∷ (codes "AddSelection", codes "b") ∷ (codes "RemoveSelection", codes "b")
        ∷ (codes "SetSelection", codes "b") ∷ [] }
    ensures editable { gives editable_text_lines
        ≡ (codes "SetTextContents", codes "b") ∷ (codes "InsertText", codes "b") ∷ (codes "DeleteText", codes "b")
        ∷ [] }
{}

/// Lists of which children are selected, and tables.
pub fn of_tables()
    ensures selection { gives selection_lines
        ≡ (codes "GetSelectedChild", codes "(so)") ∷ (codes "SelectChild", codes "b")
        ∷ (codes "DeselectChild", codes "b") ∷ (codes "DeselectSelectedChild", codes "b")
        ∷ (codes "IsChildSelected", codes "b") ∷ (codes "SelectAll", codes "b") ∷ (codes "ClearSelection", codes "b")
        ∷ [] }
    ensures table { gives table_lines
        ≡ (codes "GetAccessibleAt", codes "(so)") ∷ (codes "GetIndexAt", codes "i") ∷ (codes "GetRowAtIndex", codes "i")
        ∷ (codes "GetColumnAtIndex", codes "i")
        ∷ (codes "GetSelectedRows", codes "ai") ∷ (codes "IsRowSelected", codes "b") ∷ (codes "IsSelected", codes "b")
        ∷ [] }
{}

/// The application, the object for its whole tree, and what every object has.
pub fn of_bus_objects()
    ensures application { gives application_lines ≡ (codes "GetLocale", codes "s") ∷ [] }
    ensures cache { gives cache_lines ≡ (codes "GetItems", codes "a((so)(so)(so)iiassusau)") ∷ [] }
    ensures common { gives common_lines
        ≡ (codes "Get", codes "v") ∷ (codes "GetAll", codes "a{sv}") ∷ (codes "Set", []) ∷ (codes "Ping", []) ∷ [] }
{}

/// The registry's two objects.
pub fn of_registry()
    ensures registry { gives registry_lines
        ≡ (codes "RegisterEvent", []) ∷ (codes "DeregisterEvent", []) ∷ (codes "GetRegisteredEvents", codes "a(ss)")
        ∷ [] }
    ensures socket { gives socket_lines ≡ (codes "Embed", codes "(so)") ∷ (codes "Unembed", []) ∷ [] }
{}

/// All properties.
pub fn of_properties()
    ensures { types property_lines
        ≡ (codes "Name", codes "s") ∷ (codes "Description", codes "s") ∷ (codes "Parent", codes "(so)")
        ∷ (codes "ChildCount", codes "i") ∷ (codes "Locale", codes "s")
        ∷ (codes "AccessibleId", codes "s") ∷ (codes "ToolkitName", codes "s") ∷ (codes "Version", codes "s")
        ∷ (codes "AtspiVersion", codes "s") ∷ (codes "Id", codes "i")
        ∷ (codes "CharacterCount", codes "i") ∷ (codes "CaretOffset", codes "i")
        ∷ (codes "NSelectedChildren", codes "i") ∷ (codes "NRows", codes "i")
        ∷ (codes "NColumns", codes "i") ∷ (codes "NActions", codes "i") ∷ [] }
{}

/// Of an interface some properties alone are kept; those of other interfaces stay.
pub fn kept()
    ensures { types (keeping (codes "org.a11y.atspi.Text") (codes "CaretOffset" ∷ []) label).properties
        ≡ (codes "Name", codes "s") ∷ (codes "Description", codes "s") ∷ (codes "Parent", codes "(so)")
        ∷ (codes "ChildCount", codes "i") ∷ (codes "Locale", codes "s")
        ∷ (codes "AccessibleId", codes "s") ∷ (codes "CaretOffset", codes "i") ∷ [] }
{}
