//! The properties: each is got by its name, all of an interface in the order of the table, and the application's Id is
//! set.

ghost use Rattle.std.specs.Prelude.{◌≡◌, ◌∷◌, [], pos, negsuc, Ok, Err, codes};
ghost use Rattle.atspi_types.specs.Kinds.{number, i32, u32, text as text_kind};
ghost use Rattle.atspi_types.specs.Data.{number_data, text_data, variant_data};
ghost use Rattle.atspi_protocol.specs.members.Interfaces.{accessible, application, text, selection, table, action};
ghost use Rattle.atspi_protocol.specs.members.Interfaces.{cache, properties, peer};
ghost use Rattle.atspi_protocol.specs.members.Objects.{object_with, registry_root};
ghost use Rattle.atspi_protocol.specs.members.Arguments.{int};
ghost use Rattle.atspi_protocol.specs.members.Asked.{gets, gets_all, sets, properties_of};
ghost use Rattle.atspi_protocol.specs.members.Cases.{asks, names, types_in, root, label, one_text, two_texts};

use crate::members::ObjectProperty;

/// Each property of each interface.
pub fn got()
    ensures name { asks (object_with (accessible ∷ [])) (codes "Get") (two_texts accessible (codes "Name"))
        ≡ Ok (gets ObjectProperty.Name) }
    ensures description { asks (object_with (accessible ∷ [])) (codes "Get")
        (two_texts accessible (codes "Description")) ≡ Ok (gets ObjectProperty.Description) }
    ensures parent { asks (object_with (accessible ∷ [])) (codes "Get") (two_texts accessible (codes "Parent"))
        ≡ Ok (gets ObjectProperty.Parent) }
    ensures child_count { asks (object_with (accessible ∷ [])) (codes "Get") (two_texts accessible (codes "ChildCount"))
        ≡ Ok (gets ObjectProperty.ChildCount) }
    ensures locale { asks (object_with (accessible ∷ [])) (codes "Get") (two_texts accessible (codes "Locale"))
        ≡ Ok (gets ObjectProperty.Locale) }
    ensures accessible_id { asks (object_with (accessible ∷ [])) (codes "Get")
        (two_texts accessible (codes "AccessibleId")) ≡ Ok (gets ObjectProperty.AccessibleId) }
    ensures toolkit_name { asks (object_with (application ∷ [])) (codes "Get")
        (two_texts application (codes "ToolkitName")) ≡ Ok (gets ObjectProperty.ToolkitName) }
    ensures version { asks (object_with (application ∷ [])) (codes "Get") (two_texts application (codes "Version"))
        ≡ Ok (gets ObjectProperty.Version) }
    ensures atspi_version { asks (object_with (application ∷ [])) (codes "Get")
        (two_texts application (codes "AtspiVersion")) ≡ Ok (gets ObjectProperty.AtspiVersion) }
    ensures id { asks (object_with (application ∷ [])) (codes "Get") (two_texts application (codes "Id"))
        ≡ Ok (gets ObjectProperty.Id) }
    ensures character_count { asks (object_with (text ∷ [])) (codes "Get") (two_texts text (codes "CharacterCount"))
        ≡ Ok (gets ObjectProperty.CharacterCount) }
    ensures caret_offset { asks (object_with (text ∷ [])) (codes "Get") (two_texts text (codes "CaretOffset"))
        ≡ Ok (gets ObjectProperty.CaretOffset) }
    ensures n_selected_children { asks (object_with (selection ∷ [])) (codes "Get")
        (two_texts selection (codes "NSelectedChildren")) ≡ Ok (gets ObjectProperty.NSelectedChildren) }
    ensures n_rows { asks (object_with (table ∷ [])) (codes "Get") (two_texts table (codes "NRows"))
        ≡ Ok (gets ObjectProperty.NRows) }
    ensures n_columns { asks (object_with (table ∷ [])) (codes "Get") (two_texts table (codes "NColumns"))
        ≡ Ok (gets ObjectProperty.NColumns) }
    ensures n_actions { asks (object_with (action ∷ [])) (codes "Get") (two_texts action (codes "NActions"))
        ≡ Ok (gets ObjectProperty.NActions) }
{}

/// All properties of an interface, in the order of the table; there are interfaces without any.
pub fn listed()
    ensures accessible { names (properties_of root accessible)
        ≡ Ok
        (codes "Name" ∷ codes "Description" ∷ codes "Parent" ∷ codes "ChildCount" ∷ codes "Locale"
        ∷ codes "AccessibleId" ∷ []) }
    ensures application { names (properties_of root application)
        ≡ Ok (codes "ToolkitName" ∷ codes "Version" ∷ codes "AtspiVersion" ∷ codes "Id" ∷ []) }
    ensures text { names (properties_of label text) ≡ Ok (codes "CharacterCount" ∷ codes "CaretOffset" ∷ []) }
    ensures table { names (properties_of (object_with (table ∷ [])) table)
        ≡ Ok (codes "NRows" ∷ codes "NColumns" ∷ []) }
    ensures registry { names (properties_of registry_root accessible) ≡ Ok (codes "Name" ∷ codes "ChildCount" ∷ []) }
    ensures all { asks label (codes "GetAll") (one_text properties) ≡ Ok (gets_all []) }
    ensures none { asks label (codes "GetAll") (one_text peer) ≡ Ok (gets_all []) }
    ensures cache { asks (object_with (cache ∷ [])) (codes "GetAll") (one_text cache) ≡ Ok (gets_all []) }
{}

/// The types of the properties, in the order of the table.
pub fn types()
    ensures accessible { types_in (properties_of root accessible)
        ≡ Ok (codes "s" ∷ codes "s" ∷ codes "(so)" ∷ codes "i" ∷ codes "s" ∷ codes "s" ∷ []) }
    ensures application { types_in (properties_of root application)
        ≡ Ok (codes "s" ∷ codes "s" ∷ codes "s" ∷ codes "i" ∷ []) }
    ensures text { types_in (properties_of label text) ≡ Ok (codes "i" ∷ codes "i" ∷ []) }
    ensures table { types_in (properties_of (object_with (table ∷ [])) table) ≡ Ok (codes "i" ∷ codes "i" ∷ []) }
{}

/// The application's Id alone can be set, to a signed number.
pub fn set()
    ensures id { asks root (codes "Set")
        (text_data application ∷ text_data (codes "Id") ∷ variant_data (number i32) (int (negsuc 0)) ∷ [])
        ≡ Ok (sets ObjectProperty.Id (int (negsuc 0))) }
    ensures text { asks root (codes "Set")
        (text_data application ∷ text_data (codes "Id") ∷ variant_data text_kind (text_data (codes "1")) ∷ [])
        ≡ Err (codes "InvalidArgs") }
    ensures unsigned { asks root (codes "Set")
        (text_data application ∷ text_data (codes "Id") ∷ variant_data (number u32) (number_data u32 1) ∷ [])
        ≡ Err (codes "InvalidArgs") }
    ensures version { asks root (codes "Set")
        (text_data application ∷ text_data (codes "Version") ∷ variant_data text_kind (text_data (codes "1")) ∷ [])
        ≡ Err (codes "PropertyReadOnly") }
    ensures name { asks root (codes "Set")
        (text_data accessible ∷ text_data (codes "Name") ∷ variant_data (number i32) (int (pos 1)) ∷ [])
        ≡ Err (codes "PropertyReadOnly") }
{}
