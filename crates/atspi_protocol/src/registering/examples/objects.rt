//! What the registry's objects answer.

ghost use Rattle.std.specs.Prelude.{◌≡◌, ◌∷◌, ◌++◌, [], None, Some, codes};
ghost use Rattle.atspi_types.specs.Kinds.{i32, u32, number, text, variant};
ghost use Rattle.atspi_types.specs.Data.{text_data, number_data, variant_data, array_data, dictionary_data, item};
ghost use Rattle.atspi_types.specs.Data.{no_items, entry, no_entries};
ghost use Rattle.atspi_protocol.specs.ends.Places.{registry_path, root_path, reference, reference_kind};
ghost use Rattle.atspi_protocol.specs.ends.Messages.{return_to, error_to};
ghost use Rattle.atspi_protocol.specs.registering.Steps.{registry_takes};
ghost use Rattle.atspi_protocol.specs.registering.Room.{room, four_, five_, six_, message, call_from, registry_call};
ghost use Rattle.atspi_protocol.specs.registering.Room.{root_call, property_call, one_text, one_reference, at};

/// The children, all and by their index, below 0 and behind the last one too.
pub fn children()
    ensures all { (registry_takes room (root_call (codes "GetChildren") [])).sent
        ≡ at 10
        (return_to six_ 5
        (array_data reference_kind
        (item (reference four_ (codes "/d")) (item (reference five_ (codes "/e")) no_items)) ∷ []))
        ∷ [] }
    ensures first { (registry_takes room (root_call (codes "GetChildAtIndex") (number_data i32 0 ∷ []))).sent
        ≡ at 10 (return_to six_ 5 (one_reference four_ (codes "/d"))) ∷ [] }
    ensures last { (registry_takes room (root_call (codes "GetChildAtIndex") (number_data i32 1 ∷ []))).sent
        ≡ at 10 (return_to six_ 5 (one_reference five_ (codes "/e"))) ∷ [] }
    ensures behind { (registry_takes room (root_call (codes "GetChildAtIndex") (number_data i32 2 ∷ []))).sent
        ≡ at 10 (return_to six_ 5 (one_reference (codes ":1.0") (codes "/org/a11y/atspi/null"))) ∷ [] }
    ensures below_0 { (registry_takes room (root_call (codes "GetChildAtIndex") (number_data i32 4294967295 ∷ []))).sent
        ≡ at 10 (return_to six_ 5 (one_reference (codes ":1.0") (codes "/org/a11y/atspi/null"))) ∷ [] }
{}

/// Its role, its properties, and Ping.
pub fn others()
    ensures role { (registry_takes room (root_call (codes "GetRole") [])).sent
        ≡ at 10 (return_to six_ 5 (number_data u32 14 ∷ [])) ∷ [] }
    ensures role_name { (registry_takes room (root_call (codes "GetRoleName") [])).sent
        ≡ at 10 (return_to six_ 5 (one_text (codes "desktop frame"))) ∷ [] }
    ensures name { (registry_takes room
        (property_call (codes "Get")
        (text_data (codes "org.a11y.atspi.Accessible") ∷ text_data (codes "Name") ∷ []))).sent
        ≡ at 10 (return_to six_ 5 (variant_data text (text_data (codes "main")) ∷ [])) ∷ [] }
    ensures child_count { (registry_takes room
        (property_call (codes "Get")
        (text_data (codes "org.a11y.atspi.Accessible") ∷ text_data (codes "ChildCount") ∷ []))).sent
        ≡ at 10 (return_to six_ 5 (variant_data (number i32) (number_data i32 2) ∷ [])) ∷ [] }
    ensures all { (registry_takes room
        (property_call (codes "GetAll") (one_text (codes "org.a11y.atspi.Accessible")))).sent
        ≡ at 10
        (return_to six_ 5
        (dictionary_data text variant
        (entry (text_data (codes "Name")) (variant_data text (text_data (codes "main")))
        (entry (text_data (codes "ChildCount")) (variant_data (number i32) (number_data i32 2))
        no_entries)) ∷ [])) ∷ [] }
    ensures none { (registry_takes room
        (property_call (codes "GetAll") (one_text (codes "org.a11y.atspi.Socket")))).sent
        ≡ at 10 (return_to six_ 5 (dictionary_data text variant no_entries ∷ [])) ∷ [] }
    ensures ping { (registry_takes room
        (call_from six_ registry_path (codes "org.freedesktop.DBus.Peer") (codes "Ping") [])).sent
        ≡ at 10 (return_to six_ 5 []) ∷ [] }
    ensures kept { (registry_takes room (root_call (codes "GetRole") [])).state ≡ record room { next = 11 } }
{}

/// Refusals, in their order: object, interface, member, arguments, property.
pub fn refused()
    ensures object { (registry_takes room (call_from six_ (codes "/a") (codes "i.f") (codes "M") [])).sent
        ≡ at 10 (error_to six_ 5 (codes "UnknownObject")) ∷ [] }
    ensures no_path { (registry_takes room (message 1 (Some six_) [])).sent
        ≡ at 10 (error_to six_ 5 (codes "UnknownObject")) ∷ [] }
    ensures interface { (registry_takes room
        (call_from six_ root_path (codes "org.a11y.atspi.Registry") (codes "RegisterEvent") [])).sent
        ≡ at 10 (error_to six_ 5 (codes "UnknownInterface")) ∷ [] }
    ensures member { (registry_takes room (root_call (codes "GetState") [])).sent
        ≡ at 10 (error_to six_ 5 (codes "UnknownMethod")) ∷ [] }
    ensures arguments { (registry_takes room (root_call (codes "GetRole") (one_text (codes "x")))).sent
        ≡ at 10 (error_to six_ 5 (codes "InvalidArgs")) ∷ [] }
    ensures property { (registry_takes room
        (property_call (codes "Get")
        (text_data (codes "org.a11y.atspi.Accessible") ∷ text_data (codes "Parent") ∷ []))).sent
        ≡ at 10 (error_to six_ 5 (codes "UnknownProperty")) ∷ [] }
    ensures properties_of { (registry_takes room
        (property_call (codes "GetAll") (one_text (codes "org.a11y.atspi.Text")))).sent
        ≡ at 10 (error_to six_ 5 (codes "UnknownInterface")) ∷ [] }
    ensures read_only { (registry_takes room
        (property_call (codes "Set")
        (text_data (codes "org.a11y.atspi.Accessible") ∷ text_data (codes "Name")
        ∷ variant_data text (text_data (codes "x")) ∷ []))).sent
        ≡ at 10 (error_to six_ 5 (codes "PropertyReadOnly")) ∷ [] }
{}

/// A call that names no interface is looked up by its member.
pub fn without_interface()
    ensures registered { (registry_takes room
        (record (registry_call six_ (codes "RegisterEvent") (one_text (codes "window")))
        { interface = None })).state.pairs ≡ room.pairs ++ (six_, codes "window") ∷ [] }
    ensures role { (registry_takes room (record (root_call (codes "GetRole") []) { interface = None })).sent
        ≡ at 10 (return_to six_ 5 (number_data u32 14 ∷ [])) ∷ [] }
    ensures nowhere { (registry_takes room (record (registry_call six_ (codes "GetRole") []) { interface = None })).sent
        ≡ at 10 (error_to six_ 5 (codes "UnknownMethod")) ∷ [] }
{}
