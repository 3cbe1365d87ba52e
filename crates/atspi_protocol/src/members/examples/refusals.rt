//! What is refused and why: the object is looked for first, then the interface, the member, the arguments, and the
//! property.

ghost use Rattle.std.specs.Prelude.{◌≡◌, ◌∷◌, [], None, Some, Ok, Err, pos, codes};
ghost use Rattle.atspi_types.specs.Kinds.{u32, number, i32};
ghost use Rattle.atspi_types.specs.Data.{number_data, text_data, variant_data};
ghost use Rattle.atspi_protocol.specs.members.Interfaces.{accessible, application, text, editable_text, selection};
ghost use Rattle.atspi_protocol.specs.members.Interfaces.{table, action, registry, socket, properties, peer};
ghost use Rattle.atspi_protocol.specs.members.Objects.{object_with, cache_object, registry_object, registry_root};
ghost use Rattle.atspi_protocol.specs.members.Arguments.{int};
ghost use Rattle.atspi_protocol.specs.members.Asked.{asked, member_of, calls};
ghost use Rattle.atspi_protocol.specs.members.Cases.{meant, asks, root, label, one_int, two_ints, one_text, two_texts};

use crate::members::ObjectMember;

/// A call without an interface is looked up by its member alone.
pub fn without_interface()
    ensures node { member_of label None (Some (codes "GetNSelections")) [] ≡ Ok ObjectMember.GetNSelections }
    ensures first { member_of root None (Some (codes "GetLocale")) (number_data u32 0 ∷ [])
        ≡ Ok ObjectMember.GetLocale }
    ensures peer { member_of root None (Some (codes "Ping")) [] ≡ Ok ObjectMember.Ping }
    ensures not_its_own { member_of root None (Some (codes "GetNSelections")) [] ≡ Err (codes "UnknownMethod") }
    ensures no_member { member_of root None None [] ≡ Err (codes "UnknownMethod") }
{}

/// A call of an object that is not there, of an interface that it has not, of a member that the interface has not, with
/// other arguments.
pub fn in_order()
    ensures object { asked None (Some text) (Some (codes "GetText")) [] ≡ Err (codes "UnknownObject") }
    ensures there { asked (Some label) (Some text) (Some (codes "GetText")) two_ints
        ≡ Ok (calls ObjectMember.GetText two_ints) }
    ensures interface { asked (Some root) (Some text) (Some (codes "GetText")) [] ≡ Err (codes "UnknownInterface") }
    ensures stranger { asked (Some root) (Some (codes "i.f")) (Some (codes "GetText")) []
        ≡ Err (codes "UnknownInterface") }
    ensures member { asked (Some label) (Some text) (Some (codes "GetName")) [] ≡ Err (codes "UnknownMethod") }
    ensures of_another { asked (Some label) (Some accessible) (Some (codes "GetText")) two_ints
        ≡ Err (codes "UnknownMethod") }
    ensures before_offsets { asked (Some label) (Some text) (Some (codes "GetTextBeforeOffset"))
        (int (pos 0) ∷ number_data u32 0 ∷ []) ≡ Err (codes "UnknownMethod") }
    ensures none { asked (Some label) (Some text) (Some (codes "GetText")) [] ≡ Err (codes "InvalidArgs") }
    ensures few { asked (Some label) (Some text) (Some (codes "GetText")) one_int ≡ Err (codes "InvalidArgs") }
    ensures many { asked (Some label) (Some text) (Some (codes "GetNSelections")) one_int ≡ Err (codes "InvalidArgs") }
    ensures other { asked (Some label) (Some text) (Some (codes "GetText")) (int (pos 0) ∷ number_data u32 0 ∷ [])
        ≡ Err (codes "InvalidArgs") }
    ensures characters { asked (Some label) (Some text) (Some (codes "GetStringAtOffset"))
        (int (pos 0) ∷ number_data u32 0 ∷ [])
        ≡ Ok (calls ObjectMember.GetStringAtOffset (int (pos 0) ∷ number_data u32 0 ∷ [])) }
    ensures sentences { asked (Some label) (Some text) (Some (codes "GetStringAtOffset"))
        (int (pos 0) ∷ number_data u32 2 ∷ []) ≡ Err (codes "InvalidArgs") }
    ensures no_pieces { asked (Some label) (Some text) (Some (codes "GetStringAtOffset"))
        (int (pos 0) ∷ number_data u32 5 ∷ []) ≡ Err (codes "InvalidArgs") }
    ensures signed_pieces { asked (Some label) (Some text) (Some (codes "GetStringAtOffset")) two_ints
        ≡ Err (codes "InvalidArgs") }
    ensures no_text { meant registry (codes "RegisterEvent") (int (pos 0) ∷ one_text []) ≡ Err (codes "InvalidArgs") }
    ensures nothing { meant registry (codes "RegisterEvent") [] ≡ Err (codes "InvalidArgs") }
{}

/// The interface that Get, GetAll and Set name is looked at directly before the property, which is looked at before
/// whether it can be set.
pub fn of_properties()
    ensures arguments { asks root (codes "Get") (one_text text) ≡ Err (codes "InvalidArgs") }
    ensures interface { asks root (codes "Get") (two_texts text (codes "CaretOffset"))
        ≡ Err (codes "UnknownInterface") }
    ensures all { asks root (codes "GetAll") (one_text text) ≡ Err (codes "UnknownInterface") }
    ensures property { asks root (codes "Get") (two_texts accessible (codes "Id")) ≡ Err (codes "UnknownProperty") }
    ensures empty { asks root (codes "Get") (two_texts peer (codes "Id")) ≡ Err (codes "UnknownProperty") }
    ensures set_interface { asks root (codes "Set")
        (text_data text ∷ text_data (codes "Id") ∷ variant_data (number i32) (int (pos 1)) ∷ [])
        ≡ Err (codes "UnknownInterface") }
    ensures set_property { asks root (codes "Set")
        (text_data accessible ∷ text_data (codes "Id") ∷ variant_data (number i32) (int (pos 1)) ∷ [])
        ≡ Err (codes "UnknownProperty") }
{}

/// The cache object, and the registry's two; its root has a part of Accessible.
pub fn at_other_objects()
    ensures items { member_of cache_object None (Some (codes "GetItems")) [] ≡ Ok ObjectMember.GetItems }
    ensures no_node { member_of cache_object (Some accessible) (Some (codes "GetRole")) []
        ≡ Err (codes "UnknownInterface") }
    ensures register { member_of registry_object None (Some (codes "DeregisterEvent")) (one_text [])
        ≡ Ok ObjectMember.DeregisterEvent }
    ensures ping { member_of registry_object (Some peer) (Some (codes "Ping")) [] ≡ Ok ObjectMember.Ping }
    ensures embed { member_of registry_object (Some socket) (Some (codes "Embed")) [] ≡ Err (codes "UnknownInterface") }
    ensures role { member_of registry_root (Some accessible) (Some (codes "GetRole")) [] ≡ Ok ObjectMember.GetRole }
    ensures child { member_of registry_root (Some accessible) (Some (codes "GetChildAtIndex")) one_int
        ≡ Ok ObjectMember.GetChildAtIndex }
    ensures children { member_of registry_root (Some accessible) (Some (codes "GetChildren")) []
        ≡ Ok ObjectMember.GetChildren }
    ensures role_name { member_of registry_root (Some accessible) (Some (codes "GetRoleName")) []
        ≡ Ok ObjectMember.GetRoleName }
    ensures state { member_of registry_root (Some accessible) (Some (codes "GetState")) []
        ≡ Err (codes "UnknownMethod") }
    ensures no_reference { member_of registry_root (Some socket) (Some (codes "Embed")) [] ≡ Err (codes "InvalidArgs") }
    ensures parent { asks registry_root (codes "Get") (two_texts accessible (codes "Parent"))
        ≡ Err (codes "UnknownProperty") }
{}
