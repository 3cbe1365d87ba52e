//! Roots are embedded and taken back.

ghost use Rattle.std.specs.Prelude.{◌≡◌, ◌∷◌, ◌++◌, [], None, Some, codes};
ghost use Rattle.atspi_types.specs.Kinds.{i32, u32, number, text, variant};
ghost use Rattle.atspi_types.specs.Data.{text_data, number_data, variant_data, dictionary_data, no_entries};
ghost use Rattle.atspi_protocol.specs.ends.Places.{reference, reference_kind};
ghost use Rattle.atspi_protocol.specs.ends.Messages.{call_to, signal_of, return_to, error_to, returns};
ghost use Rattle.atspi_protocol.specs.registering.Told.{count, is_asked_for};
ghost use Rattle.atspi_protocol.specs.registering.Answers.{only, adopts, releases};
ghost use Rattle.atspi_protocol.specs.registering.Steps.{registry_takes, answered};
ghost use Rattle.atspi_protocol.specs.registering.Room.{room, quiet_room, four_, five_, six_, message, socket_call};
ghost use Rattle.atspi_protocol.specs.registering.Room.{one_text, one_reference, at};

/// A new child is returned to, gets the count of roots embedded before it as its number, and is told.
pub fn embedded()
    ensures children { (registry_takes room
        (socket_call six_ (codes "Embed") (one_reference six_ (codes "/f")))).state.children
        ≡ room.children ++ (six_, codes "/f") ∷ [] }
    ensures embeds { (registry_takes room
        (socket_call six_ (codes "Embed") (one_reference six_ (codes "/f")))).state.embeds ≡ 8 }
    ensures sent { (registry_takes quiet_room (socket_call six_ (codes "Embed") (one_reference six_ (codes "/f")))).sent
        ≡ at 10
        (return_to six_ 5 (one_reference (codes "org.a11y.atspi.Registry") (codes "/org/a11y/atspi/accessible/root")))
        ∷ at 11
        (call_to six_ (codes "/f") (codes "org.freedesktop.DBus.Properties") (codes "Set")
        (text_data (codes "org.a11y.atspi.Application") ∷ text_data (codes "Id")
        ∷ variant_data (number i32) (number_data i32 7) ∷ []))
        ∷ [] }
    ensures told { (adopts room (six_, codes "/f")).behind
        ≡ call_to six_ (codes "/f") (codes "org.freedesktop.DBus.Properties") (codes "Set")
        (text_data (codes "org.a11y.atspi.Application") ∷ text_data (codes "Id")
        ∷ variant_data (number i32) (number_data i32 7) ∷ [])
        ∷ signal_of (codes "/org/a11y/atspi/accessible/root") (codes "org.a11y.atspi.Event.Object")
        (codes "ChildrenChanged")
        (text_data (codes "add") ∷ number_data i32 2 ∷ number_data i32 0
        ∷ variant_data reference_kind (reference six_ (codes "/f")) ∷ dictionary_data text variant no_entries ∷ [])
        ∷ [] }
    ensures unexpecting { (registry_takes quiet_room
        (record (socket_call six_ (codes "Embed") (one_reference six_ (codes "/f"))) { flags = 1 })).sent
        ≡ at 10
        (call_to six_ (codes "/f") (codes "org.freedesktop.DBus.Properties") (codes "Set")
        (text_data (codes "org.a11y.atspi.Application") ∷ text_data (codes "Id")
        ∷ variant_data (number i32) (number_data i32 7) ∷ [])) ∷ [] }
    ensures unasked { (registry_takes quiet_room
        (socket_call six_ (codes "Embed") (one_reference six_ (codes "/f")))).state.next ≡ 12 }
    ensures last { (registry_takes (record room { embeds = 2147483647 })
        (socket_call six_ (codes "Embed") (one_reference six_ (codes "/f")))).state.embeds ≡ 2147483647 }
{}

/// Who has a child already is returned to, and nothing else happens; another's root is refused.
pub fn not_embedded()
    ensures again { (registry_takes room (socket_call four_ (codes "Embed") (one_reference four_ (codes "/f")))).state
        ≡ record room { next = 11 } }
    ensures returned { (registry_takes room (socket_call four_ (codes "Embed") (one_reference four_ (codes "/f")))).sent
        ≡ at 10
        (return_to four_ 5
        (one_reference (codes "org.a11y.atspi.Registry") (codes "/org/a11y/atspi/accessible/root"))) ∷ [] }
    ensures of_another { (registry_takes room
        (socket_call six_ (codes "Embed") (one_reference five_ (codes "/f")))).sent
        ≡ at 10 (error_to six_ 5 (codes "InvalidArgs")) ∷ [] }
    ensures refused { (registry_takes room (socket_call six_ (codes "Embed") (one_reference five_ (codes "/f")))).state
        ≡ record room { next = 11 } }
    ensures no_reference { (registry_takes room (socket_call six_ (codes "Embed") (one_text six_))).sent
        ≡ at 10 (error_to six_ 5 (codes "InvalidArgs")) ∷ [] }
    ensures two_references { (registry_takes room
        (socket_call six_ (codes "Embed")
        (one_reference six_ (codes "/f") ++ one_reference six_ (codes "/f")))).sent
        ≡ at 10 (error_to six_ 5 (codes "InvalidArgs")) ∷ [] }
{}

/// A child that is taken back is told, and then the caller is returned to.
pub fn taken_back()
    ensures children { (registry_takes room
        (socket_call five_ (codes "Unembed") (one_reference five_ (codes "/any")))).state.children
        ≡ (four_, codes "/d") ∷ [] }
    ensures embeds { (registry_takes room
        (socket_call five_ (codes "Unembed") (one_reference five_ (codes "/any")))).state.embeds ≡ 7 }
    ensures told { (releases room five_).before
        ≡ signal_of (codes "/org/a11y/atspi/accessible/root") (codes "org.a11y.atspi.Event.Object")
        (codes "ChildrenChanged")
        (text_data (codes "remove") ∷ number_data i32 1 ∷ number_data i32 0
        ∷ variant_data reference_kind (reference five_ (codes "/e")) ∷ dictionary_data text variant no_entries ∷ [])
        ∷ [] }
    ensures sent { (answered room five_ (message 1 (Some five_) [])
        (record (only room (returns []))
        { before = signal_of [] [] [] [] ∷ []; behind = call_to [] [] [] [] [] ∷ [] })).sent
        ≡ at 10 (signal_of [] [] [] []) ∷ at 11 (return_to five_ 5 []) ∷ at 12 (call_to [] [] [] [] []) ∷ [] }
    ensures unasked { (registry_takes quiet_room
        (socket_call five_ (codes "Unembed") (one_reference five_ (codes "/e")))).sent
        ≡ at 10 (return_to five_ 5 []) ∷ [] }
    ensures no_child { registry_takes room (socket_call six_ (codes "Unembed") (one_reference six_ (codes "/f")))
        ≡ record { state = record room { next = 11 }; sent = at 10 (return_to six_ 5 []) ∷ [] } }
    ensures of_another { (registry_takes room
        (socket_call six_ (codes "Unembed") (one_reference five_ (codes "/e")))).sent
        ≡ at 10 (error_to six_ 5 (codes "InvalidArgs")) ∷ [] }
    ensures kept { (registry_takes room (socket_call six_ (codes "Unembed") (one_reference five_ (codes "/e")))).state
        ≡ record room { next = 11 } }
{}

/// Counts stand still at the end of their type, and news of children is asked for by its minor word.
pub fn counts()
    ensures zero { count 0 ≡ number_data i32 0 }
    ensures last { count 2147483647 ≡ number_data i32 2147483647 }
    ensures behind { count 2147483648 ≡ number_data i32 2147483647 }
    ensures added { is_asked_for ((six_, codes "object:children-changed:add") ∷ []) (codes "add")
        ≡ is_asked_for room.pairs (codes "remove") }
    ensures not_removed { is_asked_for ((six_, codes "object:children-changed:add") ∷ []) (codes "remove")
        ≡ is_asked_for quiet_room.pairs (codes "add") }
{}
