//! Connections leave.

ghost use Rattle.std.specs.Prelude.{◌≡◌, ◌∷◌, ◌++◌, [], None, Some, codes};
ghost use Rattle.atspi_types.specs.Kinds.{i32, text, variant};
ghost use Rattle.atspi_types.specs.Data.{text_data, number_data, variant_data, dictionary_data, no_entries};
ghost use Rattle.atspi_protocol.specs.ends.Places.{reference, reference_kind};
ghost use Rattle.atspi_protocol.specs.ends.Messages.{signal_of};
ghost use Rattle.atspi_protocol.specs.registering.Steps.{registry_takes};
ghost use Rattle.atspi_protocol.specs.registering.Room.{room, two_, three_, four_, five_, six_, children_pair};
ghost use Rattle.atspi_protocol.specs.registering.Room.{window_pair, message, owner_changed, at};

/// A listener: each of its pairs goes and is told.
pub fn of_a_listener()
    ensures pairs { (registry_takes room (owner_changed two_ two_ [])).state.pairs ≡ window_pair ∷ [] }
    ensures children { (registry_takes room (owner_changed two_ two_ [])).state.children ≡ room.children }
    ensures sent { (registry_takes room (owner_changed two_ two_ [])).sent
        ≡ at 10
        (signal_of (codes "/org/a11y/atspi/registry") (codes "org.a11y.atspi.Registry")
        (codes "EventListenerDeregistered") (text_data two_ ∷ text_data (codes "object:children-changed") ∷ []))
        ∷ at 11
        (signal_of (codes "/org/a11y/atspi/registry") (codes "org.a11y.atspi.Registry")
        (codes "EventListenerDeregistered") (text_data two_ ∷ text_data (codes "object:text-changed") ∷ []))
        ∷ [] }
{}

/// An application: its child goes and is told, to those who are still there.
pub fn of_an_application()
    ensures children { (registry_takes room (owner_changed four_ four_ [])).state.children ≡ (five_, codes "/e") ∷ [] }
    ensures sent { (registry_takes room (owner_changed four_ four_ [])).sent
        ≡ at 10
        (signal_of (codes "/org/a11y/atspi/accessible/root") (codes "org.a11y.atspi.Event.Object")
        (codes "ChildrenChanged")
        (text_data (codes "remove") ∷ number_data i32 0 ∷ number_data i32 0
        ∷ variant_data reference_kind (reference four_ (codes "/d")) ∷ dictionary_data text variant no_entries
        ∷ []))
        ∷ [] }
    ensures itself { (registry_takes (record room { pairs = (four_, codes "object") ∷ window_pair ∷ [] })
        (owner_changed four_ four_ [])).sent
        ≡ at 10
        (signal_of (codes "/org/a11y/atspi/registry") (codes "org.a11y.atspi.Registry")
        (codes "EventListenerDeregistered") (text_data four_ ∷ text_data (codes "object") ∷ [])) ∷ [] }
    ensures both { (registry_takes (record room { pairs = (four_, codes "object") ∷ children_pair ∷ [] })
        (owner_changed four_ four_ [])).state.next ≡ 12 }
{}

/// Nothing happens where the name is nobody's here or has a new owner, and where others say so.
pub fn of_nobody()
    ensures a_stranger { registry_takes room (owner_changed six_ six_ []) ≡ record { state = room; sent = [] } }
    ensures passed_on { registry_takes room (owner_changed two_ two_ six_) ≡ record { state = room; sent = [] } }
    ensures by_another { registry_takes room (record (owner_changed two_ two_ []) { sender = Some six_ })
        ≡ record { state = room; sent = [] } }
    ensures by_nobody { registry_takes room (record (owner_changed two_ two_ []) { sender = None })
        ≡ record { state = room; sent = [] } }
    ensures another_interface { registry_takes room
        (record (owner_changed two_ two_ []) { interface = Some (codes "i.f") })
        ≡ record { state = room; sent = [] } }
    ensures another_member { registry_takes room
        (record (owner_changed two_ two_ []) { member = Some (codes "NameLost") })
        ≡ record { state = room; sent = [] } }
    ensures a_return { registry_takes room (record (owner_changed two_ two_ []) { kind = 2 })
        ≡ record { state = room; sent = [] } }
    ensures two_texts { registry_takes room
        (record (owner_changed two_ two_ []) { body = text_data two_ ∷ text_data [] ∷ [] })
        ≡ record { state = room; sent = [] } }
    ensures four_texts { registry_takes room
        (record (owner_changed two_ two_ [])
        { body = text_data two_ ∷ text_data two_ ∷ text_data [] ∷ text_data [] ∷ [] })
        ≡ record { state = room; sent = [] } }
    ensures no_texts { registry_takes room
        (record (owner_changed two_ two_ []) { body = number_data i32 2 ∷ text_data two_ ∷ text_data [] ∷ [] })
        ≡ record { state = room; sent = [] } }
{}
