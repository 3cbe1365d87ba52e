//! Listeners come and go.

ghost use Rattle.std.specs.Prelude.{◌≡◌, ◌∷◌, ◌++◌, [], None, Some, codes};
ghost use Rattle.atspi_types.specs.Kinds.{u32, kind, no_kinds, structure, text};
ghost use Rattle.atspi_types.specs.Data.{text_data, number_data, structure_data, array_data, item, no_items};
ghost use Rattle.atspi_protocol.specs.ends.Messages.{signal_of, return_to, error_to};
ghost use Rattle.atspi_protocol.specs.registering.Steps.{registry_takes};
ghost use Rattle.atspi_protocol.specs.registering.Room.{room, quiet_room, two_, three_, six_, children_pair, text_pair};
ghost use Rattle.atspi_protocol.specs.registering.Room.{window_pair, registry_call, one_text, at};

/// A new pair is kept and told, and then the caller is returned to. What stands behind the pattern is not read.
pub fn registrations()
    ensures pairs { (registry_takes room
        (registry_call six_ (codes "RegisterEvent") (one_text (codes "window")))).state.pairs
        ≡ room.pairs ++ (six_, codes "window") ∷ [] }
    ensures sent { (registry_takes room (registry_call six_ (codes "RegisterEvent") (one_text (codes "window")))).sent
        ≡ at 10
        (signal_of (codes "/org/a11y/atspi/registry") (codes "org.a11y.atspi.Registry")
        (codes "EventListenerRegistered") (text_data six_ ∷ text_data (codes "window") ∷ []))
        ∷ at 11 (return_to six_ 5 []) ∷ [] }
    ensures next { (registry_takes room
        (registry_call six_ (codes "RegisterEvent") (one_text (codes "window")))).state.next ≡ 12 }
    ensures more { (registry_takes room
        (registry_call six_ (codes "RegisterEvent")
        (text_data (codes "window") ∷ number_data u32 3 ∷ []))).state.pairs
        ≡ room.pairs ++ (six_, codes "window") ∷ [] }
    ensures unexpecting { (registry_takes room
        (record (registry_call six_ (codes "RegisterEvent") (one_text (codes "window"))) { flags = 1 })).sent
        ≡ at 10
        (signal_of (codes "/org/a11y/atspi/registry") (codes "org.a11y.atspi.Registry")
        (codes "EventListenerRegistered") (text_data six_ ∷ text_data (codes "window") ∷ [])) ∷ [] }
    ensures other_pattern { (registry_takes room
        (registry_call three_ (codes "RegisterEvent") (one_text (codes "object")))).state.pairs
        ≡ room.pairs ++ (three_, codes "object") ∷ [] }
{}

/// A pair that is there already is neither kept again nor told: the caller is returned to.
pub fn again()
    ensures pairs { (registry_takes room
        (registry_call three_ (codes "RegisterEvent") (one_text (codes "window")))).state
        ≡ record room { next = 11 } }
    ensures sent { (registry_takes room (registry_call three_ (codes "RegisterEvent") (one_text (codes "window")))).sent
        ≡ at 10 (return_to three_ 5 []) ∷ [] }
    ensures unexpecting { registry_takes room
        (record (registry_call three_ (codes "RegisterEvent") (one_text (codes "window"))) { flags = 1 })
        ≡ record { state = room; sent = [] } }
{}

/// A pair that is given back, or is not there.
pub fn deregistrations()
    ensures pairs { (registry_takes room
        (registry_call two_ (codes "DeregisterEvent") (one_text (codes "object:text-changed")))).state.pairs
        ≡ children_pair ∷ window_pair ∷ [] }
    ensures sent { (registry_takes room
        (registry_call two_ (codes "DeregisterEvent") (one_text (codes "object:text-changed")))).sent
        ≡ at 10
        (signal_of (codes "/org/a11y/atspi/registry") (codes "org.a11y.atspi.Registry")
        (codes "EventListenerDeregistered") (text_data two_ ∷ text_data (codes "object:text-changed") ∷ []))
        ∷ at 11 (return_to two_ 5 []) ∷ [] }
    ensures of_another { (registry_takes room
        (registry_call three_ (codes "DeregisterEvent") (one_text (codes "object:text-changed")))).state
        ≡ record room { next = 11 } }
    ensures returned { (registry_takes room
        (registry_call three_ (codes "DeregisterEvent") (one_text (codes "object:text-changed")))).sent
        ≡ at 10 (return_to three_ 5 []) ∷ [] }
    ensures as_written { (registry_takes room
        (registry_call two_ (codes "DeregisterEvent") (one_text (codes "object:textchanged")))).state
        ≡ record room { next = 11 } }
{}

/// All pairs, in order of arrival.
pub fn listed()
    ensures many { (registry_takes room (registry_call six_ (codes "GetRegisteredEvents") [])).sent
        ≡ at 10 (return_to six_ 5 (array_data (structure (kind text (kind text no_kinds)))
        (item (structure_data (item (text_data two_) (item (text_data (codes "object:children-changed")) no_items)))
        (item (structure_data (item (text_data two_) (item (text_data (codes "object:text-changed")) no_items)))
        (item (structure_data (item (text_data three_) (item (text_data (codes "window")) no_items))) no_items))) ∷ []))
        ∷ [] }
    ensures none { (registry_takes quiet_room (registry_call six_ (codes "GetRegisteredEvents") [])).sent
        ≡ at 10 (return_to six_ 5 (array_data (structure (kind text (kind text no_kinds))) no_items ∷ [])) ∷ [] }
{}

/// A wrong body changes nothing; nor does a call whose sender is not known.
pub fn refusals()
    ensures nothing { (registry_takes room (registry_call six_ (codes "RegisterEvent") [])).sent
        ≡ at 10 (error_to six_ 5 (codes "InvalidArgs")) ∷ [] }
    ensures no_text { (registry_takes room
        (registry_call six_ (codes "RegisterEvent") (number_data u32 3 ∷ text_data (codes "window") ∷ []))).sent
        ≡ at 10 (error_to six_ 5 (codes "InvalidArgs")) ∷ [] }
    ensures state { (registry_takes room (registry_call six_ (codes "RegisterEvent") [])).state
        ≡ record room { next = 11 } }
    ensures deregister_more { (registry_takes room
        (registry_call two_ (codes "DeregisterEvent")
        (text_data (codes "object:text-changed") ∷ number_data u32 3 ∷ []))).sent
        ≡ at 10 (error_to two_ 5 (codes "InvalidArgs")) ∷ [] }
    ensures list_more { (registry_takes room
        (registry_call six_ (codes "GetRegisteredEvents") (number_data u32 3 ∷ []))).sent
        ≡ at 10 (error_to six_ 5 (codes "InvalidArgs")) ∷ [] }
    ensures no_sender { registry_takes room
        (record (registry_call six_ (codes "RegisterEvent") (one_text (codes "window"))) { sender = None })
        ≡ record { state = room; sent = [] } }
    ensures unexpecting { registry_takes room (record (registry_call six_ (codes "RegisterEvent") []) { flags = 1 })
        ≡ record { state = room; sent = [] } }
{}
