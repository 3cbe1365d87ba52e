//! How the registry starts, and what it reads until it has its name.

ghost use Rattle.std.specs.Prelude.{◌≡◌, ◌∷◌, [], None, Some, codes};
ghost use Rattle.atspi_types.specs.Kinds.{u32};
ghost use Rattle.atspi_types.specs.Data.{text_data, number_data};
ghost use Rattle.atspi_protocol.specs.ends.Messages.{call_to, error_to};
ghost use Rattle.atspi_protocol.specs.registering.RegistryState.{begins};
ghost use Rattle.atspi_protocol.specs.registering.Steps.{registry_starts, registry_takes, starts, takes};
ghost use Rattle.atspi_protocol.specs.registering.Room.{room, six_, message, registry_call, bus_return, owner_changed};
ghost use Rattle.atspi_protocol.specs.registering.Room.{one_text, at};

/// Three calls to the bus at once.
pub fn calls()
    ensures hello { (registry_starts begins).sent
        ≡ at 1
        (call_to (codes "org.freedesktop.DBus") (codes "/org/freedesktop/DBus") (codes "org.freedesktop.DBus")
        (codes "Hello") [])
        ∷ at 2
        (call_to (codes "org.freedesktop.DBus") (codes "/org/freedesktop/DBus") (codes "org.freedesktop.DBus")
        (codes "RequestName") (text_data (codes "org.a11y.atspi.Registry") ∷ number_data u32 4 ∷ []))
        ∷ at 3
        (call_to (codes "org.freedesktop.DBus") (codes "/org/freedesktop/DBus") (codes "org.freedesktop.DBus")
        (codes "AddMatch")
        (one_text (codes "type='signal',interface='org.freedesktop.DBus',member='NameOwnerChanged'")))
        ∷ [] }
    ensures next { (registry_starts begins).state.next ≡ 4 }
    ensures awaits { (registry_starts begins).state.hello ≡ Some 1 }
    ensures no_name { (registry_starts begins).state.own ≡ None }
    ensures queued { (starts (record { state = begins; out = [] })).out ≡ (registry_starts begins).sent }
{}

/// The text of the return to Hello is the name, whoever sent it; nothing is sent then.
pub fn names()
    ensures named { (registry_takes (registry_starts begins).state (bus_return 1 (one_text (codes ":1.0")))).state.own
        ≡ Some (codes ":1.0") }
    ensures silent { (registry_takes (registry_starts begins).state (bus_return 1 (one_text (codes ":1.0")))).sent
        ≡ [] }
    ensures further_values { (registry_takes (registry_starts begins).state
        (bus_return 1 (text_data (codes ":1.0") ∷ number_data u32 4 ∷ []))).state.own ≡ Some (codes ":1.0") }
    ensures another_call { (registry_takes (registry_starts begins).state
        (bus_return 2 (one_text (codes ":1.0")))).state ≡ (registry_starts begins).state }
    ensures of_a_stranger { (registry_takes (registry_starts begins).state
        (record (bus_return 1 (one_text (codes ":1.0"))) { sender = Some six_ })).state.own ≡ Some (codes ":1.0") }
    ensures of_nobody { (registry_takes (registry_starts begins).state
        (record (bus_return 1 (one_text (codes ":1.0"))) { sender = None })).state.own ≡ Some (codes ":1.0") }
    ensures a_stranger_to_another_call { (registry_takes (registry_starts begins).state
        (record (bus_return 2 (one_text (codes ":1.0"))) { sender = Some six_ })).state
        ≡ (registry_starts begins).state }
    ensures an_error { (registry_takes (registry_starts begins).state
        (record (bus_return 1 (one_text (codes ":1.0"))) { kind = 3 })).state ≡ (registry_starts begins).state }
    ensures no_text { (registry_takes (registry_starts begins).state (bus_return 1 (number_data u32 4 ∷ []))).state
        ≡ (registry_starts begins).state }
    ensures not_started { (registry_takes begins (bus_return 1 (one_text (codes ":1.0")))).state ≡ begins }
    ensures a_second_one { (registry_takes room (bus_return 1 (one_text (codes ":1.9")))).state ≡ room }
{}

/// Until it has its name it reads nothing else, and calls get no reply.
pub fn before()
    ensures call { registry_takes (registry_starts begins).state
        (registry_call six_ (codes "RegisterEvent") (one_text (codes "object")))
        ≡ record { state = (registry_starts begins).state; sent = [] } }
    ensures news { registry_takes (record room { own = None }) (owner_changed (codes ":1.2") (codes ":1.2") [])
        ≡ record { state = record room { own = None }; sent = [] } }
{}

/// What is sent stands behind what was queued.
pub fn queue()
    ensures refused { (takes (record { state = room; out = message 4 None [] ∷ [] })
        (registry_call six_ (codes "Pong") [])).out
        ≡ message 4 None [] ∷ at 10 (error_to six_ 5 (codes "UnknownMethod")) ∷ [] }
    ensures next { (takes (record { state = room; out = message 4 None [] ∷ [] })
        (registry_call six_ (codes "Pong") [])).state ≡ record room { next = 11 } }
{}
