//! Where messages go, and which calls stay open.

ghost use Rattle.std.specs.Prelude.{◌≡◌, ◌∷◌, [], None, Some, codes, true};
ghost use Rattle.atspi_types.specs.Data.{text_data};
ghost use Rattle.atspi_names.specs.Owners.{own_name};
ghost use Rattle.atspi_match.specs.routing.BusState.{OpenCall};
ghost use Rattle.atspi_match.specs.routing.OwnMessages.{error_to, return_to, signal};
ghost use Rattle.atspi_match.specs.routing.Routing.{receivers, is_for_bus};
ghost use Rattle.atspi_match.specs.routing.Steps.{says, delivers, closes, bus_takes};
ghost use Rattle.atspi_match.specs.routing.Room.{room, zero_, one_, two_, message, signal_m, call_to, bus_call};
ghost use Rattle.atspi_match.specs.routing.Room.{reply_to, hello};

/// A signal goes once to each connection that asks for it, in order of joining, also to who sent it; with its sender,
/// and else as it was.
pub fn signals()
    ensures both { bus_takes room 1 signal_m None
        ≡ record {
          state = room;
          moves = delivers 0 (record signal_m { sender = Some one_ })
              ∷ (delivers 2 (record signal_m { sender = Some one_ }) ∷ []);
        } }
    ensures own { receivers room (record signal_m { sender = Some zero_ }) ≡ 0 ∷ (2 ∷ []) }
    ensures other_member { receivers room (record signal_m { member = Some (codes "N") }) ≡ 0 ∷ [] }
    ensures to_one { receivers room (record signal_m { destination = Some one_ }) ≡ 1 ∷ [] }
    ensures to_nobody { bus_takes room 1 (record signal_m { destination = Some (codes "x.y") }) None
        ≡ record { state = room; moves = [] } }
    ensures to_bus { bus_takes room 1 (record signal_m { destination = Some own_name }) None
        ≡ record { state = room; moves = [] } }
{}

/// A call goes to the owner of the name, and stays open where it expects a reply; where nobody owns the name, the
/// caller is told.
pub fn calls()
    ensures owner { bus_takes room 0 (call_to (codes "a.b")) None
        ≡ record {
          state =
              record room {
                calls = record { caller = 0; serial = 7; callee = 1 }
                    ∷ (record { caller = 2; serial = 7; callee = 1 }
                    ∷ (record { caller = 0; serial = 8; callee = 1 }
                    ∷ (record { caller = 0; serial = 5; callee = 1 } ∷ [])));
              };
          moves = delivers 1 (record (call_to (codes "a.b")) { sender = Some zero_ }) ∷ [];
        } }
    ensures unexpecting { bus_takes room 0 (record (call_to two_) { flags = 1 }) None
        ≡ record { state = room; moves = delivers 2 (record (call_to two_) { flags = 1; sender = Some zero_ }) ∷ [] } }
    ensures unknown { bus_takes room 2 (call_to (codes "x.y")) None
        ≡ record {
          state = record room { next = 11 };
          moves = says (record (error_to (Some two_) 5 (codes "ServiceUnknown")) { serial = 10 })
              ∷ (delivers 2 (record (error_to (Some two_) 5 (codes "ServiceUnknown")) { serial = 10 }) ∷ []);
        } }
    ensures unknown_unexpecting { bus_takes room 2 (record (call_to (codes "x.y")) { flags = 1 }) None
        ≡ record { state = room; moves = [] } }
    ensures for_bus { is_for_bus (message 1 0 None None (Some (codes "M")) []) ≡ true }
{}

/// A reply of the callee to the caller answers the oldest call between them with its serial, and no other.
pub fn replies()
    ensures return_ { bus_takes room 1 (reply_to 2 zero_ 7) None
        ≡ record {
          state =
              record room {
                calls = record { caller = 2; serial = 7; callee = 1 }
                    ∷ (record { caller = 0; serial = 8; callee = 1 } ∷ []);
              };
          moves = delivers 0 (record (reply_to 2 zero_ 7) { sender = Some one_ }) ∷ [];
        } }
    ensures error { bus_takes room 1 (reply_to 3 two_ 7) None
        ≡ record {
          state =
              record room {
                calls = record { caller = 0; serial = 7; callee = 1 }
                    ∷ (record { caller = 0; serial = 8; callee = 1 } ∷ []);
              };
          moves = delivers 2 (record (reply_to 3 two_ 7) { sender = Some one_ }) ∷ [];
        } }
    ensures stranger { bus_takes room 2 (reply_to 2 zero_ 7) None
        ≡ record { state = room; moves = delivers 0 (record (reply_to 2 zero_ 7) { sender = Some two_ }) ∷ [] } }
    ensures unasked { bus_takes room 1 (reply_to 2 zero_ 9) None
        ≡ record { state = room; moves = delivers 0 (record (reply_to 2 zero_ 9) { sender = Some one_ }) ∷ [] } }
    ensures without_destination { bus_takes room 1 (record (reply_to 2 zero_ 7) { destination = None }) None
        ≡ record { state = room; moves = [] } }
{}

/// A type that the specification does not know goes by its destination, and to nobody without one.
pub fn larger_types()
    ensures to_one { bus_takes room 1 (message 5 0 (Some two_) None None []) None
        ≡ record {
          state = room;
          moves = delivers 2 (record (message 5 0 (Some two_) None None []) { sender = Some one_ }) ∷ [];
        } }
    ensures to_nobody { bus_takes room 1 (message 5 0 None None None []) None ≡ record { state = room; moves = [] } }
{}

/// The first message is a call of Hello, or the connection is to be closed.
pub fn first_messages()
    ensures no_hello { bus_takes room 3 signal_m None ≡ record { state = room; moves = closes 3 ∷ [] } }
    ensures other_call { bus_takes room 3 (bus_call (codes "GetId") []) None
        ≡ record { state = room; moves = closes 3 ∷ [] } }
    ensures other_interface { bus_takes room 3 (record hello { interface = Some (codes "i.f") }) None
        ≡ record { state = room; moves = closes 3 ∷ [] } }
    ensures no_destination { bus_takes room 3 (record hello { destination = None }) None
        ≡ record { state = room; moves = closes 3 ∷ [] } }
    ensures with_a_body { bus_takes room 3 (record hello { body = text_data [] ∷ [] }) None
        ≡ record { state = room; moves = closes 3 ∷ [] } }
    ensures no_call { bus_takes room 3 (record hello { kind = 4 }) None
        ≡ record { state = room; moves = closes 3 ∷ [] } }
{}
