//! The cases.

ghost use Rattle.std.specs.Prelude.{◌≡◌, ◌<◌, ◌≤◌, ◌∷◌, ℕ, List, [], None, length};
ghost use Rattle.atspi_message.specs.Bytes.{FitsWire, rising_fields, written};
ghost use Rattle.atspi_match.specs.declared.routing.closing.Why.TheVariants.{Quota};
ghost use Rattle.atspi_match.specs.routing.Queues.{stepped, told_length};
ghost use Rattle.atspi_match.specs.routing.Room.{one_};
ghost use Rattle.atspi_match.specs.routing.Steps.{bus_takes};
ghost use Rattle.atspi_live_bus_examples.specs.limits.Sized.{bare, signed, with_path, to, sent_to, in_room};

/// A message with no field, or with its sender's name alone, is within the limits. One is not whose path has more bytes
/// than all fields may have.
pub fn limits()
    ensures no_field { FitsWire bare (rising_fields bare) }
    ensures one_field { FitsWire signed (rising_fields signed) }
    ensures path { (path : List ℕ) → 67108864 < length path
        → FitsWire (with_path path bare) (rising_fields (with_path path bare)) → ⊥ }
{}

/// In a bus whose queues take 16,777,216 bytes a message of connection 0 to the name of connection 1 that has more with
/// the name of 0 closes connection 1, which is told with what waits for it, nothing, and that length; one that has as
/// many closes nobody. All have joined as before.
pub fn too_long()
    ensures receiver { (path : List ℕ) → 16777216 < length (written (with_path path (sent_to one_)))
        → (stepped in_room (bus_takes in_room.state 0 (with_path path (to one_)) None)).waiting.due
        ≡ (1, Quota 0 (told_length (written (with_path path (sent_to one_))))) ∷ [] }
    ensures nobody { (path : List ℕ) → length (written (with_path path (sent_to one_))) ≤ 16777216
        → (stepped in_room (bus_takes in_room.state 0 (with_path path (to one_)) None)).waiting.due ≡ [] }
    ensures joined { (path : List ℕ)
        → (stepped in_room (bus_takes in_room.state 0 (with_path path (to one_)) None)).state.joined
        ≡ 0 ∷ (1 ∷ (2 ∷ (3 ∷ []))) }
{}
