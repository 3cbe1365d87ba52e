//! What the others are told when a connection leaves.

ghost use Rattle.std.specs.Prelude.{◌≡◌, ◌∷◌, [], None, Some, codes};
ghost use Rattle.std.specs.FinMap as finmap;
ghost use Rattle.atspi_names.specs.Owners.{list_of};
ghost use Rattle.atspi_match.specs.routing.OwnMessages.{error_to, signal, owner_changed};
ghost use Rattle.atspi_match.specs.routing.Queues.{own_of};
ghost use Rattle.atspi_match.specs.routing.Steps.{bus_leaves};
ghost use Rattle.atspi_match.specs.routing.Room.{room, zero_, one_, two_, signals, named_m, one_text};

/// Those who wait for its answer, the oldest call first; then its names by their bytes; then its unique name.
pub fn of_an_owner()
    ensures told { own_of (bus_leaves room 1).moves
        ≡ record (error_to (Some zero_) 7 (codes "NoReply")) { serial = 10 }
        ∷ (record (error_to (Some two_) 7 (codes "NoReply")) { serial = 11 }
        ∷ (record (error_to (Some zero_) 8 (codes "NoReply")) { serial = 12 }
        ∷ (record (signal (codes "NameAcquired") (Some two_) (one_text (codes "a.b"))) { serial = 13 }
        ∷ (record (owner_changed (codes "a.b") one_ two_) { serial = 14 }
        ∷ (record (owner_changed (codes "c.d") one_ []) { serial = 15 }
        ∷ (record (owner_changed one_ one_ []) { serial = 16 } ∷ [])))))) }
    ensures next { (bus_leaves room 1).state.next ≡ 17 }
    ensures joined { (bus_leaves room 1).state.joined ≡ 0 ∷ (2 ∷ (3 ∷ [])) }
    ensures calls { (bus_leaves room 1).state.calls ≡ [] }
    ensures owner { list_of (bus_leaves room 1).state.owners.lists (codes "a.b") ≡ (2, 0) ∷ [] }
    ensures unique { finmap.get (bus_leaves room 1).state.owners.unique 1 ≡ None }
{}

/// A caller that leaves gets no answer any more, and its rules go with it.
pub fn of_a_caller()
    ensures calls { (bus_leaves room 0).state.calls ≡ record { caller = 2; serial = 7; callee = 1 } ∷ [] }
    ensures rules { (bus_leaves room 0).state.rules ≡ (2, named_m) ∷ [] }
    ensures told { own_of (bus_leaves room 0).moves ≡ record (owner_changed zero_ zero_ []) { serial = 10 } ∷ [] }
{}

/// Nobody is told of a connection without a name.
pub fn of_a_stranger()
    ensures told { (bus_leaves room 3).moves ≡ [] }
    ensures joined { (bus_leaves room 3).state.joined ≡ 0 ∷ (1 ∷ (2 ∷ [])) }
    ensures next { (bus_leaves room 3).state.next ≡ 10 }
{}
