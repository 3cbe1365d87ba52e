//! Which member of the bus a call asks for, and what is told of one that asks for none.

ghost use Rattle.std.specs.Prelude.{◌≡◌, ◌∷◌, [], None, Some, Ok, Err, codes};
ghost use Rattle.atspi_types.specs.Kinds.{u32};
ghost use Rattle.atspi_types.specs.Data.{text_data, number_data};
ghost use Rattle.atspi_names.specs.Owners.{own_name};
ghost use Rattle.atspi_match.specs.routing.Members.{peer, member_of};
ghost use Rattle.atspi_match.specs.routing.Room.{message, bus_call, one_text};

use crate::routing::BusMember;

/// Each line of the table, by the bus's interface.
pub fn lines()
    ensures hello { member_of (bus_call (codes "Hello") []) ≡ Ok BusMember.Hello }
    ensures request_name { member_of
        (bus_call (codes "RequestName") (text_data (codes "a.b") ∷ (number_data u32 4 ∷ [])))
        ≡ Ok BusMember.RequestName }
    ensures release_name { member_of (bus_call (codes "ReleaseName") (one_text (codes "a.b")))
        ≡ Ok BusMember.ReleaseName }
    ensures name_has_owner { member_of (bus_call (codes "NameHasOwner") (one_text (codes "a.b")))
        ≡ Ok BusMember.NameHasOwner }
    ensures get_name_owner { member_of (bus_call (codes "GetNameOwner") (one_text (codes "a.b")))
        ≡ Ok BusMember.GetNameOwner }
    ensures list_names { member_of (bus_call (codes "ListNames") []) ≡ Ok BusMember.ListNames }
    ensures list_queued_owners { member_of (bus_call (codes "ListQueuedOwners") (one_text (codes "a.b")))
        ≡ Ok BusMember.ListQueuedOwners }
    ensures add_match { member_of (bus_call (codes "AddMatch") (one_text [])) ≡ Ok BusMember.AddMatch }
    ensures remove_match { member_of (bus_call (codes "RemoveMatch") (one_text [])) ≡ Ok BusMember.RemoveMatch }
    ensures get_id { member_of (bus_call (codes "GetId") []) ≡ Ok BusMember.GetId }
    ensures ping { member_of (message 1 0 (Some own_name) (Some peer) (Some (codes "Ping")) []) ≡ Ok BusMember.Ping }
{}

/// A call without an interface is looked up by its member alone.
pub fn without_interface()
    ensures bus { member_of (message 1 0 (Some own_name) None (Some (codes "GetId")) []) ≡ Ok BusMember.GetId }
    ensures peer { member_of (message 1 0 (Some own_name) None (Some (codes "Ping")) []) ≡ Ok BusMember.Ping }
    ensures nobody { member_of (message 1 0 (Some own_name) None (Some (codes "Pong")) [])
        ≡ Err (codes "UnknownMethod") }
{}

/// The interface is looked at before the member, and the member before the arguments.
pub fn refused()
    ensures interface { member_of
        (message 1 0 (Some own_name) (Some (codes "i.f")) (Some (codes "Hello")) (one_text []))
        ≡ Err (codes "UnknownInterface") }
    ensures member { member_of (message 1 0 (Some own_name) (Some peer) (Some (codes "Hello")) (one_text []))
        ≡ Err (codes "UnknownMethod") }
    ensures arguments { member_of (bus_call (codes "Hello") (one_text [])) ≡ Err (codes "InvalidArgs") }
    ensures no_arguments { member_of (bus_call (codes "GetNameOwner") []) ≡ Err (codes "InvalidArgs") }
    ensures order_of_arguments { member_of
        (bus_call (codes "RequestName") (number_data u32 4 ∷ (text_data (codes "a.b") ∷ [])))
        ≡ Err (codes "InvalidArgs") }
{}
