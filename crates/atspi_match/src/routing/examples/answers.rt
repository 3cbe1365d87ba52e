//! What the bus answers, member by member, and who is told before.

ghost use Rattle.std.specs.Prelude.{◌≡◌, ◌∷◌, ◌++◌, [], true, false, None, Some, codes, map};
ghost use Rattle.std.specs.FinMap as finmap;
ghost use Rattle.atspi_types.specs.Kinds.{u32};
ghost use Rattle.atspi_types.specs.Data.{text_data, number_data, boolean_data};
ghost use Rattle.atspi_names.specs.Owners.{own_name, list_of, unique_name};
ghost use Rattle.atspi_match.specs.routing.OwnMessages.{return_to, error_to, signal, owner_changed};
ghost use Rattle.atspi_match.specs.routing.Answers.{answers, returns, fails, texts};
ghost use Rattle.atspi_match.specs.routing.Steps.{says, delivers, bus_takes};
ghost use Rattle.atspi_match.specs.routing.Room.{owners, room, zero_, one_, two_, signals, named_m, bus_call, hello};
ghost use Rattle.atspi_match.specs.routing.Room.{one_text};

use crate::routing::BusMember;

/// A first Hello is returned before its name is told; a second one fails.
pub fn hellos()
    ensures first { (bus_takes room 3 hello None).moves
        ≡ says (record (return_to (Some (unique_name 3)) 5 (one_text (unique_name 3))) { serial = 10 })
        ∷ (delivers 3 (record (return_to (Some (unique_name 3)) 5 (one_text (unique_name 3))) { serial = 10 })
        ∷ (says
        (record (signal (codes "NameAcquired") (Some (unique_name 3)) (one_text (unique_name 3))) { serial = 11 })
        ∷ (delivers 3
        (record (signal (codes "NameAcquired") (Some (unique_name 3)) (one_text (unique_name 3))) { serial = 11 })
        ∷ (says (record (owner_changed (unique_name 3) [] (unique_name 3)) { serial = 12 })
        ∷ (delivers 0 (record (owner_changed (unique_name 3) [] (unique_name 3)) { serial = 12 }) ∷ []))))) }
    ensures next { (bus_takes room 3 hello None).state.next ≡ 13 }
    ensures named { finmap.get (bus_takes room 3 hello None).state.owners.unique 3 ≡ Some (unique_name 3) }
    ensures unexpecting { (bus_takes room 3 (record hello { flags = 1 }) None).state.next ≡ 12 }
    ensures second { answers BusMember.Hello room 0 [] None
        ≡ record { owners = owners; rules = room.rules; told = []; reply = fails (codes "Failed") } }
{}

/// A name that changes hands: its old owner, its new one, and all are told, and then the caller.
pub fn requests()
    ensures taken_over { (answers BusMember.RequestName room 0 (text_data (codes "a.b") ∷ (number_data u32 2 ∷ []))
        None).told
        ≡ signal (codes "NameLost") (Some one_) (one_text (codes "a.b"))
        ∷ (signal (codes "NameAcquired") (Some zero_) (one_text (codes "a.b"))
        ∷ (owner_changed (codes "a.b") one_ zero_ ∷ [])) }
    ensures answer { (answers BusMember.RequestName room 0 (text_data (codes "a.b") ∷ (number_data u32 2 ∷ []))
        None).reply ≡ returns (number_data u32 1 ∷ []) }
    ensures list { list_of
        (answers BusMember.RequestName room 0 (text_data (codes "a.b") ∷ (number_data u32 2 ∷ []))
        None).owners.lists (codes "a.b") ≡ (0, 2) ∷ ((1, 1) ∷ ((2, 0) ∷ [])) }
    ensures new { (answers BusMember.RequestName room 0 (text_data (codes "e.f") ∷ (number_data u32 0 ∷ [])) None).told
        ≡ signal (codes "NameAcquired") (Some zero_) (one_text (codes "e.f"))
        ∷ (owner_changed (codes "e.f") [] zero_ ∷ []) }
    ensures waits { (answers BusMember.RequestName room 0 (text_data (codes "c.d") ∷ (number_data u32 0 ∷ []))
        None).told ≡ [] }
    ensures waits_answer { (answers BusMember.RequestName room 0 (text_data (codes "c.d") ∷ (number_data u32 0 ∷ []))
        None).reply ≡ returns (number_data u32 2 ∷ []) }
    ensures unique { (answers BusMember.RequestName room 0 (text_data zero_ ∷ (number_data u32 0 ∷ [])) None).reply
        ≡ fails (codes "InvalidArgs") }
    ensures own { (answers BusMember.RequestName room 0 (text_data own_name ∷ (number_data u32 0 ∷ [])) None).reply
        ≡ fails (codes "InvalidArgs") }
    ensures no_name { (answers BusMember.RequestName room 0 (text_data (codes "ab") ∷ (number_data u32 0 ∷ []))
        None).reply ≡ fails (codes "InvalidArgs") }
{}

/// A name that is given back: to who waits for it, or to nobody.
pub fn releases()
    ensures passed_on { (answers BusMember.ReleaseName room 1 (one_text (codes "a.b")) None).told
        ≡ signal (codes "NameLost") (Some one_) (one_text (codes "a.b"))
        ∷ (signal (codes "NameAcquired") (Some two_) (one_text (codes "a.b"))
        ∷ (owner_changed (codes "a.b") one_ two_ ∷ [])) }
    ensures to_nobody { (answers BusMember.ReleaseName room 1 (one_text (codes "c.d")) None).told
        ≡ signal (codes "NameLost") (Some one_) (one_text (codes "c.d")) ∷ (owner_changed (codes "c.d") one_ [] ∷ []) }
    ensures answer { (answers BusMember.ReleaseName room 1 (one_text (codes "c.d")) None).reply
        ≡ returns (number_data u32 1 ∷ []) }
    ensures waiting { (answers BusMember.ReleaseName room 2 (one_text (codes "a.b")) None).told ≡ [] }
    ensures not_owner { (answers BusMember.ReleaseName room 0 (one_text (codes "a.b")) None).reply
        ≡ returns (number_data u32 3 ∷ []) }
    ensures unknown { (answers BusMember.ReleaseName room 0 (one_text (codes "x.y")) None).reply
        ≡ returns (number_data u32 2 ∷ []) }
    ensures unique { (answers BusMember.ReleaseName room 0 (one_text zero_) None).reply ≡ fails (codes "InvalidArgs") }
{}

/// Who owns a name; the bus owns its own.
pub fn owned()
    ensures has { (answers BusMember.NameHasOwner room 0 (one_text (codes "a.b")) None).reply
        ≡ returns (boolean_data true ∷ []) }
    ensures has_own { (answers BusMember.NameHasOwner room 0 (one_text own_name) None).reply
        ≡ returns (boolean_data true ∷ []) }
    ensures has_not { (answers BusMember.NameHasOwner room 0 (one_text (codes "x.y")) None).reply
        ≡ returns (boolean_data false ∷ []) }
    ensures owner { (answers BusMember.GetNameOwner room 0 (one_text (codes "a.b")) None).reply
        ≡ returns (one_text one_) }
    ensures own { (answers BusMember.GetNameOwner room 0 (one_text own_name) None).reply ≡ returns (one_text own_name) }
    ensures of_unique { (answers BusMember.GetNameOwner room 0 (one_text two_) None).reply ≡ returns (one_text two_) }
    ensures nobody { (answers BusMember.GetNameOwner room 0 (one_text (codes "x.y")) None).reply
        ≡ fails (codes "NameHasNoOwner") }
    ensures names { (answers BusMember.ListNames room 0 [] None).reply
        ≡ returns (texts (own_name ∷ (zero_ ∷ (one_ ∷ (two_ ∷ (codes "a.b" ∷ (codes "c.d" ∷ [])))))) ∷ []) }
    ensures queue { (answers BusMember.ListQueuedOwners room 0 (one_text (codes "a.b")) None).reply
        ≡ returns (texts (one_ ∷ (two_ ∷ [])) ∷ []) }
    ensures own_queue { (answers BusMember.ListQueuedOwners room 0 (one_text own_name) None).reply
        ≡ returns (texts (own_name ∷ []) ∷ []) }
    ensures no_queue { (answers BusMember.ListQueuedOwners room 0 (one_text (codes "x.y")) None).reply
        ≡ fails (codes "NameHasNoOwner") }
{}

/// Rules are added behind the others, and one equal rule of the caller goes.
pub fn rules()
    ensures added { (answers BusMember.AddMatch room 1 (one_text []) (Some signals)).rules
        ≡ room.rules ++ (1, signals) ∷ [] }
    ensures returned { (answers BusMember.AddMatch room 1 (one_text []) (Some signals)).reply ≡ returns [] }
    ensures no_rule { (answers BusMember.AddMatch room 1 (one_text []) None).reply ≡ fails (codes "MatchRuleInvalid") }
    ensures removed { (answers BusMember.RemoveMatch room 0 (one_text []) (Some named_m)).rules
        ≡ (0, signals) ∷ ((2, named_m) ∷ []) }
    ensures of_another { (answers BusMember.RemoveMatch room 1 (one_text []) (Some named_m)).reply
        ≡ fails (codes "MatchRuleNotFound") }
    ensures kept { (answers BusMember.RemoveMatch room 1 (one_text []) (Some named_m)).rules ≡ room.rules }
    ensures not_a_rule { (answers BusMember.RemoveMatch room 1 (one_text []) None).reply
        ≡ fails (codes "MatchRuleInvalid") }
{}

/// The bus's digits, and Ping.
pub fn others()
    ensures id { (answers BusMember.GetId room 0 [] None).reply
        ≡ returns (one_text (codes "61747370693200000000000000000001")) }
    ensures ping { (answers BusMember.Ping room 0 [] None).reply ≡ returns [] }
    ensures replied { (bus_takes room 0 (bus_call (codes "GetId") []) None).moves
        ≡ says (record (return_to (Some zero_) 5 (one_text (codes "61747370693200000000000000000001"))) { serial = 10 })
        ∷ (delivers 0
        (record (return_to (Some zero_) 5 (one_text (codes "61747370693200000000000000000001")))
        { serial = 10 }) ∷ []) }
    ensures refused { (bus_takes room 0 (bus_call (codes "Pong") []) None).moves
        ≡ says (record (error_to (Some zero_) 5 (codes "UnknownMethod")) { serial = 10 })
        ∷ (delivers 0 (record (error_to (Some zero_) 5 (codes "UnknownMethod")) { serial = 10 }) ∷ []) }
    ensures error_text { (error_to (Some zero_) 5 (codes "UnknownMethod")).error
        ≡ Some (codes "org.freedesktop.DBus.Error.UnknownMethod") }
{}
