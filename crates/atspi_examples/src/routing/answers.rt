//! What the bus's members leave behind them, and which first call is a Hello.

ghost use Rattle.std.specs.Prelude.{◌≡◌, ◌∷◌, ◌++◌, [], None, Some, codes, false, true};
ghost use Rattle.atspi_match.specs.RuleIndex.{rules_of};
ghost use Rattle.atspi_names.specs.Owners.{list_of, own_name};
ghost use Rattle.atspi_types.specs.Kinds.{u32};
ghost use Rattle.atspi_types.specs.Data.{text_data, number_data};
ghost use Rattle.atspi_match.specs.routing.Answers.{adds_rule, answers, fails, only, returns, second_number};
ghost use Rattle.atspi_match.specs.routing.BusState.{BusState};
ghost use Rattle.atspi_match.specs.routing.Steps.{bus_takes, is_hello};
ghost use Rattle.atspi_match.specs.routing.Room.{room, hello, one_text, signals};

use atspi_match::routing::BusMember;

/// A name that is given back goes to who waits for it; a request that waits stands last. Each leaves the rules as they
/// were.
#[tactic(auto, unfolding(atspi_base::specs::valid_names::Names::is_bus_name, atspi_base::specs::valid_names::Elements::are_two_or_more, atspi_base::specs::valid_names::Elements::are_elements, atspi_base::specs::valid_names::Elements::parts_of))]
pub fn changed()
    ensures released { list_of (answers BusMember.ReleaseName room 1 (one_text (codes "a.b")) None).owners.lists
        (codes "a.b") ≡ (2, 0) ∷ [] }
    ensures kept { list_of (answers BusMember.ReleaseName room 1 (one_text (codes "a.b")) None).owners.lists
        (codes "c.d") ≡ (1, 0) ∷ [] }
    ensures unknown { (answers BusMember.ReleaseName room 0 (one_text (codes "x.y")) None).told ≡ [] }
    ensures waits { list_of
        (answers BusMember.RequestName room 0 (text_data (codes "c.d") ∷ (number_data u32 0 ∷ []))
        None).owners.lists (codes "c.d") ≡ (1, 0) ∷ ((0, 0) ∷ []) }
    ensures requested_rules { (answers BusMember.RequestName room 0 (text_data (codes "c.d") ∷ (number_data u32 0 ∷ []))
        None).rules ≡ room.rules }
    ensures released_rules { (answers BusMember.ReleaseName room 1 (one_text (codes "a.b")) None).rules ≡ room.rules }
    ensures no_number { second_number (one_text []) ≡ 0 }
{}

/// A connection has 512 rules at most.
pub fn limits()
    ensures full { (s : BusState) → rules_of 1 s.rules ≡ 512
        → adds_rule s 1 (Some signals) ≡ only s (fails (codes "LimitsExceeded")) }
    ensures last { (s : BusState) → rules_of 1 s.rules ≡ 511
        → adds_rule s 1 (Some signals) ≡ record (only s (returns [])) { rules = s.rules ++ (1, signals) ∷ [] } }
{}

/// What is asked changes nothing.
#[tactic(auto, unfolding(atspi_base::specs::valid_names::Names::is_bus_name, atspi_base::specs::valid_names::Elements::are_two_or_more, atspi_base::specs::valid_names::Elements::are_elements, atspi_base::specs::valid_names::Elements::parts_of))]
pub fn table()
    ensures has { (answers BusMember.NameHasOwner room 0 (one_text (codes "a.b")) None).told ≡ [] }
    ensures refused { answers BusMember.RequestName room 0 (one_text (codes "ab")) None
        ≡ only room (fails (codes "InvalidArgs")) }
    ensures not_released { answers BusMember.ReleaseName room 0 (one_text (codes "ab")) None
        ≡ only room (fails (codes "InvalidArgs")) }
    ensures bus_not_released { answers BusMember.ReleaseName room 0 (one_text own_name) None
        ≡ only room (fails (codes "InvalidArgs")) }
{}

/// The first call may name the bus's interface or none, and goes to the bus.
pub fn first_calls()
    ensures named { is_hello hello ≡ true }
    ensures without_interface { is_hello (record hello { interface = None }) ≡ true }
    ensures taken { (bus_takes room 3 (record hello { interface = None }) None).state.next ≡ 13 }
    ensures elsewhere { is_hello (record hello { destination = Some (codes "a.b") }) ≡ false }
    ensures other_member { is_hello (record hello { member = Some (codes "Hell") }) ≡ false }
    ensures memberless { is_hello (record hello { member = None }) ≡ false }
{}
