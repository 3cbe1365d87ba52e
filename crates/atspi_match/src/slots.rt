//! Rules in their places: one that is taken out leaves its place empty, so that the others keep theirs.

ghost use Rattle.std.specs.Prelude.{◌≡◌, ◌≢◌, ◌<◌, ◌≤◌, ◌+◌, ◌↔◌, ◌++◌, ◌∷◌, [], ℕ, length, set, Contains, IsTrue};
ghost use Rattle.std.specs.Prelude.{IfOk, OnOk, MatchOption, Some, None, option_copied, option_to_list};
ghost use Rattle.atspi_message_in_place.specs.View.{envelope_at};
ghost use Rattle.atspi_match.specs.RuleIndex as index;
ghost use Rattle.atspi_match.specs.RuleIndex.{without_rules, nearby, IsNowhere, Receives};
ghost use Rattle.atspi_match.specs.Slots.{held_in, slot_at, chosen, cleared, is_its, is_this, AreNoted, IsFirstSlot};
ghost use Rattle.atspi_match.specs.Slots.{Hears};

use crate::Rule;
use crate::near::is_near;
use crate::rule_groups::RuleGroups;
use atspi_base::{NoMemory, Steps};
use atspi_message_in_place::MessageRef;
use atspi_names::Names;
use std::alloc::Global;
use std::mem;

/// The rule at a place.
fn rule_at(slots: &[Option<(u32, Rule)>], place: usize) -> Option<&(u32, Rule)>
    ensures { option_copied result ≡ slot_at slots.now place }
{
    match slots.get(place) {
        Some(Some(pair)) => Some(pair),
        _ => None,
    }
}

/// Takes out the rule at a place, which is empty then.
pub fn empty(slots: &mut Vec<Option<(u32, Rule)>>, groups: &mut RuleGroups, place: usize)
    requires place { place < length slots.old.items }
    requires noted { AreNoted groups.old slots.old.items }
    ensures slots { slots.new.items ≡ set slots.old.items place None }
    ensures noted { AreNoted groups.new slots.new.items }
{
    match mem::replace(&mut slots[place], None) {
        Some((_, rule)) => groups.forget(&rule, place),
        None => {}
    }
}

/// Whether a rule of the connection stands at a place.
fn is_of(slots: &[Option<(u32, Rule)>], place: usize, conn: u32) -> bool
    ensures { result ≡ is_its conn (slot_at slots.now place) }
{
    match rule_at(slots, place) {
        Some(pair) => pair.0 == conn,
        None => false,
    }
}

/// Takes out the rule at a place, if it is one of the connection.
fn empty_its(slots: &mut Vec<Option<(u32, Rule)>>, groups: &mut RuleGroups, place: usize, conn: u32)
    requires place { place < length slots.old.items }
    requires noted { AreNoted groups.old slots.old.items }
    ensures slots { slots.new.items ≡ set slots.old.items place (cleared conn (slot_at slots.old.items place)) }
    ensures noted { AreNoted groups.new slots.new.items }
{
    if !is_of(slots, place, conn) {
        return;
    }
    empty(slots, groups, place);
}

/// Takes out all rules of a connection.
pub fn empty_all(slots: &mut Vec<Option<(u32, Rule)>>, groups: &mut RuleGroups, conn: u32)
    requires { AreNoted groups.old slots.old.items }
    ensures held { held_in slots.new.items ≡ without_rules conn (held_in slots.old.items) }
    ensures noted { AreNoted groups.new slots.new.items }
{
    for place in 0..slots.len() {
        empty_its(slots, groups, place, conn);
    }
}

/// Whether a pair is this rule of the connection.
fn is_pair(pair: &(u32, Rule), conn: u32, rule: &Rule) -> bool
    ensures tested { result ≡ index.is_pair conn rule.now pair.now }
    ensures same { IsTrue result ↔ (pair.now ≡ (conn, rule.now)) }
{
    pair.0 == conn && pair.1.is(rule)
}

/// Whether the rule of the connection stands at a place.
fn is_rule_at(slots: &[Option<(u32, Rule)>], place: usize, conn: u32, rule: &Rule) -> bool
    ensures tested { result ≡ is_this conn rule.now (slot_at slots.now place) }
    ensures same { IsTrue result ↔ (slot_at slots.now place ≡ Some (conn, rule.now)) }
{
    match rule_at(slots, place) {
        Some(pair) => is_pair(pair, conn, rule),
        None => false,
    }
}

/// The first place where the rule of the connection stands.
pub fn first_of(slots: &[Option<(u32, Rule)>], conn: u32, rule: &Rule) -> Option<usize>
    ensures { MatchOption result (IsNowhere (held_in slots.now) conn rule.now) (IsFirstSlot slots.now conn rule.now) }
{
    for place in 0..slots.len() {
        if is_rule_at(slots, place, conn, rule) {
            return Some(place);
        }
    }
    None
}

/// Counts one step more. The count never falls.
fn count_step(steps: &mut Steps)
    ensures { (steps.old ≤ steps.new) × (steps.new ≤ steps.old + 1) }
{
    let before = steps.count();
    steps.tick();
    prove!(before <= steps.count());
}

/// The connection, if its rule matches the message.
fn heard(pair: &(u32, Rule), m: &MessageRef, names: &Names) -> Option<u32>
    ensures { Hears result (pair.now ∷ []) (envelope_at m.now) names.now }
{
    if !pair.1.matches(m, names) {
        return None;
    }
    Some(pair.0)
}

/// The connection, if its rule matches the message. Counts a step where the rule asks for no interface, or for that of
/// the message.
fn asked(pair: &(u32, Rule), m: &MessageRef, names: &Names, steps: &mut Steps) -> Option<u32>
    ensures heard { Hears result (pair.now ∷ []) (envelope_at m.now) names.now }
    ensures steps { (steps.old ≤ steps.new) × (steps.new ≤ steps.old + nearby (envelope_at m.now) (pair.now ∷ [])) }
{
    if !is_near(&pair.1, m) {
        return None;
    }
    count_step(steps);
    heard(pair, m, names)
}

/// The connection whose rule stands at a place, if the rule matches the message. Counts a step if there is one that
/// asks for no interface, or for that of the message.
fn heard_at(
    slots: &[Option<(u32, Rule)>],
    place: usize,
    m: &MessageRef,
    names: &Names,
    steps: &mut Steps,
) -> Option<u32>
    ensures heard { Hears result (option_to_list (slot_at slots.now place)) (envelope_at m.now) names.now }
    ensures steps { (steps.old ≤ steps.new)
        × (steps.new ≤ steps.old + nearby (envelope_at m.now) (option_to_list (slot_at slots.now place))) }
{
    match rule_at(slots, place) {
        Some(pair) => asked(pair, m, names, steps),
        None => None,
    }
}

/// Appends a connection, if there is one.
fn put(found: &mut Vec<u32>, conn: Option<u32>) -> Result<(), NoMemory>
    ensures { OnOk result (found.new.items ≡ found.old.items ++ option_to_list conn) }
{
    if let Some(conn) = conn {
        found.push(conn)?;
    }
    Ok(())
}

/// The connections with a rule at these places that matches the message, one for each such rule.
pub fn receiving(
    alloc: Global,
    slots: &[Option<(u32, Rule)>],
    places: &[usize],
    m: &MessageRef,
    names: &Names,
    steps: &mut Steps,
) -> Result<Vec<u32>, NoMemory>
    ensures found { IfOk result (λ found. (conn : ℕ) → Contains found.items conn
        ↔ Receives (chosen slots.now places.now) (envelope_at m.now) names.now conn) }
    ensures steps { (steps.old ≤ steps.new)
        × (steps.new ≤ steps.old + nearby (envelope_at m.now) (chosen slots.now places.now)) }
{
    let mut found = Vec::with_capacity(alloc, places.len())?;
    for place in places {
        let conn = heard_at(slots, *place, m, names, steps);
        put(&mut found, conn)?;
    }
    Ok(found)
}
