//! The groups in which the rules of a bus stand: a message looks into those alone that its own values name. A rule
//! stands in that group, of all values that it asks for, for whose value the fewest rules ask, so that rules with many
//! values in common stand by one in which they differ.

ghost use Rattle.std.specs.Prelude.{◌≡◌, ◌≢◌, ◌≤◌, ◌++◌, ℕ, List, true, false, Some, Contains, IfOk, OnOk, OnErr};
ghost use Rattle.std.specs.Option.{option_copied};
ghost use Rattle.std.specs.Ordering.{nat_cmp};
ghost use Rattle.std.specs.BTreeMap.{Updates, IsUnchanged};
ghost use Rattle.atspi_message_in_place.specs.View.{envelope_at};
ghost use Rattle.atspi_names.specs.Owners.{Owners};
ghost use Rattle.atspi_match.specs.declared.condition.Condition.{Condition};
ghost use Rattle.atspi_match.specs.Groups.{IsOwn};
ghost use Rattle.atspi_match.specs.Matching.{Matches};
ghost use Rattle.atspi_match.specs.Noted.{notes, has_place, askers_in, SetsNote, SameNotes};
ghost use Rattle.atspi_match.specs.RuleGroups.{IsNarrowest, IsNoted, Stays};

use crate::group::{asked, groups_of};
use crate::{Condition, Rule};
use atspi_base::NoMemory;
use atspi_message_in_place::MessageRef;
use std::alloc::Global;
use std::collections::{BTreeMap, BTreeSet};

/// The rules that stand in a group, each by its place.
#[derive(Drop)]
pub struct Group {
    places: BTreeSet<usize>,
    /// How many rules were noted that ask for its value, wherever they stand, since it is there. One that is forgotten
    /// is counted still.
    askers: usize,
}

/// The groups in which rules stand.
#[derive(Drop)]
pub struct RuleGroups {
    sets: BTreeMap<u64, Group>,
}

impl RuleGroups {
    /// No rule stands anywhere.
    pub fn new(alloc: Global) -> RuleGroups {
        RuleGroups {
            sets: BTreeMap::new(alloc),
        }
    }

    /// A group, if a rule stood there.
    fn get(&self, number: u64) -> Option<&Group>
        ensures { (q : ℕ) → has_place (option_copied result) q ≡ notes self.now.sets number q }
    {
        self.sets.get(&number)
    }

    /// How many rules ask for the value of a group, as far as they were counted.
    fn askers(&self, number: u64) -> usize
        ensures { result ≡ askers_in self.now.sets number }
    {
        match self.sets.get(&number) {
            Some(group) => group.askers,
            None => 0,
        }
    }

    /// The group of a rule for whose value the fewest rules ask, the last of those that are equal.
    fn narrowest(&self, conditions: &[Condition]) -> u64
        ensures { IsNarrowest self.now.sets conditions.now result }
    {
        let mut narrowest = 0;
        let mut fewest = usize::MAX;
        for condition in conditions {
            if let Some(number) = asked(condition) {
                let askers = self.askers(number);
                if askers <= fewest {
                    narrowest = number;
                    fewest = askers;
                }
            }
        }
        narrowest
    }

    /// Counts a rule more that asks for the value of a group, if the group is there.
    fn count(&mut self, number: u64)
        ensures { SameNotes self.old.sets self.new.sets }
    {
        if let Some(group) = self.sets.get_mut(&number) {
            group.askers = group.askers.saturating_add(1);
        }
    }

    /// Counts a rule more.
    fn count_all(&mut self, conditions: &[Condition])
        ensures { SameNotes self.old.sets self.new.sets }
    {
        for condition in conditions {
            if let Some(number) = asked(condition) {
                self.count(number);
            }
        }
    }

    /// Notes that a rule stands in a group. After want of memory nothing is noted.
    fn put_in(&mut self, alloc: Global, number: u64, place: usize) -> Result<(), NoMemory>
        ensures ok { OnOk result (SetsNote self.old.sets self.new.sets number place true) }
        ensures err { OnErr result (SameNotes self.old.sets self.new.sets) }
    {
        if let Some(group) = self.sets.get_mut(&number) {
            group.places.insert(place)?;
            return Ok(());
        }
        let mut places = BTreeSet::new(alloc);
        places.insert(place)?;
        put(&mut self.sets, number, Group { places, askers: 1 })
    }

    /// Forgets that a rule stands in a group.
    fn take_out(&mut self, number: u64, place: usize)
        ensures { SetsNote self.old.sets self.new.sets number place false }
    {
        if let Some(group) = self.sets.get_mut(&number) {
            group.places.remove(&place);
        }
    }

    /// Notes the rule at a place. What stood elsewhere stands there still.
    pub fn note(&mut self, alloc: Global, rule: &Rule, place: usize) -> Result<(), NoMemory>
        ensures narrowest { OnOk result
            ((number : ℕ) × IsNarrowest self.old.sets rule.now number
            × SetsNote self.old.sets self.new.sets number place true) }
        ensures noted { OnOk result (IsNoted self.new rule.now place) }
        ensures stays { Stays self.old self.new }
    {
        let number = self.narrowest(rule.conditions());
        self.count_all(rule.conditions());
        self.put_in(alloc, number, place)
    }

    /// Forgets the rule at a place, in whichever of its groups it stands.
    pub fn forget(&mut self, rule: &Rule, place: usize)
        ensures gone { (number : ℕ) → IsOwn rule.now number → notes self.new.sets number place ≡ false }
        ensures others { (other : List Condition) (q : ℕ) → q ≢ place → IsNoted self.old other q
            → IsNoted self.new other q }
    {
        self.take_out(0, place);
        for condition in rule.conditions() {
            if let Some(number) = asked(condition) {
                self.take_out(number, place);
            }
        }
    }

    /// Appends the places of one group.
    fn add_group(&self, number: u64, places: &mut Vec<usize>) -> Result<(), NoMemory>
        ensures all { OnOk result ((q : ℕ) → notes self.now.sets number q ≡ true → Contains places.new.items q) }
        ensures stays { OnOk result ((q : ℕ) → Contains places.old.items q → Contains places.new.items q) }
    {
        match self.get(number) {
            Some(group) => append_places(&group.places, places),
            None => Ok(()),
        }
    }

    /// Places at which rules may match the message: no rule that matches it stands elsewhere.
    pub fn places(&self, alloc: Global, m: &MessageRef) -> Result<Vec<usize>, NoMemory>
        ensures { IfOk result (λ places. (rule : List Condition) (owners : Owners) (q : ℕ) → IsNoted self.now rule q
            → Matches rule (envelope_at m.now) owners → Contains places.items q) }
    {
        let groups = groups_of(alloc, m)?;
        let mut places = Vec::new(alloc);
        for number in &groups {
            self.add_group(*number, &mut places)?;
        }
        Ok(places)
    }
}

/// Puts a group with its first rule. After want of memory there is none.
fn put(sets: &mut BTreeMap<u64, Group>, number: u64, group: Group) -> Result<(), NoMemory>
    ensures ok { OnOk result (Updates nat_cmp sets.old sets.new number (Some group)) }
    ensures err { OnErr result (IsUnchanged sets.old sets.new) }
{
    sets.insert(number, group)?;
    Ok(())
}

/// Appends the places of a set.
fn append_places(set: &BTreeSet<usize>, places: &mut Vec<usize>) -> Result<(), NoMemory>
    ensures { OnOk result (places.new.items ≡ places.old.items ++ set.now.keys) }
{
    places.reserve(set.len())?;
    for place in set {
        places.push(*place)?;
    }
    Ok(())
}
