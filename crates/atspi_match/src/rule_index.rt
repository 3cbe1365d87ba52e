//! The rules of the connections, and who receives a message.

ghost use Rattle.std.specs.Prelude.{◌≡◌, ◌≢◌, ◌↔◌, ◌+◌, ◌<◌, ◌≤◌, ℕ, [], ◌∷◌, ◌++◌, length, vec_len, vec_capacity};
ghost use Rattle.std.specs.Prelude.{Contains, IsTrue, IfOk, OnOk, OnErr, IfErr, IsErrAnd, MatchBool, List};
ghost use Rattle.std.specs.Prelude.{option_to_list};
ghost use Rattle.atspi_message_in_place.specs.View.{envelope_at};
ghost use Rattle.atspi_match.specs.Counts.{count_in, SetsCount, SameCounts};
ghost use Rattle.atspi_match.specs.RuleGroups.{IsNoted, Stays};
ghost use Rattle.atspi_match.specs.RuleIndex as index;
ghost use Rattle.atspi_match.specs.RuleIndex.{IsWithinLimit, without_rules, without_first, nearby, GoesOut};
ghost use Rattle.atspi_match.specs.RuleIndex.{AreReceivers};
ghost use Rattle.atspi_match.specs.Slots.{held_in};

use crate::Rule;
use crate::counts::Counts;
use crate::rule_groups::RuleGroups;
use crate::slots::{empty, empty_all, first_of, receiving};
use atspi_base::{NoMemory, Nums, Steps};
use atspi_message_in_place::MessageRef;
use atspi_names::Names;
use std::alloc::{AllocFailed, Global};
use std::marker::Model;
use std::mem;
use thiserror::Error;

/// How many rules a connection may have.
const MOST_RULES: u32 = 512;

/// Why a rule was not added.
#[derive(Clone, Copy, Debug, PartialEq, Eq, Error)]
pub enum RuleAdd {
    /// The connection has 512 rules.
    #[error("the connection has 512 rules")]
    Limit,
    #[error("out of memory")]
    NoMemory,
}

/// The match rules of the connections of a bus. A connection is known by its number, and has at most 512 rules.
/// Contracts see the list of connections with their rules, in the order in which they were added. It keeps the
/// allocator that it was made with.
///
/// A message looks at the rules of those groups alone that its own values name.
#[derive(Drop)]
pub struct RuleIndex {
    alloc: Global,
    /// The rules in the order in which they were added: one that is taken out leaves its place empty.
    slots: Vec<Option<(u32, Rule)>>,
    /// How many places were emptied.
    emptied: usize,
    groups: RuleGroups,
    counts: Counts,
}

impl Model for RuleIndex {
    ghost use Rattle.std.specs.Prelude.{ℕ, List};
    ghost use Rattle.atspi_match.specs.declared.condition.Condition.{Condition};
    ghost use Rattle.atspi_match.specs.Slots.{held_in, IsIndexed};

    ghost Value = { List (ℕ × List Condition) };

    ghost view = { λ i. held_in i.slots.items };

    ghost invariant = { λ i. IsIndexed i.slots.items i.groups i.counts };
}

impl RuleIndex {
    /// No rule.
    pub fn new(alloc: Global) -> RuleIndex
        ensures { result ≡ [] }
    {
        let slots = Vec::new(alloc);
        let counts = Counts::new(alloc);
        RuleIndex {
            alloc,
            slots,
            emptied: 0,
            groups: RuleGroups::new(alloc),
            counts,
        }
    }

    /// The same rules of the same connections. It fails only for want of memory.
    pub fn copy(&self) -> Result<RuleIndex, NoMemory>
        ensures { IfOk result (λ copy. copy ≡ self.now) }
    {
        let copy = copy_slots(self.alloc, &self.slots)?;
        Ok(copy)
    }

    /// Closes up the rules, where more places were emptied than hold one.
    fn close_up(&mut self)
        ensures { self.new ≡ self.old }
    {
        if self.emptied <= self.slots.len() / 2 {
            return;
        }
        match self.copy() {
            Ok(copy) => *self = copy,
            Err(_) => {}
        }
    }

    /// Puts a rule of a connection behind the others that has not 512 yet. After want of memory all is as before.
    fn put(&mut self, conn: u32, rule: Rule) -> Result<(), AllocFailed<Rule>>
        requires { index.rules_of conn self.old ≢ 512 }
        ensures ok { OnOk result (self.new ≡ self.old ++ (conn, rule) ∷ []) }
        ensures err { OnErr result (self.new ≡ self.old) }
        ensures handed_back { IfErr result (λ refused. refused.value ≡ rule) }
    {
        let alloc = self.alloc;
        match make_room(
            alloc,
            &mut self.slots,
            &mut self.groups,
            &mut self.counts,
            conn,
            &rule,
        ) {
            Ok(()) => {
                self.slots.push_reserved(Some((conn, rule)));
                Ok(())
            }
            Err(_) => Err(AllocFailed { value: rule }),
        }
    }

    /// Adds a rule of the connection, which may have an equal one already: AddMatch. `Limit` exactly where the
    /// connection has 512 rules. A rule that is not added is handed back, and all is as before.
    pub fn add(&mut self, conn: u32, rule: Rule) -> Result<(), (Rule, RuleAdd)>
        ensures ok { OnOk result (self.new ≡ self.old ++ (conn, rule) ∷ []) }
        ensures limit { IsErrAnd result (λ refused. refused.1 ≡ RuleAdd.Limit) ↔ (index.rules_of conn self.old ≡ 512) }
        ensures err { OnErr result (self.new ≡ self.old) }
        ensures handed_back { IfErr result (λ refused. refused.0 ≡ rule) }
    {
        if self.rules_of(conn) == MOST_RULES {
            return Err((rule, RuleAdd::Limit));
        }
        self.close_up();
        match self.put(conn, rule) {
            Ok(()) => Ok(()),
            Err(refused) => Err((refused.value, RuleAdd::NoMemory)),
        }
    }

    /// How many rules the connection has.
    fn rules_of(&self, conn: u32) -> u32
        ensures { result ≡ index.rules_of conn self.now }
    {
        self.counts.of(conn)
    }

    /// Takes out one rule of the connection that is equal to the rule, the first that was added, and answers whether
    /// there was one: RemoveMatch.
    pub fn remove(&mut self, conn: u32, rule: &Rule) -> bool
        ensures pairs { self.new ≡ without_first self.old conn rule.now }
        ensures one { MatchBool result (GoesOut self.old self.new (conn, rule.now)) (self.new ≡ self.old) }
        ensures none { IsTrue result ↔ Contains self.old (conn, rule.now) }
    {
        match first_of(&self.slots, conn, rule) {
            Some(place) => {
                empty(&mut self.slots, &mut self.groups, place);
                self.counts.fall(conn);
                self.emptied = self.emptied.saturating_add(1);
                true
            }
            None => false,
        }
    }

    /// Takes out all rules of the connection.
    pub fn drop_conn(&mut self, conn: u32)
        ensures { self.new ≡ without_rules conn self.old }
    {
        let emptied = self.counts.of(conn) as usize;
        empty_all(&mut self.slots, &mut self.groups, conn);
        self.counts.drop_conn(conn);
        self.emptied = self.emptied.saturating_add(emptied);
    }

    /// Appends the connections with a rule that matches the message, by rising number, each once. Counts at most one
    /// step for each rule that asks for no interface, or for that of the message. After want of memory the list is as
    /// before.
    pub fn receivers(
        &self,
        m: &MessageRef,
        names: &Names,
        out: &mut Nums,
        steps: &mut Steps,
    ) -> Result<(), NoMemory>
        ensures ok { OnOk result ((receivers : List ℕ) × (out.new ≡ out.old ++ receivers)
            × AreReceivers self.now (envelope_at m.now) names.now receivers) }
        ensures err { OnErr result (out.new ≡ out.old) }
        ensures steps { (steps.old ≤ steps.new) × (steps.new ≤ steps.old + length self.now) }
        ensures few { steps.new ≤ steps.old + nearby (envelope_at m.now) self.now }
    {
        let mut places = self.groups.places(self.alloc, m)?;
        places.sort_unstable();
        places.dedup();
        let mut found = receiving(self.alloc, &self.slots, &places, m, names, steps)?;
        found.sort_unstable();
        found.dedup();
        append(self.alloc, out, &found)
    }
}

/// Puts a copy of the rule at a place behind others, if there is one.
fn put_copy(copy: &mut RuleIndex, alloc: Global, slot: &Option<(u32, Rule)>) -> Result<(), NoMemory>
    requires { IsWithinLimit (copy.old ++ option_to_list slot.now) }
    ensures { OnOk result (copy.new ≡ copy.old ++ option_to_list slot.now) }
{
    match slot {
        Some(pair) => {
            let rule = pair.1.copy(alloc)?;
            copy.put(pair.0, rule)?;
            Ok(())
        }
        None => Ok(()),
    }
}

/// The rules in their places, one behind the other.
fn copy_slots(alloc: Global, slots: &[Option<(u32, Rule)>]) -> Result<RuleIndex, NoMemory>
    requires { IsWithinLimit (held_in slots.now) }
    ensures { IfOk result (λ copy. copy ≡ held_in slots.now) }
{
    let mut copy = RuleIndex::new(alloc);
    for slot in slots {
        put_copy(&mut copy, alloc, slot)?;
    }
    Ok(copy)
}

/// Makes room for a rule of a connection more, notes it in its group at the place behind the others, and counts it.
/// After want of memory it is not counted.
fn make_room(
    alloc: Global,
    slots: &mut Vec<Option<(u32, Rule)>>,
    groups: &mut RuleGroups,
    counts: &mut Counts,
    conn: u32,
    rule: &Rule,
) -> Result<(), NoMemory>
    requires { count_in counts.old.counts conn < 512 }
    ensures slots { slots.new.items ≡ slots.old.items }
    ensures room { OnOk result (vec_len slots.new < vec_capacity slots.new) }
    ensures noted { OnOk result (IsNoted groups.new rule.now (length slots.old.items)) }
    ensures stays { Stays groups.old groups.new }
    ensures counted { OnOk result
        (SetsCount counts.old.counts counts.new.counts conn (count_in counts.old.counts conn + 1)) }
    ensures err { OnErr result (SameCounts counts.old.counts counts.new.counts) }
{
    slots.reserve(1)?;
    groups.note(alloc, rule, slots.len())?;
    let count = counts.of(conn);
    counts.set(conn, count + 1)
}

/// Appends the numbers. After want of memory the list is as before.
fn append(alloc: Global, out: &mut Nums, numbers: &[u32]) -> Result<(), NoMemory>
    ensures ok { OnOk result (out.new ≡ out.old ++ numbers.now) }
    ensures err { OnErr result (out.new ≡ out.old) }
{
    let mut all = mem::replace(out, Nums::new(alloc)).into_vec();
    let appended = all.extend_from_slice(numbers);
    *out = Nums::from_vec(all);
    appended?;
    Ok(())
}
