//! Reading a match rule.

ghost use Rattle.std.specs.Prelude.{ℕ, List, IfErr, IfOk};
ghost use Rattle.atspi_match.specs.Grammar.{IsRuleText, Spells};
ghost use Rattle.atspi_match.specs.inner.Items.{RefusesItems};
ghost use Rattle.atspi_match.specs.Parsing.{IsThisFault, IsThisRule, TellsFirst};
ghost use Rattle.atspi_match.specs.RuleFaults.{FirstRuleFault};
ghost use Rattle.atspi_match.specs.declared.condition.Condition.{Condition};

use crate::item::{ItemFault, put, read_item};
use crate::{Condition, Rule, RuleFault, RuleRead};
use std::alloc::Global;

/// The most bytes that the text of a rule has.
const LIMIT: usize = 1024;

/// The conditions that the bytes say, in the order of their keys.
fn read_conditions(alloc: Global, bytes: &[u8]) -> Result<Vec<Condition>, ItemFault>
    ensures ok { IfOk result (λ conditions. Spells bytes.now conditions.items) }
    ensures bad { IfErr result (λ e. RefusesItems e bytes.now) }
{
    let mut conditions = Vec::new(alloc);
    let mut at = 0;
    'items: while at < bytes.len() {
        let item = match read_item(alloc, &bytes[at..], &conditions) {
            Ok(item) => item,
            Err(ItemFault::Bad { place, reason }) => {
                return Err(ItemFault::Bad {
                    place: at + place,
                    reason,
                });
            }
            Err(ItemFault::NoMemory) => return Err(ItemFault::NoMemory),
        };
        put(&mut conditions, item.condition)?;
        at += item.len;
        if at == bytes.len() {
            return Ok(conditions);
        }
        at += 1;
    }
    Ok(conditions)
}

/// The rule that the bytes say, or what is wrong first.
fn read_rule(alloc: Global, bytes: &[u8]) -> Result<Rule, RuleRead>
    ensures found { IfOk result (λ rule. IsRuleText bytes.now rule) }
    ensures first { TellsFirst result bytes.now }
{
    match read_conditions(alloc, bytes) {
        Ok(conditions) => {
            if bytes.len() > LIMIT {
                return Err(RuleRead::Bad(RuleFault {
                    place: 1024,
                    reason: 8,
                }));
            }
            Ok(Rule::of(conditions))
        }
        Err(ItemFault::Bad { place, reason }) => {
            if bytes.len() > LIMIT && place > LIMIT {
                return Err(RuleRead::Bad(RuleFault {
                    place: 1024,
                    reason: 8,
                }));
            }
            Err(RuleRead::Bad(RuleFault {
                place: place as u32,
                reason,
            }))
        }
        Err(ItemFault::NoMemory) => Err(RuleRead::NoMemory),
    }
}

impl Rule {
    /// The rule that the bytes are a text of (D-Bus Specification, "Match Rules"). Refused with the first fault, by
    /// place and then by number, of the reasons 1 to 8; a place counts bytes.
    pub fn parse(alloc: Global, bytes: &[u8]) -> Result<Rule, RuleRead>
        // What is read is spelled so, in at most 1,024 bytes.
        ensures found { IfOk result (λ rule. IsRuleText bytes.now rule) }
        // What is spelled so is read, unless memory runs out.
        ensures only { (rule : List Condition) → IsRuleText bytes.now rule → IsThisRule result rule }
        // Of all that is wrong the least is told.
        ensures first { TellsFirst result bytes.now }
        // The least of what is wrong is told, unless memory runs out.
        ensures told { (place reason : ℕ) → FirstRuleFault bytes.now place reason → IsThisFault result place reason }
    {
        read_rule(alloc, bytes)
    }
}
