//! AddMatch and RemoveMatch.

ghost use Rattle.std.specs.Prelude.{◌≡◌, ℕ, List, [], Option, IfOk, OnErr};
ghost use Rattle.atspi_match.specs.declared.condition.Condition.{Condition};
ghost use Rattle.atspi_names.specs.Owners.{Owners};
ghost use Rattle.atspi_match.specs.routing.Answers as answers;
ghost use Rattle.atspi_bus_answers.specs.Answered.{with_parts, IsAnswer, Spells};

use crate::BusError;
use crate::answering::Reply;
use atspi_base::NoMemory;
use atspi_match::{Rule, RuleAdd, RuleIndex, RuleRead};
use atspi_types::Values;
use std::alloc::Global;

/// The rule that a text spells, none where it spells none.
fn spelled(alloc: Global, text: &str) -> Result<Option<Rule>, NoMemory>
    ensures { IfOk result (λ rule. Spells text.now rule) }
{
    match Rule::parse(alloc, text.as_bytes()) {
        Ok(rule) => Ok(Some(rule)),
        Err(RuleRead::Bad(_)) => Ok(None),
        Err(RuleRead::NoMemory) => Err(NoMemory),
    }
}

/// AddMatch.
pub fn add_match(
    alloc: Global,
    rules: &mut RuleIndex,
    conn: u32,
    text: &str,
) -> Result<Reply, NoMemory>
    ensures ok { IfOk result (λ reply. (rule : Option (List Condition)) × Spells text.now rule × ((owners : Owners) →
        IsAnswer (answers.adds_rule (with_parts owners rules.old) conn rule) owners rules.new [] [] reply)) }
    ensures err { OnErr result (rules.new ≡ rules.old) }
{
    let Some(rule) = spelled(alloc, text)? else {
        return Ok(Reply::Fails(BusError::MatchRuleInvalid));
    };
    match rules.add(conn, rule) {
        Ok(()) => Ok(Reply::Returns(Values::new(alloc))),
        Err((_, RuleAdd::Limit)) => Ok(Reply::Fails(BusError::LimitsExceeded)),
        Err((_, RuleAdd::NoMemory)) => Err(NoMemory),
    }
}

/// RemoveMatch.
pub fn remove_match(
    alloc: Global,
    rules: &mut RuleIndex,
    conn: u32,
    text: &str,
) -> Result<Reply, NoMemory>
    ensures ok { IfOk result (λ reply. (rule : Option (List Condition)) × Spells text.now rule × ((owners : Owners) →
        IsAnswer (answers.removes_rule (with_parts owners rules.old) conn rule) owners rules.new [] [] reply)) }
    ensures err { OnErr result (rules.new ≡ rules.old) }
{
    let Some(rule) = spelled(alloc, text)? else {
        return Ok(Reply::Fails(BusError::MatchRuleInvalid));
    };
    if rules.remove(conn, &rule) {
        Ok(Reply::Returns(Values::new(alloc)))
    } else {
        Ok(Reply::Fails(BusError::MatchRuleNotFound))
    }
}
